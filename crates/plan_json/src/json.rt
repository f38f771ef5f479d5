//! A plan as JSON.

ghost use Rattle.std.specs.Prelude.{◌≡◌, IfOk, OnOk, Some, codes, map, string_bytes, vec_items};
ghost use Rattle.serde_json.specs.Data.{array, put as with_member};
ghost use Rattle.serde_json.specs.Read.{read};
ghost use Rattle.serde_json.specs.View.{items_of, view, members_view};
ghost use Rattle.serde_json.specs.Written.{compact_text};
ghost use Rattle.texts.specs.Variables.{pair_of};
ghost use Rattle.command_files.specs.Order.{needs_at};
ghost use Rattle.plan_json.specs.Values.{count_data};
ghost use Rattle.plan_json.specs.Json as spec;
ghost use Rattle.command_files.specs.Numbered.{numbered};

use crate::{push_text, put_text, put_texts};
use command_files::{CommandFiles, files_of, needs};
use compilers::command::Cacheable;
use compilers::plans::{Dropped, ListedCommand, Origin, PlanWithOrigins};
use serde_json::{Map, Value, push, put};
use std::alloc::{AllocError, Global};

// A variable: a list of its name and its value.
fn variable_value(alloc: Global, pair: &(String, String)) -> Result<Value, AllocError>
    ensures { IfOk result (λ v. view v ≡ spec.variable_data (pair_of pair.now)) }
{
    let mut list = Vec::new(alloc);
    push_text(alloc, &mut list, pair.0.as_str())?;
    push_text(alloc, &mut list, pair.1.as_str())?;
    Ok(Value::Array(list))
}

fn variables_value(alloc: Global, variables: &[(String, String)]) -> Result<Value, AllocError>
    ensures { IfOk result (λ v. view v ≡ spec.variables_data (map pair_of variables.now)) }
{
    let mut list = Vec::new(alloc);
    for pair in variables {
        push(&mut list, variable_value(alloc, pair)?)?;
    }
    Ok(Value::Array(list))
}

fn counts_value(alloc: Global, counts: &[usize]) -> Result<Value, AllocError>
    ensures { IfOk result (λ v. view v ≡ spec.counts_data counts.now) }
{
    let mut list = Vec::new(alloc);
    for count in counts {
        push(&mut list, Value::from(*count))?;
    }
    Ok(Value::Array(list))
}

// Adds to an object the line and the run that a command comes from.
fn put_origin(
    alloc: Global,
    members: &mut Map<String, Value>,
    line: usize,
    run: usize,
) -> Result<(), AllocError>
    ensures { OnOk result (members_view members.new.entries
        ≡ with_member (codes "run") (count_data run)
        (with_member (codes "line") (count_data (spec.from_one line)) (members_view members.old.entries))) }
{
    put(members, alloc, "line", Value::from(line.saturating_add(1)))?;
    put(members, alloc, "run", Value::from(run))
}

fn command_value(
    alloc: Global,
    id: usize,
    origin: Origin,
    needs: &[usize],
    files: &CommandFiles,
    listed: &ListedCommand<'_>,
) -> Result<Value, AllocError>
    ensures { IfOk result (λ v. view v ≡ spec.command_data id listed.now.group origin needs.now files.now listed.now.command) }
{
    let command = listed.command;
    let is_cacheable = matches!(command.cacheable, Cacheable::Yes);
    let env = variables_value(alloc, command.env_vars.as_slice())?;
    let mut map = Map::new(alloc);
    put(&mut map, alloc, "env", env)?;
    put_text(alloc, &mut map, "exe", command.exe.as_str())?;
    put_texts(alloc, &mut map, "args", command.args.as_slice())?;
    put_text(alloc, &mut map, "cwd", command.cwd.as_str())?;
    put(&mut map, alloc, "cacheable", Value::Bool(is_cacheable))?;
    put_texts(alloc, &mut map, "reads", files.reads.as_slice())?;
    put_texts(alloc, &mut map, "writes", files.writes.as_slice())?;
    put_texts(alloc, &mut map, "may_write", files.may_write.as_slice())?;
    put(&mut map, alloc, "complete", Value::Bool(files.complete))?;
    put(&mut map, alloc, "id", Value::from(id))?;
    put(&mut map, alloc, "group", Value::from(listed.group))?;
    put(&mut map, alloc, "needs", counts_value(alloc, needs)?)?;
    put_origin(alloc, &mut map, origin.line, origin.run)?;
    Ok(Value::Object(map))
}

fn origin_at(origins: &[Origin], id: usize) -> Origin
    ensures { result ≡ spec.origin_at origins.now id }
{
    match origins.get(id) {
        Some(origin) => *origin,
        None => Origin { line: 0, run: 0 },
    }
}

fn needs_at(needs: &[Vec<usize>], id: usize) -> &[usize]
    ensures { result.now ≡ needs_at (map vec_items needs.now) id }
{
    match needs.get(id) {
        Some(needs) => needs.as_slice(),
        None => &[],
    }
}

fn commands_value(
    alloc: Global,
    origins: &[Origin],
    needs: &[Vec<usize>],
    commands: &[ListedCommand<'_>],
) -> Result<Value, AllocError>
    ensures { IfOk result (λ v. view v
        ≡ array (items_of (numbered (spec.command_at (record { origins = origins.now; needs = map vec_items needs.now })) 0 commands.now))) }
{
    let mut list = Vec::new(alloc);
    for (id, listed) in commands.iter().enumerate() {
        let (origin, needs) = (origin_at(origins, id), needs_at(needs, id));
        let files = files_of(alloc, listed.command)?;
        let value = command_value(alloc, id, origin, needs, &files, listed)?;
        push(&mut list, value)?;
    }
    Ok(Value::Array(list))
}

fn dropped_value(alloc: Global, dropped: &Dropped) -> Result<Value, AllocError>
    ensures { IfOk result (λ v. view v ≡ spec.dropped_data dropped.now) }
{
    let mut map = Map::new(alloc);
    put_text(alloc, &mut map, "exe", dropped.exe.as_str())?;
    put_texts(alloc, &mut map, "args", dropped.args.as_slice())?;
    put_origin(alloc, &mut map, dropped.line, dropped.run)?;
    put_text(alloc, &mut map, "reason", dropped.reason.name())?;
    Ok(Value::Object(map))
}

fn all_dropped_value(alloc: Global, dropped: &[Dropped]) -> Result<Value, AllocError>
    ensures { IfOk result (λ v. view v ≡ spec.all_dropped_data dropped.now) }
{
    let mut list = Vec::new(alloc);
    for command in dropped {
        push(&mut list, dropped_value(alloc, command)?)?;
    }
    Ok(Value::Array(list))
}

fn plan_commands(alloc: Global, planned: &PlanWithOrigins) -> Result<Value, AllocError>
    ensures { IfOk result (λ v. view v ≡ spec.commands_data planned.now) }
{
    let origins = planned.origins.as_slice();
    let commands = planned.plan.groups.listed(alloc)?;
    let needed = needs(alloc, &planned.plan)?;
    commands_value(alloc, origins, needed.as_slice(), commands.as_slice())
}

fn plan_value(
    alloc: Global,
    cwd: &str,
    tmp: &str,
    flag: &str,
    planned: &PlanWithOrigins,
) -> Result<Value, AllocError>
    ensures { IfOk result (λ v. view v ≡ spec.data_of (record { cwd = cwd.now; tmp = tmp.now; flag = flag.now; planned = planned.now })) }
{
    let mut map = Map::new(alloc);
    put(&mut map, alloc, "version", Value::from(1_usize))?;
    put_text(alloc, &mut map, "cwd", cwd)?;
    put_text(alloc, &mut map, "tmp", tmp)?;
    put_text(alloc, &mut map, "flag", flag)?;
    put(&mut map, alloc, "commands", plan_commands(alloc, planned)?)?;
    let groups = planned.plan.groups.as_slice().len();
    put(&mut map, alloc, "groups", Value::from(groups))?;
    let dropped = all_dropped_value(alloc, planned.plan.dropped.as_slice())?;
    put(&mut map, alloc, "dropped", dropped)?;
    Ok(Value::Object(map))
}

/// A plan as JSON, version 1 of the format, without spaces. `docs/plan.schema.json` is its JSON Schema.
///
/// - `version` is 1. `cwd`, `tmp` and `flag` are the working directory, the temporary directory and the compilation flag.
/// - `commands` has the commands in plan order, which is an order that they may run in. Each has its number `id`, from 0; the
///   number `group` of its group, from 0; the `line` (from 1) and the `run` (1 or 2) of the dry runs that it comes from; `cwd`,
///   `exe`, `args`, `env` (a list of pairs `[name, value]`, since a name may occur twice) and `cacheable`; `needs`, the numbers of
///   the earlier commands that have to end before it starts; the files that it `reads`, that it `writes`, and that it
///   `may_write` or leave out; and `complete`, which says if these are all files that its words name.
/// - `groups` is the number of groups, as the first and the last may be empty.
/// - `dropped` has the dropped commands, each with `line`, `run`, `exe`, `args` and `reason`.
///
/// The members of an object are in the order of their names. A reader of the text gets these values back. If the plan has fewer
/// origins than commands, the others get run 0.
///
/// Fails only if memory runs out, since JSON can represent every text.
pub fn json_text(
    alloc: Global,
    cwd: &str,
    tmp: &str,
    flag: &str,
    planned: &PlanWithOrigins,
) -> Result<String, AllocError>
    ensures text { IfOk result (λ text. string_bytes text ≡ compact_text (spec.data_of (record { cwd = cwd.now; tmp = tmp.now; flag = flag.now; planned = planned.now }))) }
    ensures reads_back { IfOk result (λ text. read (string_bytes text) ≡ Some (spec.data_of (record { cwd = cwd.now; tmp = tmp.now; flag = flag.now; planned = planned.now }))) }
{
    let value = plan_value(alloc, cwd, tmp, flag, planned)?;
    value.to_string(alloc)
}
