//! A plan as a Ninja file.

ghost use Rattle.std.specs.Prelude.{◌≡◌, ◌++◌, IfOk, OnOk, encode_utf8_all, map, string_bytes, vec_items};
ghost use Rattle.std.specs.List.{flat_map, list_all};
ghost use Rattle.command_files.specs.Order.{needs_at};
ghost use Rattle.plan_texts.specs.Answers.{Answers};
ghost use Rattle.plan_texts.specs.Description.{description};
ghost use Rattle.plan_texts.specs.Graph as spec;

use crate::description::description;
use crate::{Format, Refusal, holds_text, holds_words, judge_commands, push_command};
use command_files::needs;
use compilers::command::Cacheable;
use compilers::plans::{Dropped, ListedCommand, NvccGeneratedSubcommand, Plan};
use std::alloc::{AllocError, Global};
use texts::decimal::push_number;
use texts::shell::push_quoted;

fn push_value_char(text: &mut String, c: char) -> Result<(), AllocError>
    ensures { OnOk result (string_bytes text.new ≡ string_bytes text.old ++ encode_utf8_all (spec.escaped_char c)) }
{
    if c == '$' {
        text.push_str("$$")
    } else {
        text.push(c)
    }
}

// Adds a text as a variable's value, in which `$` is doubled.
fn push_value(text: &mut String, value: &str) -> Result<(), AllocError>
    ensures { OnOk result (string_bytes text.new ≡ string_bytes text.old ++ spec.escaped value.now) }
{
    for c in value.chars() {
        push_value_char(text, c)?;
    }
    Ok(())
}

// Adds the path of a command's stamp in the directory `tmp`, given the number of its group, and its place there.
fn push_stamp(text: &mut String, tmp: &str, group: usize, place: usize) -> Result<(), AllocError>
    ensures { OnOk result (string_bytes text.new ≡ string_bytes text.old ++ spec.stamp_path tmp.now group place) }
{
    write!(text, "{tmp}/zigrunk.{group}.{place}")
}

// What an edge runs. A runner, and a launcher if a cache may serve the program's outputs, run the program.
fn edge_command(
    alloc: Global,
    tmp: &str,
    at: (usize, usize),
    command: &NvccGeneratedSubcommand,
) -> Result<String, AllocError>
    ensures { IfOk result (λ text. string_bytes text ≡ spec.edge_command tmp.now at.0 at.1 command.now) }
{
    let mut stamp = String::new(alloc);
    push_stamp(&mut stamp, tmp, at.0, at.1)?;
    let launcher = match command.cacheable {
        Cacheable::Yes => "${ZIGRUNK_RUNNER-} ${ZIGRUNK_LAUNCHER-} ",
        Cacheable::No => "${ZIGRUNK_RUNNER-} ",
    };
    let mut text = String::new(alloc);
    push_command(alloc, &mut text, launcher, command)?;
    text.push_str(" && touch ")?;
    push_quoted(&mut text, stamp.as_str(), &[])?;
    Ok(text)
}

// Adds the line of a command's description.
fn push_description(
    alloc: Global,
    text: &mut String,
    command: &NvccGeneratedSubcommand,
) -> Result<(), AllocError>
    ensures { OnOk result (string_bytes text.new ≡ string_bytes text.old ++ spec.description_line (description command.now)) }
{
    let shown = description(alloc, command)?;
    text.push_str("  description = ")?;
    push_value(text, shown.as_str())?;
    text.push_str("\n")
}

// Adds the edge of a command, given the text of what it needs.
fn push_edge(
    alloc: Global,
    text: &mut String,
    tmp: &str,
    needs: &str,
    listed: &ListedCommand<'_>,
) -> Result<(), AllocError>
    ensures { OnOk result (string_bytes text.new ≡ string_bytes text.old ++ spec.edge tmp.now needs.now listed.now) }
{
    let at = (listed.group, listed.place);
    let line = edge_command(alloc, tmp, at, listed.command)?;
    text.push_str("build ")?;
    push_stamp(text, "${tmp}", at.0, at.1)?;
    text.push_str(": run")?;
    text.push_str(needs)?;
    text.push_str("\n  line = ")?;
    push_value(text, line.as_str())?;
    text.push_str("\n")?;
    push_description(alloc, text, listed.command)
}

// Where each of these commands is.
fn places_of(
    alloc: Global,
    commands: &[ListedCommand<'_>],
) -> Result<Vec<(usize, usize)>, AllocError>
    ensures { IfOk result (λ places. places.items ≡ spec.places_of commands.now) }
{
    commands
        .iter()
        .map(|listed| (listed.group, listed.place))
        .collect(alloc)
}

// Adds a space and the path of the stamp of the command with a number. Each command has a place.
fn push_stamp_at(
    text: &mut String,
    places: &[(usize, usize)],
    number: usize,
) -> Result<(), AllocError>
    ensures { OnOk result (string_bytes text.new ≡ string_bytes text.old ++ spec.stamp_at places.now number) }
{
    match places.get(number) {
        Some(at) => push_stamp(text, " ${tmp}", at.0, at.1),
        None => push_stamp(text, " ${tmp}", 0, 0),
    }
}

// The stamps of the commands with these numbers.
fn stamps_at(
    alloc: Global,
    places: &[(usize, usize)],
    numbers: &[usize],
) -> Result<String, AllocError>
    ensures { IfOk result (λ text. string_bytes text ≡ spec.stamps_at places.now numbers.now) }
{
    let mut text = String::new(alloc);
    for number in numbers {
        push_stamp_at(&mut text, places, *number)?;
    }
    Ok(text)
}

// What the command with a number needs. Each command has its needs.
fn needs_at(needs: &[Vec<usize>], number: usize) -> &[usize]
    ensures { result.now ≡ needs_at (map vec_items needs.now) number }
{
    match needs.get(number) {
        Some(numbers) => numbers.as_slice(),
        None => &[],
    }
}

// Adds the edges of commands, given what they need.
fn push_edges(
    alloc: Global,
    text: &mut String,
    tmp: &str,
    places: &[(usize, usize)],
    needs: &[Vec<usize>],
    commands: &[ListedCommand<'_>],
) -> Result<(), AllocError>
    ensures { OnOk result (string_bytes text.new ≡ string_bytes text.old
        ++ spec.edges_from tmp.now places.now (map vec_items needs.now) 0 commands.now) }
{
    for (number, listed) in commands.iter().enumerate() {
        let numbers = needs_at(needs, number);
        let stamps = stamps_at(alloc, places, numbers)?;
        push_edge(alloc, text, tmp, stamps.as_str(), listed)?;
    }
    Ok(())
}

// Adds the reason and the words of a dropped command.
fn push_comment_words(alloc: Global, text: &mut String, dropped: &Dropped) -> Result<(), AllocError>
    ensures { OnOk result (string_bytes text.new ≡ string_bytes text.old ++ spec.comment_words dropped.now) }
{
    text.push_str(" ")?;
    text.push_str(dropped.reason.name())?;
    text.push_str(" ")?;
    push_quoted(text, dropped.exe.as_str(), dropped.args.as_slice())?;
    text.push_str("\n")
}

// Adds a dropped command, as a comment.
fn push_comment(alloc: Global, text: &mut String, dropped: &Dropped) -> Result<(), AllocError>
    ensures { OnOk result (string_bytes text.new ≡ string_bytes text.old ++ spec.comment dropped.now) }
{
    text.push_str("# dropped line ")?;
    push_number(alloc, text, dropped.line)?;
    text.push_str(" run ")?;
    push_number(alloc, text, dropped.run)?;
    push_comment_words(alloc, text, dropped)
}

// Adds the dropped commands, as comments.
fn push_comments(alloc: Global, text: &mut String, dropped: &[Dropped]) -> Result<(), AllocError>
    ensures { OnOk result (string_bytes text.new ≡ string_bytes text.old ++ flat_map spec.comment dropped.now) }
{
    for command in dropped {
        push_comment(alloc, text, command)?;
    }
    Ok(())
}

// The lines after the one that names the temporary directory.
fn rule() -> &'static str
    ensures { result.now ≡ spec.rule }
{
    "\nbuilddir = ${tmp}\nrule run\n  command = ${line} || { code=$$?; echo $$code > ${out}.status; exit $$code; }\n"
}

// The Ninja file of a plan.
fn graph(alloc: Global, tmp: &str, plan: &Plan) -> Result<String, AllocError>
    ensures { IfOk result (λ text. string_bytes text ≡ spec.graph tmp.now plan.now) }
{
    let mut text = String::from_str(alloc, "tmp = ")?;
    push_value(&mut text, tmp)?;
    text.push_str(rule())?;
    let commands = plan.groups.listed(alloc)?;
    let places = places_of(alloc, commands.as_slice())?;
    let needs = needs(alloc, plan)?;
    push_edges(
        alloc,
        &mut text,
        tmp,
        places.as_slice(),
        needs.as_slice(),
        commands.as_slice(),
    )?;
    push_comments(alloc, &mut text, plan.dropped.as_slice())?;
    Ok(text)
}

// Whether comments can represent all dropped commands.
fn hold_all_dropped(dropped: &[Dropped]) -> bool
    ensures { result ≡ list_all spec.holds_dropped dropped.now }
{
    dropped.iter().all(|command| {
        holds_text(Format::Ninja, command.exe.as_bytes())
            && holds_words(Format::Ninja, command.args.as_slice())
    })
}

// Why a file can't represent the temporary directory or the dropped commands, if it can't.
fn judge_rest(tmp: &str, dropped: &[Dropped]) -> Result<(), Refusal>
    ensures { result ≡ spec.judged_rest tmp.now dropped.now }
{
    if holds_text(Format::Ninja, tmp.as_bytes()) && hold_all_dropped(dropped) {
        Ok(())
    } else {
        Err(Refusal::Unheld)
    }
}

/// A plan as a Ninja file. Each command has an edge that runs it and then touches its stamp, the file `zigrunk.GROUP.PLACE`
/// in the temporary directory `tmp`. If the command fails, its exit status goes to the file `zigrunk.GROUP.PLACE.status` in
/// decimal. While the command runs, Ninja prints its program and its target. An edge needs the stamps of the commands that its command needs, and no others (`command_files::needs`). The
/// program that the variable `ZIGRUNK_RUNNER` names runs each command, and the one that `ZIGRUNK_LAUNCHER` names runs, below
/// it, each command whose outputs a cache may serve; both variables may be unset. Dropped commands follow the edges as comments. `tmp` has to be an absolute path. Ninja's own files go there too.
///
/// Fails if a text has a NUL, a newline or a carriage return, which no line of a Ninja file can represent
/// (`Refusal::Unheld`): first `tmp` and the dropped commands, then each command. Fails also if
/// [`shell_script`](crate::shell_script) does.
pub fn ninja_file(alloc: Global, tmp: &str, plan: &Plan) -> Result<String, Refusal>
    ensures { Answers result (spec.ninja_answer tmp.now plan.now) }
{
    judge_rest(tmp, plan.dropped.as_slice())?;
    let commands = plan.groups.listed(alloc)?;
    judge_commands(Format::Ninja, commands.as_slice())?;
    Ok(graph(alloc, tmp, plan)?)
}
