//! The text of a plan.

ghost use Rattle.std.specs.Prelude.{◌≡◌, ◌++◌, IfOk, OnOk, map, string_bytes, vec_items, flat_map};
ghost use Rattle.plan_texts.specs.ShownPlan as spec;

use compilers::command::Cacheable;
use compilers::plans::{Dropped, NvccGeneratedSubcommand, Plan};
use std::alloc::{AllocError, Global};
use texts::decimal::push_number;

// Adds a program and its words, each word after a space, and the end of the line.
fn push_words(text: &mut String, exe: &str, words: &[String]) -> Result<(), AllocError>
    ensures { OnOk result (string_bytes text.new ≡ string_bytes text.old ++ spec.show_words exe.now (map string_bytes words.now)) }
{
    text.push_str(exe)?;
    for word in words {
        text.push_str(" ")?;
        text.push_str(word.as_str())?;
    }
    text.push_str("\n")
}

// Adds the lines of a group's commands.
fn push_subcommands(text: &mut String, group: &[NvccGeneratedSubcommand]) -> Result<(), AllocError>
    ensures { OnOk result (string_bytes text.new ≡ string_bytes text.old ++ flat_map spec.show_subcommand group.now) }
{
    for command in group {
        let cacheable = match command.cacheable {
            Cacheable::Yes => "yes",
            Cacheable::No => "no",
        };
        let cwd = command.cwd.as_str();
        write!(text, "{cacheable} cd {cwd} && ")?;
        push_words(text, command.exe.as_str(), command.args.as_slice())?;
    }
    Ok(())
}

// Adds the lines of groups, numbered from 0: the number of each, then its commands.
fn push_groups(
    alloc: Global,
    text: &mut String,
    groups: &[Vec<NvccGeneratedSubcommand>],
) -> Result<(), AllocError>
    ensures { OnOk result (string_bytes text.new ≡ string_bytes text.old ++ spec.show_groups 0 (map vec_items groups.now)) }
{
    for (number, group) in groups.iter().enumerate() {
        text.push_str("group ")?;
        push_number(alloc, text, number)?;
        text.push_str("\n")?;
        push_subcommands(text, group.as_slice())?;
    }
    Ok(())
}

// Adds the line of a dropped command.
fn push_dropped(text: &mut String, dropped: &Dropped) -> Result<(), AllocError>
    ensures { OnOk result (string_bytes text.new ≡ string_bytes text.old ++ spec.show_dropped dropped.now) }
{
    let (line, run, reason) = (dropped.line, dropped.run, dropped.reason.name());
    write!(text, "dropped {line} run {run} {reason} ")?;
    push_words(text, dropped.exe.as_str(), dropped.args.as_slice())
}

// Adds the lines of the dropped commands.
fn push_all_dropped(text: &mut String, dropped: &[Dropped]) -> Result<(), AllocError>
    ensures { OnOk result (string_bytes text.new ≡ string_bytes text.old ++ flat_map spec.show_dropped dropped.now) }
{
    for command in dropped {
        push_dropped(text, command)?;
    }
    Ok(())
}

/// The text of a plan. Each group has a line `group N`, N from 0, and then a line for each command: `yes` or `no` for
/// whether a cache may serve its outputs, ` cd CWD && EXE`, and each word after a space. Each dropped command follows on a
/// line `dropped LINE run RUN REASON EXE`, with its words in the same way. No word is quoted, and each line ends in a newline.
pub fn show_plan(alloc: Global, plan: &Plan) -> Result<String, AllocError>
    ensures { IfOk result (λ text. string_bytes text ≡ spec.show_plan plan.now) }
{
    let mut text = String::new(alloc);
    push_groups(alloc, &mut text, plan.groups.as_slice())?;
    push_all_dropped(&mut text, plan.dropped.as_slice())?;
    Ok(text)
}
