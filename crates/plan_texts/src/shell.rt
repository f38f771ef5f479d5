//! A plan as a shell script, and a command as a shell runs it.

ghost use Rattle.std.specs.Prelude.{◌≡◌, ◌++◌, IfOk, OnOk, map, string_bytes};
ghost use Rattle.texts.specs.Variables.{pair_of};
ghost use Rattle.plan_texts.specs.Answers.{Answers};
ghost use Rattle.plan_texts.specs.CommandText.{assignment, command_text};
ghost use Rattle.plan_texts.specs.Script as spec;

use crate::format::Format;
use crate::judging::{holds_text, judge_commands};
use crate::refusal::Refusal;
use compilers::plans::{ListedCommand, NvccGeneratedSubcommand, Plan};
use std::alloc::{AllocError, Global};
use texts::shell::push_quoted;
use texts::words::Words;

/// Variables as `env` takes them.
pub fn assignments(alloc: Global, variables: &[(String, String)]) -> Result<Words, AllocError>
    ensures { IfOk result (λ words. words ≡ map assignment (map pair_of variables.now)) }
{
    let mut words = Words::new(alloc);
    for pair in variables {
        let (name, value) = (pair.0.as_str(), pair.1.as_str());
        words.push(format!(in alloc; "{name}={value}")?)?;
    }
    Ok(words)
}

/// Adds a command's text, with a launcher's text in front of its program.
pub fn push_command(
    alloc: Global,
    text: &mut String,
    launcher: &str,
    command: &NvccGeneratedSubcommand,
) -> Result<(), AllocError>
    ensures { OnOk result (string_bytes text.new ≡ string_bytes text.old ++ command_text launcher.now command.now) }
{
    let variables = assignments(alloc, command.env_vars.as_slice())?;
    text.push_str("( cd ")?;
    push_quoted(text, command.cwd.as_str(), &[])?;
    text.push_str(" && ")?;
    push_quoted(text, "env", variables.as_slice())?;
    write!(text, " {launcher}")?;
    push_quoted(text, command.exe.as_str(), command.args.as_slice())?;
    text.push_str(" )")
}

// Adds the line that makes a directory.
fn push_folder(text: &mut String, tmp: &str) -> Result<(), AllocError>
    ensures { OnOk result (string_bytes text.new ≡ string_bytes text.old ++ spec.folder_line tmp.now) }
{
    text.push_str("mkdir -p ")?;
    push_quoted(text, tmp, &[])?;
    text.push_str("\n")
}

// The script of commands.
fn script(alloc: Global, tmp: &str, commands: &[ListedCommand<'_>]) -> Result<String, AllocError>
    ensures { IfOk result (λ text. string_bytes text ≡ spec.script tmp.now commands.now) }
{
    let mut text = String::from_str(alloc, "set -e\n")?;
    push_folder(&mut text, tmp)?;
    for listed in commands {
        push_command(alloc, &mut text, "", listed.command)?;
        text.push_str("\n")?;
    }
    Ok(text)
}

// Why a script can't represent the temporary directory, if it can't.
fn judge_folder(tmp: &str) -> Result<(), Refusal>
    ensures { result ≡ spec.judged_folder tmp.now }
{
    if holds_text(Format::Shell, tmp.as_bytes()) {
        Ok(())
    } else {
        Err(Refusal::Unheld)
    }
}

/// A plan as a script for a POSIX shell. It makes the temporary directory `tmp`, unless it is there, runs the groups in order, and stops
/// at the first command that fails. Each command
/// has a line `( cd CWD && env NAME=VALUE .. EXE WORD .. )`, with quotes around each word that needs them. A newline in a word
/// keeps its form, in quotes. Variables of the command override those of the script's caller. The script leaves out dropped
/// commands. Directories have to be absolute paths.
///
/// Fails if `tmp` has a NUL byte (`Refusal::Unheld`), and at the first command with one, or with a variable's name (`Refusal::VariableName`) or a
/// program (`Refusal::Program`) that is empty, begins with `-` or has a `=`, since `env` would take it for something else.
pub fn shell_script(alloc: Global, tmp: &str, plan: &Plan) -> Result<String, Refusal>
    ensures { Answers result (spec.shell_answer tmp.now plan.now) }
{
    judge_folder(tmp)?;
    let commands = plan.groups.listed(alloc)?;
    judge_commands(Format::Shell, commands.as_slice())?;
    Ok(script(alloc, tmp, commands.as_slice())?)
}
