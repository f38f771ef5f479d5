//! Whether a format can represent a plan, if a shell runs its commands.

ghost use Rattle.std.specs.Prelude.{◌≡◌, map, string_bytes};
ghost use Rattle.std.specs.List.{list_all};
ghost use Rattle.texts.specs.Path.{lacks};
ghost use Rattle.texts.specs.Variables.{pair_of};
ghost use Rattle.plan_texts.specs.Judging as spec;

use crate::format::Format;
use crate::refusal::Refusal;
use compilers::plans::{ListedCommand, NvccGeneratedSubcommand};

// Whether a format can represent a byte.
fn holds(format: Format, byte: u8) -> bool
    ensures { result ≡ spec.holds format byte }
{
    match format {
        Format::Ninja => byte != 0 && byte != b'\n' && byte != b'\r',
        _ => byte != 0,
    }
}

/// Whether a format can represent a text.
pub fn holds_text(format: Format, text: &[u8]) -> bool
    ensures { result ≡ spec.holds_text format text.now }
{
    text.iter().all(|byte| holds(format, *byte))
}

/// Whether a format can represent all of these words.
pub fn holds_words(format: Format, words: &[String]) -> bool
    ensures { result ≡ list_all (spec.holds_text format) (map string_bytes words.now) }
{
    for word in words {
        if !holds_text(format, word.as_bytes()) {
            return false;
        }
    }
    true
}

// Whether a format can represent the names and values of variables.
fn holds_variables(format: Format, variables: &[(String, String)]) -> bool
    ensures { result ≡ spec.holds_variables format (map pair_of variables.now) }
{
    for pair in variables {
        if !(holds_text(format, pair.0.as_bytes()) && holds_text(format, pair.1.as_bytes())) {
            return false;
        }
    }
    true
}

// Whether a format can represent all parts of a command.
fn holds_command(format: Format, command: &NvccGeneratedSubcommand) -> bool
    ensures { result ≡ spec.holds_command format command.now }
{
    holds_text(format, command.cwd.as_bytes())
        && holds_variables(format, command.env_vars.as_slice())
        && holds_text(format, command.exe.as_bytes())
        && holds_words(format, command.args.as_slice())
}

// Whether a text lacks a byte.
fn lacks(byte: u8, text: &[u8]) -> bool
    ensures { result ≡ lacks byte text.now }
{
    !text.contains(&byte)
}

// Whether `env` takes a word for a program or for a variable's name.
fn is_for_env(word: &[u8]) -> bool
    ensures { result ≡ spec.is_for_env word.now }
{
    match word {
        [] | [b'-', ..] => false,
        _ => lacks(b'=', word),
    }
}

// Whether `env` takes the names of variables as such.
fn are_names(variables: &[(String, String)]) -> bool
    ensures { result ≡ list_all (λ p. spec.is_for_env p.0) (map pair_of variables.now) }
{
    for pair in variables {
        if !is_for_env(pair.0.as_bytes()) {
            return false;
        }
    }
    true
}

// Why a format can't represent a command, if it can't.
fn judge_command(format: Format, command: &NvccGeneratedSubcommand) -> Result<(), Refusal>
    ensures { result ≡ spec.judged_command format command.now }
{
    if !holds_command(format, command) {
        return Err(Refusal::Unheld);
    }
    if !are_names(command.env_vars.as_slice()) {
        return Err(Refusal::VariableName);
    }
    if !is_for_env(command.exe.as_bytes()) {
        return Err(Refusal::Program);
    }
    Ok(())
}

/// The first refusal of commands.
pub fn judge_commands(format: Format, commands: &[ListedCommand<'_>]) -> Result<(), Refusal>
    ensures { result ≡ spec.judged_commands format commands.now }
{
    for listed in commands {
        judge_command(format, listed.command)?;
    }
    Ok(())
}
