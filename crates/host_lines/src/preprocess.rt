//! The commands that preprocess an input: what those of nvcc and of nvhpc have in common.

ghost use Rattle.std.specs.Prelude.{◌≡◌, Err, IfOk};
ghost use Rattle.texts.specs.Fault.{UnlessMemory};
ghost use Rattle.texts.specs.declared.fault.Fault.TheVariants.{NoPreprocess};
ghost use Rattle.host_lines.specs.Preprocess as spec;

use compilers::arguments::ParsedArguments;
use compilers::command::SingleCompileCommand;
use std::alloc::{AllocError, Global};
use texts::fault::Fault;
use texts::text::Text;
use texts::variables::Variables;
use texts::words::Words;

/// Refuses to preprocess, with a text.
pub fn refused(alloc: Global, text: &str) -> Result<Vec<SingleCompileCommand>, Fault>
    ensures { UnlessMemory (spec.commands_seen result) (Err (NoPreprocess text.now)) }
{
    let text = Text::copy_of(alloc, text)?;
    Err(Fault::NoPreprocess(text))
}

/// What both commands have.
pub fn common_command(
    alloc: Global,
    executable: &str,
    parsed_args: &ParsedArguments,
    name: &str,
    cwd: &str,
    env_vars: Variables,
) -> Result<SingleCompileCommand, AllocError>
    ensures { IfOk result (λ c. c ≡ spec.common_command executable.now parsed_args.now name.now cwd.now env_vars) }
{
    let mut arguments = Words::new(alloc);
    arguments.push_copies(alloc, parsed_args.preprocessor_args.as_slice())?;
    arguments.push_copies(alloc, parsed_args.common_args.as_slice())?;
    arguments.push_pair(alloc, "-x", name)?;
    arguments.push_str(alloc, parsed_args.input.as_str())?;
    Ok(SingleCompileCommand {
        executable: Text::copy_of(alloc, executable)?,
        arguments,
        env_vars,
        cwd: Text::copy_of(alloc, cwd)?,
        share_jobserver: false,
    })
}

// A command with more words at its end.
fn with_words(
    alloc: Global,
    common: &SingleCompileCommand,
    words: &Words,
) -> Result<SingleCompileCommand, AllocError>
    ensures { IfOk result (λ c. c ≡ spec.with_words common.now words.now) }
{
    let mut command = common.try_clone(alloc)?;
    command.arguments.extend(alloc, words.as_slice())?;
    Ok(command)
}

/// The commands, from what both have, the words for the dependency file and those for the code.
pub fn commands(
    alloc: Global,
    common: &SingleCompileCommand,
    dependency: &Words,
    code: &Words,
) -> Result<Vec<SingleCompileCommand>, AllocError>
    ensures { IfOk result (λ c. c.items ≡ spec.preprocess_commands common.now dependency.now code.now) }
{
    let mut commands = Vec::new(alloc);
    if !dependency.is_empty() {
        commands.push(with_words(alloc, common, dependency)?)?;
    }
    commands.push(with_words(alloc, common, code)?)?;
    Ok(commands)
}
