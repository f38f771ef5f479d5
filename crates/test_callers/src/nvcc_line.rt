//! The dry runs of an nvcc line.

ghost use Rattle.std.specs.Prelude.{◌≡◌, map, string_bytes};
ghost use Rattle.cuda_plans.specs.Compiler.{reading_of};
ghost use Rattle.cuda_plans.specs.Fault.{UnlessMemory};
ghost use Rattle.cuda_plans.specs.Variables.{pair_of};
ghost use Rattle.cuda_plans.specs.Nvcc.{nvcc_reading};
ghost use Rattle.test_callers.specs.NvccLine as spec;

use cuda_plans::arguments::{CompilerArguments, ParsedArguments};
use cuda_plans::command::SingleCompileCommand;
use cuda_plans::compiler::{CCompilerImpl, Places};
use cuda_plans::fault::Fault;
use cuda_plans::nvcc::Nvcc;
use std::alloc::Global;

// The dry runs of a parsed nvcc line.
fn commands_of_reading(
    alloc: Global,
    nvcc: &Nvcc,
    executable: &str,
    reading: &CompilerArguments<ParsedArguments>,
    cwd: &str,
    env_vars: &[(String, String)],
    places: &Places,
) -> Result<Option<(SingleCompileCommand, SingleCompileCommand)>, Fault>
    ensures { UnlessMemory result (spec.commands_of nvcc.now.host_compiler executable.now cwd.now (map pair_of env_vars.now) places.now
        (reading_of reading.now)) }
{
    let CompilerArguments::Ok(parsed) = reading else {
        return Ok(None);
    };
    let (command, _) = nvcc.generate_compile_commands(
        alloc, executable, parsed, cwd, env_vars, places,
    )?;
    let runs = command.dryrun_commands(alloc);
    // Dropped by a call: see "Explicit drops" in docs/ARCHITECTURE.md.
    drop(command);
    Ok(Some(runs?))
}

/// The two dry runs of an nvcc line. `None` if the line is no compilation or can't be cached. The errors are those of
/// writing nvcc's command.
pub fn dry_run_commands(
    alloc: Global,
    nvcc: &Nvcc,
    executable: &str,
    words: &[String],
    cwd: &str,
    env_vars: &[(String, String)],
    places: &Places,
) -> Result<Option<(SingleCompileCommand, SingleCompileCommand)>, Fault>
    ensures { UnlessMemory result (spec.commands_of nvcc.now.host_compiler executable.now cwd.now (map pair_of env_vars.now) places.now
        (nvcc_reading (map string_bytes words.now) cwd.now (map pair_of env_vars.now))) }
{
    let reading = nvcc.parse_arguments(alloc, words, cwd, env_vars)?;
    let commands = commands_of_reading(alloc, nvcc, executable, &reading, cwd, env_vars, places);
    drop(reading);
    commands
}
