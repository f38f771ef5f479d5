//! The command lines of cudafe++, which separates host code from device code.

ghost use Rattle.std.specs.Prelude.{◌≡◌, None, Err, map, codes, IfOk};
ghost use Rattle.compilers.specs.Table.{entry_of};
ghost use Rattle.texts.specs.Variables.{pair_of};
ghost use Rattle.compilers.specs.Outputs.{entry_at};
ghost use Rattle.compilers.specs.Command.{written};
ghost use Rattle.texts.specs.Fault.{UnlessMemory};
ghost use Rattle.texts.specs.declared.fault.Fault.TheVariants.{MissingOutput};
ghost use Rattle.device_lines.specs.CudaFE as spec;
ghost use Rattle.device_lines.specs.DeviceWords as words;

use crate::cicc::option_words;
use crate::options::ArgData;
use compilers::arguments::ParsedArguments;
use compilers::command::{Cacheable, SingleCompileCommand};
use compilers::table::{ArgInfo, SEPARATED, Table};
use std::alloc::{AllocError, Global};
use texts::fault::Fault;
use texts::text::Text;
use texts::words::Words;

/// cudafe++'s options, as in sccache 0.19.0's table.
pub const ARGS: [ArgInfo<ArgData>; 4] = [
    ArgInfo::TakeArg("--gen_c_file_name", ArgData::UnhashedOutput, SEPARATED),
    ArgInfo::Flag("--gen_module_id_file", ArgData::GenModuleIdFileFlag),
    ArgInfo::TakeArg("--module_id_file_name", ArgData::Output, SEPARATED),
    ArgInfo::TakeArg("--stub_file_name", ArgData::UnhashedPassThrough, SEPARATED),
];

/// cudafe++'s option table.
pub fn table() -> Table<'static, ArgData>
    ensures { map entry_of result.rows.now ≡ spec.cudafe_options }
{
    Table { rows: &ARGS }
}

// The words of a cudafe++ line.
fn line_words(alloc: Global, parsed_args: &ParsedArguments, obj: &str) -> Result<Words, AllocError>
    ensures { IfOk result (λ w. w ≡ words.cudafe_words parsed_args.now obj.now) }
{
    let mut words = option_words(alloc, parsed_args)?;
    words.push_pair(alloc, "--module_id_file_name", obj)?;
    words.push_str(alloc, parsed_args.input.as_str())?;
    Ok(words)
}

/// Writes the arguments of a cudafe++ line back as a cacheable command. Its words are the common ones, the unhashed
/// ones, `--module_id_file_name`, the output's path and the input; the other parts are copied.
///
/// Refuses arguments without an output `obj`: `MissingOutput`.
pub fn generate_compile_commands(
    alloc: Global,
    executable: &str,
    parsed_args: &ParsedArguments,
    cwd: &str,
    env_vars: &[(String, String)],
) -> Result<(SingleCompileCommand, Cacheable), Fault>
    ensures written { UnlessMemory result
        (written words.cudafe_words executable.now parsed_args.now cwd.now (map pair_of env_vars.now)) }
    ensures missing { entry_at (codes "obj") parsed_args.now.outputs ≡ None
        → result ≡ Err (MissingOutput parsed_args.now.language) }
{
    let obj = parsed_args.obj()?;
    let words = line_words(alloc, parsed_args, obj.path.as_str())?;
    let command = SingleCompileCommand::copy_of(alloc, executable, words, cwd, env_vars)?;
    Ok((command, Cacheable::Yes))
}

/// cudafe++, as a compiler.
#[derive(Debug, PartialEq, Drop)]
pub struct CudaFE {
    /// The text of its version, if known.
    pub version: Option<Text>,
}
