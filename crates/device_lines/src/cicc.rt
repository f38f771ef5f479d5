//! The command lines of cicc, which compiles preprocessed device code to PTX.

ghost use Rattle.std.specs.Prelude.{◌≡◌, ◌++◌, None, Err, map, codes, IfOk};
ghost use Rattle.compilers.specs.Table.{entry_of};
ghost use Rattle.texts.specs.Variables.{pair_of};
ghost use Rattle.compilers.specs.Outputs.{entry_at};
ghost use Rattle.compilers.specs.Command.{written};
ghost use Rattle.texts.specs.Fault.{UnlessMemory};
ghost use Rattle.texts.specs.declared.fault.Fault.TheVariants.{MissingOutput};
ghost use Rattle.device_lines.specs.Cicc as spec;
ghost use Rattle.device_lines.specs.DeviceWords as words;

pub use crate::input::{preprocess, read_bytes, read_file, read_input};
pub use crate::options::ArgData;
pub use crate::reader::parse_arguments;
use compilers::arguments::ParsedArguments;
use compilers::command::{Cacheable, SingleCompileCommand};
use compilers::table::{ArgInfo, SEPARATED, Table};
use std::alloc::{AllocError, Global};
pub use texts::device_files::{
    CICC_INPUT_SUFFIX, PTXAS_INPUT_SUFFIX, is_cicc_input, is_ptxas_input,
};
use texts::fault::Fault;
use texts::text::Text;
use texts::words::Words;

/// cicc's options, as in sccache 0.19.0's table.
pub const ARGS: [ArgInfo<ArgData>; 7] = [
    ArgInfo::TakeArg("--gen_c_file_name", ArgData::UnhashedOutput, SEPARATED),
    ArgInfo::TakeArg("--gen_device_file_name", ArgData::UnhashedOutput, SEPARATED),
    ArgInfo::Flag("--gen_module_id_file", ArgData::GenModuleIdFileFlag),
    ArgInfo::TakeArg("--include_file_name", ArgData::PassThrough, SEPARATED),
    ArgInfo::TakeArg(
        "--module_id_file_name",
        ArgData::ModuleIdFileName,
        SEPARATED,
    ),
    ArgInfo::TakeArg("--stub_file_name", ArgData::UnhashedOutput, SEPARATED),
    ArgInfo::TakeArg("-o", ArgData::Output, SEPARATED),
];

/// cicc's option table.
pub fn table() -> Table<'static, ArgData>
    ensures { map entry_of result.rows.now ≡ spec.cicc_options }
{
    Table { rows: &ARGS }
}

/// The words that every line of a device tool begins with when it is written back: the common ones and then the unhashed
/// ones, with room for three more.
pub(crate) fn option_words(
    alloc: Global,
    parsed_args: &ParsedArguments,
) -> Result<Words, AllocError>
    ensures { IfOk result (λ w. w ≡ parsed_args.now.common_args ++ parsed_args.now.unhashed_args) }
{
    let (common, unhashed) = (&parsed_args.common_args, &parsed_args.unhashed_args);
    let room = common
        .len()
        .saturating_add(unhashed.len())
        .saturating_add(3);
    let mut words = Words::with_capacity(alloc, room)?;
    words.push_copies(alloc, common.as_slice())?;
    words.push_copies(alloc, unhashed.as_slice())?;
    Ok(words)
}

/// Writes the arguments of a cicc or ptxas line back as a cacheable command. Its words are the common ones, the
/// unhashed ones, the input, `-o` and the output's path; the other parts are copied.
///
/// Refuses arguments without an output `obj`: `MissingOutput`.
pub fn generate_compile_commands(
    alloc: Global,
    executable: &str,
    parsed_args: &ParsedArguments,
    cwd: &str,
    env_vars: &[(String, String)],
) -> Result<(SingleCompileCommand, Cacheable), Fault>
    ensures written { UnlessMemory result
        (written words.cicc_words executable.now parsed_args.now cwd.now (map pair_of env_vars.now)) }
    ensures missing { entry_at (codes "obj") parsed_args.now.outputs ≡ None
        → result ≡ Err (MissingOutput parsed_args.now.language) }
{
    let obj = parsed_args.obj()?;
    let mut words = option_words(alloc, parsed_args)?;
    words.push_str(alloc, parsed_args.input.as_str())?;
    words.push_pair(alloc, "-o", obj.path.as_str())?;
    let command = SingleCompileCommand::copy_of(alloc, executable, words, cwd, env_vars)?;
    Ok((command, Cacheable::Yes))
}

/// cicc, as a compiler.
#[derive(Debug, PartialEq, Drop)]
pub struct Cicc {
    /// The text of its version, if known.
    pub version: Option<Text>,
}
