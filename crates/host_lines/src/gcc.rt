//! The reader of gcc command lines, over this project's profile of gcc's options, and its writer. It isn't
//! gcc's own reader: options that the profile doesn't name pass as unknown flags.

ghost use Rattle.std.specs.Prelude.{◌≡◌, [], false, map, None, codes, IfOk, MatchResult, Ok, Err, string_bytes, option_copied};
ghost use Rattle.texts.specs.Variables.{pair_of};
ghost use Rattle.texts.specs.Fault.{UnlessMemory};
ghost use Rattle.texts.specs.declared.fault.Fault.TheVariants.{MissingOutput};
ghost use Rattle.compilers.specs.Outputs.{entry_at};
ghost use Rattle.compilers.specs.Command.{written};
ghost use Rattle.compilers.specs.Items.{item_of};
ghost use Rattle.compilers.specs.Compiler.{reading_of};
ghost use Rattle.host_lines.specs.GccItems.{refusal_of, is_double_dash, asked_of};
ghost use Rattle.host_lines.specs.GccSteps.{asked_by};
ghost use Rattle.host_lines.specs.Gcc.{gathering, profile_reading};
ghost use Rattle.host_lines.specs.GccLine.{gcc_words};

mod answer;
mod gathered;
mod languages;
mod options;

use compilers::arguments::{CompilerArguments, ParsedArguments};
use compilers::command::{Cacheable, SingleCompileCommand};
use compilers::compiler::CCompilerKind;
use compilers::items::{Argument, Line, read_item};
use compilers::table::SearchableArgInfo;
use gathered::Gathered;
use languages::language_from_gcc_arg;
pub use languages::{language_to_gcc_arg, push_language};
pub use options::{ARGS, ArgData, table};
use std::alloc::{AllocError, Global};
use texts::fault::Fault;
use texts::text::Text;
use texts::words::Words;

// The text that an item refuses with.
fn refusal(item: &Argument<ArgData>) -> Option<&'static str>
    ensures { option_copied result ≡ refusal_of (item_of item.now) }
{
    let (text, value, kind) = match item {
        Argument::Raw(_) | Argument::UnknownFlag(_) => return None,
        Argument::Flag(text, kind) => (*text, "", *kind),
        Argument::WithValue(text, kind, value, _) => (*text, value.as_str(), *kind),
    };
    match kind {
        ArgData::TooHard | ArgData::TooHardFlag => Some(text),
        ArgData::Language if language_from_gcc_arg(value).is_none() => Some("-x"),
        _ => None,
    }
}

// Whether an item is the unknown flag `--`.
fn is_dashes(item: &Argument<ArgData>) -> bool
    ensures { result ≡ is_double_dash (item_of item.now) }
{
    match item {
        Argument::UnknownFlag(word) => word.as_str() == "--",
        _ => false,
    }
}

// Gathers what the items of a line ask for, or answers the text of the first that refuses. It reads
// word by word, and not by `ArgsIter`, since after `--` it needs the words that are left.
fn gather<S: SearchableArgInfo<ArgData>>(
    gathered: &mut Gathered,
    alloc: Global,
    arguments: &[String],
    cwd: &str,
    arg_info: &S,
) -> Result<Result<(), &'static str>, AllocError>
    requires { asked_by gathered.old ≡ asked_of [] false [] }
    ensures { IfOk result (λ r. MatchResult r
        (λ _. gathering (S.chosen arg_info.now) cwd.now (map string_bytes arguments.now) ≡ Ok (asked_by gathered.new))
        (λ text. gathering (S.chosen arg_info.now) cwd.now (map string_bytes arguments.now) ≡ Err text.now)) }
{
    let mut line = Line::new(arguments);
    while let Some(word) = line.next_word() {
        let row = arg_info.search(word);
        let Ok(item) = read_item(alloc, row, word, &mut line)? else {
            return Ok(Err("argument parse"));
        };
        if is_dashes(&item) {
            // Dropped by a call: see "Explicit drops" in docs/ARCHITECTURE.md.
            drop(item);
            gathered.take_inputs(alloc, line)?;
            return Ok(Ok(()));
        }
        match refusal(&item) {
            None => gathered.take(alloc, cwd, item)?,
            Some(text) => {
                drop(item);
                return Ok(Err(text));
            }
        }
    }
    Ok(Ok(()))
}

/// Reads a command line of gcc or of a compiler that takes gcc's options, by this project's profile
/// of them. `arg_info` is the table, as the pair of `table()` and a tool's own.
///
/// Words, paths and texts are UTF-8. The answer is `CannotCache` with the option's text for an option
/// that no cache can serve, with `-x` if that names no language, and with `argument parse` if the last
/// option lacks its value. The first of these in the line decides. Else it is `NotCompilation` if
/// nothing asks for a compilation, and else `CannotCache` with `multiple input files`, `no input file`
/// or `unknown source language` if one of these holds, checked in this order.
pub fn parse_arguments<S: SearchableArgInfo<ArgData> + Drop>(
    alloc: Global,
    arguments: &[String],
    cwd: &str,
    arg_info: S,
    plusplus: bool,
    kind: CCompilerKind,
) -> Result<CompilerArguments<ParsedArguments>, AllocError>
    ensures { IfOk result (λ r. reading_of r
        ≡ profile_reading (S.chosen arg_info) cwd.now plusplus kind (map string_bytes arguments.now)) }
{
    let mut gathered = Gathered::new(alloc);
    match gather(&mut gathered, alloc, arguments, cwd, &arg_info) {
        Ok(Ok(_)) => gathered.finish(alloc, plusplus, kind),
        Ok(Err(text)) => {
            drop(gathered);
            Ok(CompilerArguments::CannotCache(text, None))
        }
        Err(refused) => {
            drop(gathered);
            Err(refused)
        }
    }
}

// The words of a gcc line.
fn line_words(alloc: Global, parsed_args: &ParsedArguments, obj: &Text) -> Result<Words, AllocError>
    ensures { IfOk result (λ w. w ≡ gcc_words parsed_args.now obj.now) }
{
    let mut words = Words::new(alloc);
    push_language(alloc, &mut words, parsed_args.language)?;
    if !parsed_args.compilation_flag.as_str().is_empty() {
        words.push_str(alloc, parsed_args.compilation_flag.as_str())?;
    }
    words.push_pair(alloc, "-o", obj.as_str())?;
    words.extend(alloc, parsed_args.preprocessor_args.as_slice())?;
    words.extend(alloc, parsed_args.unhashed_args.as_slice())?;
    words.extend(alloc, parsed_args.common_args.as_slice())?;
    words.extend(alloc, parsed_args.arch_args.as_slice())?;
    if parsed_args.double_dash_input {
        words.push_str(alloc, "--")?;
    }
    words.push_str(alloc, parsed_args.input.as_str())?;
    Ok(words)
}

/// Writes arguments back as a command that a cache may serve, by this project's profile of gcc's
/// options.
///
/// The words are `-x` and the language if `language_to_gcc_arg` has a name for it, the flag that asks
/// for a compilation if it isn't empty, `-o` and the output's path, the preprocessor's words, the
/// unhashed ones, the common ones, those that name architectures, and the input, after `--` if it
/// stood after one. The other parts are as handed in.
///
/// Refuses arguments without an output `obj`: `MissingOutput`, before it allocates anything.
pub fn generate_compile_commands(
    alloc: Global,
    executable: &str,
    parsed_args: &ParsedArguments,
    cwd: &str,
    env_vars: &[(String, String)],
) -> Result<(SingleCompileCommand, Cacheable), Fault>
    ensures written { UnlessMemory result
        (written gcc_words executable.now parsed_args.now cwd.now (map pair_of env_vars.now)) }
    ensures missing { entry_at (codes "obj") parsed_args.now.outputs ≡ None
        → result ≡ Err (MissingOutput parsed_args.now.language) }
{
    let obj = parsed_args.obj()?;
    let words = line_words(alloc, parsed_args, &obj.path)?;
    let command = SingleCompileCommand::copy_of(alloc, executable, words, cwd, env_vars)?;
    Ok((command, Cacheable::Yes))
}
