//! The verdict on a line: its normal form, or why the call goes to nvcc unchanged.

ghost use Rattle.std.specs.Prelude.{◌≡◌, ◌&&◌, [], map, IfOk, string_bytes};
ghost use Rattle.texts.specs.Variables.{pair_of};
ghost use Rattle.compilers.specs.Compiler.{reading_of};
ghost use Rattle.nvcc_calls.specs.NormalForm as spec;

use crate::Reason;
use crate::asked::Asked;
use crate::settling::Call;
use crate::words::{are_unexpanded, is_cut_at_spaces};
use compilers::arguments::{CompilerArguments, ParsedArguments};
use compilers::compiler::CCompilerKind;
use compilers::table::Pair;
use host_lines::nvcc::whole_line;
use host_lines::{gcc, nvcc};
use std::alloc::{AllocError, Global};
use texts::variables::first_value;
use texts::words::Words;

/// What becomes of a call.
#[derive(Debug, Drop)]
pub enum Verdict {
    /// The call compiles one source, and sccache's reader reads its normal form as nvcc reads the line.
    Split(Call),
    /// The call goes to nvcc unchanged.
    Pass(Reason),
}

fn read_by_sccache(
    alloc: Global,
    words: &[String],
) -> Result<CompilerArguments<ParsedArguments>, AllocError>
    ensures { IfOk result (λ r. reading_of r ≡ spec.sccache_reading [] (map string_bytes words.now)) }
{
    let tables = Pair {
        first: gcc::table(),
        second: nvcc::table(),
    };
    gcc::parse_arguments(alloc, words, "", tables, false, CCompilerKind::Nvcc)
}

// What words ask nvcc for, given the names and texts of options files, unless nvcc's shell may expand one.
fn asked_by(
    alloc: Global,
    words: &[String],
    files: &[(String, String)],
) -> Result<Result<Asked, Reason>, AllocError>
    ensures { IfOk result (λ r. r ≡ spec.asked_by (map pair_of files.now) (map string_bytes words.now)) }
{
    if are_unexpanded(words) {
        Ok(Ok(Asked::of(alloc, words, files)?))
    } else {
        Ok(Err(Reason::ShellCharacter))
    }
}

// nvcc's reading of words that name no options file, or why their call is left to nvcc.
fn read_by_nvcc(alloc: Global, words: &[String]) -> Result<Result<Call, Reason>, AllocError>
    ensures { IfOk result (λ r. r ≡ spec.nvcc_call [] (map string_bytes words.now)) }
{
    match asked_by(alloc, words, &[])? {
        Ok(asked) => {
            let settled = asked.settle(alloc);
            // Dropped by a call: see "Explicit drops" in docs/ARCHITECTURE.md.
            drop(asked);
            settled
        }
        Err(reason) => Ok(Err(reason)),
    }
}

fn agrees(reading: &CompilerArguments<ParsedArguments>, call: &Call) -> bool
    ensures { result ≡ spec.agrees (reading_of reading.now) call.now }
{
    match reading {
        CompilerArguments::Ok(parsed) => {
            let is_output = match parsed.outputs.get("obj") {
                Some(file) => file.path == call.output,
                None => false,
            };
            parsed.input == call.input && parsed.compilation_flag == call.flag && is_output
        }
        _ => false,
    }
}

// Whether a call's words are a normal form. Both readers read them once more, since a proof that they agree would need a fact for each of
// some 300 options.
fn is_normal(alloc: Global, call: &Call) -> Result<bool, AllocError>
    ensures { IfOk result (λ b. b ≡ spec.is_normal call.now) }
{
    let is_read_back = match read_by_nvcc(alloc, call.words.as_slice())? {
        Ok(again) => again.is_same(call),
        Err(_) => false,
    };
    let reading = read_by_sccache(alloc, call.words.as_slice())?;
    let is_read_alike = agrees(&reading, call);
    // Dropped by a call: see "Explicit drops" in docs/ARCHITECTURE.md.
    drop(reading);
    Ok(is_read_back && is_read_alike)
}

// Whether nvcc cuts the value of the first variable of a name as a shell does.
fn is_plain(variables: &[(String, String)], name: &str) -> bool
    ensures { result ≡ spec.is_plain name.now (map pair_of variables.now) }
{
    match first_value(variables, name) {
        Some(value) => is_cut_at_spaces(value),
        None => true,
    }
}

/// The names of the options files that a line names in an environment, in their order, as the line spells them. nvcc opens them in
/// the working directory.
pub fn file_names(
    alloc: Global,
    words: &[String],
    variables: &[(String, String)],
) -> Result<Words, AllocError>
    ensures { IfOk result (λ names. names ≡ spec.file_names (map string_bytes words.now) (map pair_of variables.now)) }
{
    let line = whole_line(alloc, words, variables)?;
    let asked = Asked::of(alloc, line.as_slice(), &[]);
    // Dropped by a call: see "Explicit drops" in docs/ARCHITECTURE.md.
    drop(line);
    let asked = asked?;
    let names = asked.files.try_clone(alloc);
    drop(asked);
    names
}

/// What the words of an nvcc line, without the compiler's name, ask for in an environment, given the names and texts of options files.
/// If its call goes to nvcc whatever it asks for, why: the variables' quotes, or else a character that nvcc's shell may expand.
///
/// nvcc reads the words of an options file where the line names it, and so does this. A file whose text isn't given leaves the call
/// to nvcc, and so does one with a backslash, `#`, `'` or a control character other than a tab or newline, one that names another,
/// and a list of names.
///
/// nvcc reads the words of `NVCC_PREPEND_FLAGS` before the line's, and those of `NVCC_APPEND_FLAGS` after them, and so does
/// this. It cuts their values at spaces, and a value in which nvcc may see more than that leaves the call to nvcc.
pub fn read_line(
    alloc: Global,
    words: &[String],
    variables: &[(String, String)],
    files: &[(String, String)],
) -> Result<Result<Asked, Reason>, AllocError>
    ensures { IfOk result (λ r. r ≡ spec.line_asked (map string_bytes words.now) (map pair_of variables.now) (map pair_of files.now)) }
{
    if !is_plain(variables, "NVCC_PREPEND_FLAGS") || !is_plain(variables, "NVCC_APPEND_FLAGS") {
        return Ok(Err(Reason::VariableQuotes));
    }
    let line = whole_line(alloc, words, variables)?;
    let asked = asked_by(alloc, line.as_slice(), files);
    // Dropped by a call: see "Explicit drops" in docs/ARCHITECTURE.md.
    drop(line);
    asked
}

impl Asked {
    /// The verdict on a line that asks for this.
    ///
    /// `Pass` has the first reason that holds, looked for in this order: what an option says, in the line's order; a word that nvcc
    /// neither knows nor forwards; the phase; the inputs; the input's language; the output; the dependency file; and at last that
    /// sccache's reader reads the normal form otherwise.
    ///
    /// If an option has two values the last one counts, as for nvcc, which warns of it. For `-o`, `-odir`, `-x`, `-t`, `-keep-dir`,
    /// `-MF` and `-MT` the normal form has only the last one, so nvcc doesn't warn of these.
    pub fn verdict(&self, alloc: Global) -> Result<Verdict, AllocError>
        ensures { IfOk result (λ v. v ≡ spec.judged (spec.settled self.now)) }
    {
        match self.settle(alloc)? {
            Ok(call) => match is_normal(alloc, &call) {
                Ok(true) => Ok(Verdict::Split(call)),
                Ok(false) => {
                    // Dropped by a call: see "Explicit drops" in docs/ARCHITECTURE.md.
                    drop(call);
                    Ok(Verdict::Pass(Reason::OtherReading))
                }
                Err(refused) => {
                    drop(call);
                    Err(refused)
                }
            },
            Err(reason) => Ok(Verdict::Pass(reason)),
        }
    }
}

/// The verdict on an nvcc line, by what [`read_line`] answers to it: why that leaves the call to nvcc, or [`Asked::verdict`].
pub fn normalize(
    alloc: Global,
    words: &[String],
    variables: &[(String, String)],
    files: &[(String, String)],
) -> Result<Verdict, AllocError>
    ensures { IfOk result (λ v. v ≡ spec.verdict (map string_bytes words.now) (map pair_of variables.now) (map pair_of files.now)) }
{
    match read_line(alloc, words, variables, files)? {
        Ok(asked) => {
            let verdict = asked.verdict(alloc);
            // Dropped by a call: see "Explicit drops" in docs/ARCHITECTURE.md.
            drop(asked);
            verdict
        }
        Err(reason) => Ok(Verdict::Pass(reason)),
    }
}
