//! What a cache needs of a cicc line.

ghost use Rattle.std.specs.Prelude.{◌≡◌, map, IfOk, string_bytes};
ghost use Rattle.cuda_plans.specs.Compiler.{reading_of};
ghost use Rattle.cuda_plans.specs.Fault.{UnlessMemory};
ghost use Rattle.cuda_plans.specs.Cicc.{cicc_options};
ghost use Rattle.cuda_plans.specs.Reading.{tool_reading};
ghost use Rattle.cuda_plans.specs.declared.language.Language.TheVariants.{Ptx};
ghost use Rattle.test_callers.specs.Cache as spec;

use cuda_plans::arguments::{CompilerArguments, ParsedArguments};
use cuda_plans::cicc::{self, Cicc};
use cuda_plans::command::SingleCompileCommand;
use cuda_plans::compiler::CCompilerImpl;
use cuda_plans::fault::Fault;
use cuda_plans::outputs::Outputs;
use cuda_plans::words::Words;
use std::alloc::{AllocError, Global};

/// Computes digests of files.
pub trait Digests {
    ghost use Rattle.std.specs.Prelude.{List, ℕ};

    /// The digest of the file at a path.
    ghost digest: { Self → List ℕ → List ℕ };

    /// The digest of the contents of the file at `path`, as text.
    fn digest(&self, alloc: Global, path: &str) -> Result<String, AllocError>
        ensures { IfOk result (λ text. string_bytes text ≡ digest self.now path.now) };
}

/// What a cache needs of a line. Its key is made from `words` and `digests`, the tool, its version and the contents of the
/// input. It stores `files`, which `command` makes.
#[derive(Drop)]
pub struct Entry {
    pub words: Words,
    pub digests: Words,
    pub files: Words,
    pub command: SingleCompileCommand,
}

// The digests of files, in order.
fn digests_of<D: Digests>(alloc: Global, digests: &D, paths: &[String]) -> Result<Words, AllocError>
    ensures { IfOk result (λ w. w ≡ map (D.digest digests.now) (map string_bytes paths.now)) }
{
    let mut found = Words::new(alloc);
    for path in paths {
        found.push(digests.digest(alloc, path.as_str())?)?;
    }
    Ok(found)
}

// The paths of the files that a command makes, in the order of their keys.
fn paths_of(alloc: Global, outputs: &Outputs) -> Result<Words, AllocError>
    ensures { IfOk result (λ w. w ≡ spec.paths_of outputs.now) }
{
    let mut paths = Words::new(alloc);
    for (_, file) in outputs.iter() {
        paths.push_str(alloc, file.path.as_str())?;
    }
    Ok(paths)
}

// What a cache needs of a parsed cicc line.
fn entry_of<D: Digests>(
    alloc: Global,
    digests: &D,
    executable: &str,
    cwd: &str,
    parsed: &ParsedArguments,
) -> Result<Entry, Fault>
    ensures { UnlessMemory result (spec.entry_of (D.digest digests.now) executable.now cwd.now parsed.now) }
{
    Ok(Entry {
        words: parsed.common_args.try_clone(alloc)?,
        digests: digests_of(alloc, digests, parsed.extra_hash_files.as_slice())?,
        files: paths_of(alloc, &parsed.outputs)?,
        command: cicc::generate_compile_commands(alloc, executable, parsed, cwd, &[])?.0,
    })
}

// The same; `None` if the line is no compilation.
fn entry_of_reading<D: Digests>(
    alloc: Global,
    digests: &D,
    executable: &str,
    cwd: &str,
    reading: &CompilerArguments<ParsedArguments>,
) -> Result<Option<Entry>, Fault>
    ensures { UnlessMemory result (spec.entry_of_reading (D.digest digests.now) executable.now cwd.now (reading_of reading.now)) }
{
    match reading {
        CompilerArguments::Ok(parsed) => {
            Ok(Some(entry_of(alloc, digests, executable, cwd, parsed)?))
        }
        _ => Ok(None),
    }
}

/// Parses a cicc line in the working directory `cwd`, and returns what a cache needs of it; `None` if the line is no
/// compilation. A line without an output is an error: `MissingOutput`.
pub fn cicc_entry<D: Digests>(
    alloc: Global,
    digests: &D,
    executable: &str,
    words: &[String],
    cwd: &str,
) -> Result<Option<Entry>, Fault>
    ensures { UnlessMemory result (spec.entry_of_reading (D.digest digests.now) executable.now cwd.now
        (tool_reading cicc_options cwd.now Ptx 3 (map string_bytes words.now))) }
{
    let compiler = Cicc { version: None };
    let reading = compiler.parse_arguments(alloc, words, cwd, &[])?;
    let entry = entry_of_reading(alloc, digests, executable, cwd, &reading);
    // Dropped by a call: see "Explicit drops" in docs/ARCHITECTURE.md.
    drop(reading);
    entry
}
