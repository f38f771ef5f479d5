//! What a merged command does in a compilation: its words as they are run, and its stage.

ghost use Rattle.std.specs.Prelude.{◌≡◌, ◌<◌, ℕ, List, map, length, IfOk, IfSome, string_bytes, option_copied};
ghost use Rattle.texts.specs.Lists.{last_of};
ghost use Rattle.command_groups.specs.Stage as spec;
ghost use Rattle.command_groups.specs.Views.{kind_seen, named_stage, word_place};

use compilers::command::Cacheable;
use compilers::compiler::NvccHostCompiler;
use compilers::plans::Program;
use std::alloc::{AllocError, Global};
use texts::compilation_flags::asks_object;
use texts::device_files::{is_cicc_input, is_ptxas_input};
use texts::text::file_name;
use texts::words::word_after;

/// The program at a path. Contracts see its kind.
pub fn program_at(path: &str) -> Program
    ensures { kind_seen result ≡ spec.kind_of_program path.now }
{
    Program::at(path)
}

fn has_word(words: &[String], word: &str) -> bool
    ensures { result ≡ spec.has_word word.now (map string_bytes words.now) }
{
    for other in words {
        if word == other.as_str() {
            return true;
        }
    }
    false
}

fn place_of_word(words: &[String], word: &str) -> Option<usize>
    ensures place { result ≡ word_place word.now (map string_bytes words.now) }
    ensures within { IfSome result (λ place. place < length words.now) }
{
    let mut place = 0;
    for other in words {
        if word == other.as_str() {
            return Some(place);
        }
        place += 1;
    }
    None
}

// The words with `new` right before the first that is `word`.
fn with_word_before(
    alloc: Global,
    new: &str,
    word: &str,
    words: Vec<String>,
) -> Result<Vec<String>, AllocError>
    ensures { IfOk result (λ edited. map string_bytes edited.items ≡ spec.with_word_before new.now word.now (map string_bytes words.items)) }
{
    let mut edited = words;
    match place_of_word(edited.as_slice(), word) {
        None => {}
        Some(place) => {
            let copy = String::from_str(alloc, new)?;
            edited.insert(place, copy)?;
        }
    }
    Ok(edited)
}

fn without_first_word(word: &str, words: Vec<String>) -> Vec<String>
    ensures { map string_bytes result.items ≡ spec.without_first_word word.now (map string_bytes words.items) }
{
    let mut edited = words;
    match place_of_word(edited.as_slice(), word) {
        None => {}
        Some(place) => {
            edited.remove(place);
        }
    }
    edited
}

/// The words of a program, as a plan runs them under a compilation flag.
///
/// Adds `--gen_module_id_file` to cudafe++ if a word names that file: nvcc before CUDA 12.0 doesn't write it, and a plan
/// runs cudafe++ first. If the flag asks for an object, removes it from cicc, which then reads the file that cudafe++
/// makes: nvcc before CUDA 12.8 writes it. sccache 0.19.0 makes the same changes.
pub fn edited_words(
    alloc: Global,
    program: Program,
    flag: &str,
    words: Vec<String>,
) -> Result<Vec<String>, AllocError>
    ensures { IfOk result (λ edited. map string_bytes edited.items ≡ spec.edited_by (kind_seen program) flag.now (map string_bytes words.items)) }
{
    match program {
        Program::Cudafe => {
            let new = "--gen_module_id_file";
            if has_word(words.as_slice(), new) {
                return Ok(words);
            }
            with_word_before(alloc, new, "--module_id_file_name", words)
        }
        Program::Cicc if asks_object(flag) => {
            Ok(without_first_word("--gen_module_id_file", words))
        }
        _ => Ok(words),
    }
}

/// The stages of commands.
#[derive(Clone, Copy)]
pub enum Stage {
    /// Linking device code.
    Linking,
    /// Splitting host code from device code.
    Splitting,
    /// Compiling device code.
    DeviceCompiling,
    /// Assembling device code.
    Assembling,
    /// Preprocessing, into a device group or into none.
    Preprocessing,
    /// Compiling host code.
    HostCompiling,
    /// What has nothing to do with CUDA.
    Foreign,
}

fn is_for_cuda(words: &[String]) -> bool
    ensures { result ≡ spec.is_for_cuda (map string_bytes words.now) }
{
    for word in words {
        let bytes = word.as_bytes();
        if bytes.starts_with(b"-D__CUDACC__")
            || bytes.starts_with(b"-D__NVCC__")
            || bytes.starts_with(b"-D__CUDA_ARCH__")
            || bytes.starts_with(b"-D__CUDA_ARCH_LIST__")
        {
            return true;
        }
    }
    false
}

// The stage of a program that isn't nvcc's own.
fn host_stage(host_compiler: NvccHostCompiler, words: &[String]) -> Stage
    ensures { named_stage result (map string_bytes words.now) ≡ spec.host_stage host_compiler (map string_bytes words.now) }
{
    let preprocess_word = match host_compiler {
        NvccHostCompiler::Gcc | NvccHostCompiler::Nvhpc => "-E",
        NvccHostCompiler::Msvc => "-P",
    };
    if !is_for_cuda(words) {
        Stage::Foreign
    } else if has_word(words, preprocess_word) {
        Stage::Preprocessing
    } else {
        Stage::HostCompiling
    }
}

/// The stage of a program with its edited words. Contracts see it with the name that the words give it.
pub fn stage_of(program: Program, host_compiler: NvccHostCompiler, words: &[String]) -> Stage
    ensures { named_stage result (map string_bytes words.now) ≡ spec.stage_by (kind_seen program) host_compiler (map string_bytes words.now) }
{
    match program {
        Program::Fatbinary | Program::Nvlink => Stage::Linking,
        Program::Cudafe => Stage::Splitting,
        Program::Cicc => Stage::DeviceCompiling,
        Program::Ptxas => Stage::Assembling,
        Program::Other => host_stage(host_compiler, words),
    }
}

/// The first word that is cicc's input.
pub fn cicc_input(words: &[String]) -> Option<&str>
    ensures { option_copied result ≡ spec.cicc_input (map string_bytes words.now) }
{
    for word in words {
        if is_cicc_input(word.as_str()) {
            return Some(word.as_str());
        }
    }
    None
}

/// The first word that is ptxas's input.
pub fn ptxas_input(words: &[String]) -> Option<&str>
    ensures { option_copied result ≡ spec.ptxas_input (map string_bytes words.now) }
{
    for word in words {
        if is_ptxas_input(word.as_str()) {
            return Some(word.as_str());
        }
    }
    None
}

/// The name of the device group that a preprocess step with these words opens: the file name of the word after its first
/// `-o`, if it ends as cicc's input does.
pub fn opened_name(words: &[String]) -> Option<&str>
    ensures { option_copied result ≡ spec.opened_name (map string_bytes words.now) }
{
    let name = file_name(word_after(words, "-o")?)?;
    if is_cicc_input(name) {
        Some(name)
    } else {
        None
    }
}

/// The last of the words.
pub fn last_word(words: &[String]) -> Option<&str>
    ensures { option_copied result ≡ last_of (map string_bytes words.now) }
{
    let mut last = None;
    for word in words {
        last = Some(word.as_str());
    }
    last
}

/// Whether the outputs of a stage may come from a cache.
pub fn cacheable_mark(stage: Stage) -> Cacheable
    ensures { (words : List (List ℕ)) → result ≡ spec.cacheable_mark (named_stage stage words) }
{
    match stage {
        Stage::Splitting | Stage::DeviceCompiling | Stage::Assembling | Stage::HostCompiling =>
            Cacheable::Yes,
        Stage::Linking | Stage::Preprocessing | Stage::Foreign => Cacheable::No,
    }
}
