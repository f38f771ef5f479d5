//! Commands of a plan with the root in place of the checkout's folder.

ghost use Rattle.std.specs.Prelude.{◌≡◌, ◌++◌, [], IfOk, OnOk, map, string_bytes};
ghost use Rattle.std.specs.List.{flat_map, list_any};
ghost use Rattle.rooted_commands.specs.Commands as spec;

use crate::paths::{Root, rest_of, rooted_path};
use command_files::{files_of, has_word, preprocesses};
use compilers::plans::{NvccGeneratedSubcommand, Program};
use placed_commands::{are_same, placed_command};
use std::alloc::{AllocError, Global};
use texts::words::Words;

// Whether the word behind an option of cicc and cudafe++ is the source's name.
fn names_source(option: &str) -> bool
    ensures { result ≡ spec.names_source option.now }
{
    matches!(option, "--orig_src_file_name" | "--orig_src_path_name")
}

// The words of cicc or cudafe++, in which the source's name is rooted.
fn source_words(alloc: Global, root: &Root, words: &[String]) -> Result<Words, AllocError>
    ensures { IfOk result (λ rooted. rooted ≡ spec.source_words root.now [] (map string_bytes words.now)) }
{
    let mut rooted = Words::with_capacity(alloc, words.len())?;
    let mut before = "";
    for word in words {
        if names_source(before) {
            rooted.push(rooted_path(alloc, root, word.as_str())?.into_string())?;
        } else {
            rooted.push_str(alloc, word.as_str())?;
        }
        before = word.as_str();
    }
    Ok(rooted)
}

// A word of fatbinary, in which the name behind `--ident=` is rooted.
fn ident_word(alloc: Global, root: &Root, word: &str) -> Result<String, AllocError>
    ensures { IfOk result (λ rooted. string_bytes rooted ≡ spec.ident_word root.now word.now) }
{
    let Some(name) = rest_of(word, "--ident=") else {
        return String::from_str(alloc, word);
    };
    let mut rooted = String::from_str(alloc, "--ident=")?;
    rooted.push_str(rooted_path(alloc, root, name)?.as_str())?;
    Ok(rooted)
}

// The words of fatbinary.
fn ident_words(alloc: Global, root: &Root, words: &[String]) -> Result<Words, AllocError>
    ensures { IfOk result (λ rooted. rooted ≡ map (spec.ident_word root.now) (map string_bytes words.now)) }
{
    let mut rooted = Words::with_capacity(alloc, words.len())?;
    for word in words {
        rooted.push(ident_word(alloc, root, word.as_str())?)?;
    }
    Ok(rooted)
}

// The words of a tool of nvcc.
fn tool_words(
    alloc: Global,
    root: &Root,
    tool: Program,
    words: &[String],
) -> Result<Words, AllocError>
    ensures { IfOk result (λ rooted. rooted ≡ spec.tool_words root.now tool (map string_bytes words.now)) }
{
    match tool {
        Program::Cicc | Program::Cudafe => source_words(alloc, root, words),
        Program::Fatbinary => ident_words(alloc, root, words),
        Program::Ptxas | Program::Nvlink | Program::Other => Words::copy_of(alloc, words),
    }
}

// Whether a command has the record of another, and preprocesses if that does.
fn keeps_record(
    alloc: Global,
    command: &NvccGeneratedSubcommand,
    other: &NvccGeneratedSubcommand,
) -> Result<bool, AllocError>
    ensures { IfOk result (λ keeps. keeps ≡ spec.keeps_record command.now other.now) }
{
    let files = files_of(alloc, command)?;
    let others = files_of(alloc, other)?;
    let preprocess = preprocesses(command.args.as_slice()) == preprocesses(other.args.as_slice());
    Ok(are_same(&files, &others) && preprocess)
}

// A command with other words.
fn with_words(
    alloc: Global,
    command: &NvccGeneratedSubcommand,
    words: Words,
) -> Result<NvccGeneratedSubcommand, AllocError>
    ensures { IfOk result (λ other. other ≡ spec.with_words command.now words) }
{
    Ok(NvccGeneratedSubcommand {
        exe: command.exe.try_clone(alloc)?,
        args: words,
        cwd: command.cwd.try_clone(alloc)?,
        env_vars: command.env_vars.try_clone(alloc)?,
        cacheable: command.cacheable,
    })
}

// A tool's command with rooted words, if its record stays.
fn rooted_tool(
    alloc: Global,
    root: &Root,
    tool: Program,
    command: NvccGeneratedSubcommand,
) -> Result<NvccGeneratedSubcommand, AllocError>
    ensures { IfOk result (λ rooted. rooted ≡ spec.rooted_tool root.now tool command) }
{
    let words = tool_words(alloc, root, tool, command.args.as_slice())?;
    let rooted = with_words(alloc, &command, words)?;
    if keeps_record(alloc, &rooted, &command)? {
        Ok(rooted)
    } else {
        Ok(command)
    }
}

// A word that has gcc write names that begin with `old` and `end` with `new` and `end` in place of these.
fn file_map(alloc: Global, old: &str, new: &str, end: &str) -> Result<String, AllocError>
    ensures { IfOk result (λ word. string_bytes word ≡ spec.file_map old.now new.now end.now) }
{
    let mut word = String::from_str(alloc, "-ffile-prefix-map=")?;
    word.push_str(old)?;
    word.push_str(end)?;
    word.push_str("=")?;
    word.push_str(new)?;
    word.push_str(end)?;
    Ok(word)
}

// Adds the words for one of the checkout's folders.
fn push_folder_maps(
    alloc: Global,
    words: &mut Words,
    root: &Root,
    at_top: bool,
    folder: &str,
) -> Result<(), AllocError>
    ensures { OnOk result (words.new ≡ words.old ++ spec.folder_maps root.now at_top folder.now) }
{
    words.push(file_map(alloc, folder, root.root.as_str(), "/")?)?;
    if at_top {
        words.push(file_map(alloc, folder, root.root.as_str(), "")?)?;
    }
    Ok(())
}

// The words that have gcc write rooted names. The last one that fits a name counts, so that of generated files is last.
fn file_maps(alloc: Global, root: &Root, cwd: &str) -> Result<Words, AllocError>
    ensures { IfOk result (λ words. words ≡ spec.file_maps root.now cwd.now) }
{
    let folders = root.folders.as_slice();
    let at_top = has_word(folders, cwd);
    let mut words = Words::new(alloc);
    for folder in folders {
        push_folder_maps(alloc, &mut words, root, at_top, folder.as_str())?;
    }
    words.push(file_map(alloc, root.tmp.as_str(), "/tmp", "")?)?;
    Ok(words)
}

// Whether a word asks for what debuggers need.
fn is_for_debuggers(word: &str) -> bool
    ensures { result ≡ spec.is_for_debuggers word.now }
{
    word.as_bytes().starts_with(b"-g")
}

// Whether a word is nvcc's for a command that reads a source: a compile of what cudafe++ has written lacks it.
fn is_for_sources(word: &str) -> bool
    ensures { result ≡ spec.is_for_sources word.now }
{
    word == "-D__NVCC__"
}

fn any_tells_of_names(words: &[String]) -> bool
    ensures { result ≡ list_any spec.tells_of_names (map string_bytes words.now) }
{
    for word in words {
        if is_for_debuggers(word.as_str()) || is_for_sources(word.as_str()) {
            return true;
        }
    }
    false
}

// Whether a host compiler writes names that its text lacks.
fn writes_names(words: &[String]) -> bool
    ensures { result ≡ spec.writes_names (map string_bytes words.now) }
{
    preprocesses(words) || any_tells_of_names(words)
}

// A host compiler's command that writes rooted names.
fn mapped_host(
    alloc: Global,
    root: &Root,
    command: &NvccGeneratedSubcommand,
) -> Result<NvccGeneratedSubcommand, AllocError>
    ensures { IfOk result (λ mapped. mapped ≡ spec.mapped_host root.now command.now) }
{
    let mut words = file_maps(alloc, root, command.cwd.as_str())?;
    words.push_copies(alloc, command.args.as_slice())?;
    with_words(alloc, command, words)
}

// A host compiler's command.
fn rooted_host(
    alloc: Global,
    root: &Root,
    command: &NvccGeneratedSubcommand,
) -> Result<NvccGeneratedSubcommand, AllocError>
    ensures { IfOk result (λ rooted. rooted ≡ spec.rooted_host root.now command.now) }
{
    if writes_names(command.args.as_slice()) {
        mapped_host(alloc, root, command)
    } else {
        command.try_clone(alloc)
    }
}

/// The command that runs in place of one of a plan, so that what it makes has the root in place of the checkout's folder.
///
/// A tool of nvcc runs in `/`, as [`placed_command`] says it, with rooted names in the words that it writes: behind
/// `--orig_src_file_name` and `--orig_src_path_name` for cicc and cudafe++, behind `--ident=` for fatbinary. Its words stay as they are
/// placed if its record would be another. Any other program is a host compiler. If it preprocesses, reads a source, or writes for
/// debuggers, it gets gcc's prefix maps in front of its words: from the checkout's folders to the root, and from the folder of generated
/// files to `/tmp`. Else it writes no names but those of its text, which are rooted.
pub fn rooted_command(
    alloc: Global,
    root: &Root,
    command: &NvccGeneratedSubcommand,
) -> Result<NvccGeneratedSubcommand, AllocError>
    ensures { IfOk result (λ rooted. rooted ≡ spec.rooted_command root.now command.now) }
{
    match Program::at(command.exe.as_str()) {
        Program::Other => rooted_host(alloc, root, command),
        tool => {
            let placed = placed_command(alloc, command, root.tmp.as_str(), "/")?;
            rooted_tool(alloc, root, tool, placed)
        }
    }
}
