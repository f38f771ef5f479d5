//! A command as it runs in the call's own directory, and its words, whose files have whole paths.

ghost use Rattle.std.specs.Prelude.{◌≡◌, IfOk, ◌<◌, IfSome, [], length, map, string_bytes};
ghost use Rattle.placed_commands.specs.PlacedCommands as spec;
ghost use Rattle.placed_commands.specs.PlacedWords as placing;

use command_files::{CommandFiles, files_of, has_word, preprocesses};
use compilers::plans::NvccGeneratedSubcommand;
use std::alloc::{AllocError, Global};
use texts::text::{Text, join};
use texts::words::Words;

// A command that runs in `cwd`, given its record. Its files have whole paths.
fn moved(
    alloc: Global,
    command: &NvccGeneratedSubcommand,
    files: &CommandFiles,
    cwd: &str,
) -> Result<NvccGeneratedSubcommand, AllocError>
    ensures { IfOk result (λ placed. placed ≡ spec.moved files.now cwd.now command.now) }
{
    let folder = command.cwd.as_str();
    Ok(NvccGeneratedSubcommand {
        exe: command.exe.try_clone(alloc)?,
        args: placed_words(alloc, files, folder, command.args.as_slice())?,
        cwd: Text::copy_of(alloc, cwd)?,
        env_vars: command.env_vars.try_clone(alloc)?,
        cacheable: command.cacheable,
    })
}

/// Whether two records name the same files.
pub fn are_same(files: &CommandFiles, others: &CommandFiles) -> bool
    ensures { result ≡ spec.are_same files.now others.now }
{
    files.reads == others.reads
        && files.writes == others.writes
        && files.may_write == others.may_write
        && files.complete == others.complete
}

// A command that ran in the directory of generated files.
fn placed_tool(
    alloc: Global,
    command: &NvccGeneratedSubcommand,
    cwd: &str,
) -> Result<NvccGeneratedSubcommand, AllocError>
    ensures { IfOk result (λ placed. placed ≡ spec.placed_tool cwd.now command.now) }
{
    let files = files_of(alloc, command)?;
    let placed = moved(alloc, command, &files, cwd)?;
    let others = files_of(alloc, &placed)?;
    if are_same(&others, &files) && !preprocesses(placed.args.as_slice()) {
        Ok(placed)
    } else {
        command.try_clone(alloc)
    }
}

/// The command that runs in place of one of a plan, in the directory `cwd` of the call, if the plan's runs in `tmp`, the directory of
/// generated files.
///
/// It has the same program, variables and record, and as many words. In each word, an end that names a file of the record from `tmp`
/// gets the file's whole path: all of the word, or what stands behind an `=`. The name of the source stays as it is. A command stays
/// as it is if it runs elsewhere, preprocesses, or would have another record, as with a comma in `tmp`: fatbinary cuts words there.
pub fn placed_command(
    alloc: Global,
    command: &NvccGeneratedSubcommand,
    tmp: &str,
    cwd: &str,
) -> Result<NvccGeneratedSubcommand, AllocError>
    ensures { IfOk result (λ placed. placed ≡ spec.placed_command tmp.now cwd.now command.now) }
{
    if command.cwd.as_str() == tmp && !preprocesses(command.args.as_slice()) {
        placed_tool(alloc, command, cwd)
    } else {
        command.try_clone(alloc)
    }
}

// Whether a command reads or writes a file by its record.
fn is_touched(files: &CommandFiles, path: &str) -> bool
    ensures { result ≡ placing.is_touched files.now path.now }
{
    has_word(files.reads.as_slice(), path)
        || has_word(files.writes.as_slice(), path)
        || has_word(files.may_write.as_slice(), path)
}

// Whether a text names a file of the record from a folder.
fn is_file(
    alloc: Global,
    files: &CommandFiles,
    folder: &str,
    text: &str,
) -> Result<bool, AllocError>
    ensures { IfOk result (λ answer. answer ≡ placing.is_file files.now folder.now text.now) }
{
    let path = join(alloc, folder, text)?;
    Ok(is_touched(files, path.as_str()))
}

// What is before and after the first `=` of a text.
fn at_equals(text: &str) -> Option<(&str, &str)>
    ensures cut { placing.IsCutAtEquals text.now result }
    ensures less { IfSome result (λ parts. length parts.1.now < length text.now) }
{
    text.split_once('=')
}

// A word in which the file that it names has its whole path: the word, or what is after an `=`.
fn placed_word(
    alloc: Global,
    files: &CommandFiles,
    folder: &str,
    word: &str,
) -> Result<String, AllocError>
    ensures { IfOk result (λ placed. string_bytes placed ≡ placing.placed_word files.now folder.now word.now) }
{
    let mut placed = String::new(alloc);
    let mut rest = word;
    while !is_file(alloc, files, folder, rest)? {
        let Some((before, behind)) = at_equals(rest) else {
            placed.push_str(rest)?;
            return Ok(placed);
        };
        placed.push_str(before)?;
        placed.push_str("=")?;
        rest = behind;
    }
    let path = join(alloc, folder, rest)?;
    placed.push_str(path.as_str())?;
    Ok(placed)
}

// A word behind another. The source's name, which tools show, stays.
fn word_behind(
    alloc: Global,
    files: &CommandFiles,
    folder: &str,
    before: &str,
    word: &str,
) -> Result<String, AllocError>
    ensures { IfOk result (λ placed. string_bytes placed ≡ placing.word_behind files.now folder.now before.now word.now) }
{
    if before == "--orig_src_file_name" || word.as_bytes().starts_with(b"--ident=") {
        String::from_str(alloc, word)
    } else {
        placed_word(alloc, files, folder, word)
    }
}

/// The words of a command, in which each file of its record has a whole path.
pub fn placed_words(
    alloc: Global,
    files: &CommandFiles,
    folder: &str,
    words: &[String],
) -> Result<Words, AllocError>
    ensures { IfOk result (λ placed. placed ≡ placing.placed_words files.now folder.now [] (map string_bytes words.now)) }
{
    let mut placed = Words::with_capacity(alloc, words.len())?;
    let mut before = "";
    for word in words {
        placed.push(word_behind(alloc, files, folder, before, word.as_str())?)?;
        before = word.as_str();
    }
    Ok(placed)
}
