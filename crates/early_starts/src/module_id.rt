//! The file that a command reads late, and words that name another one.

ghost use Rattle.std.specs.Prelude.{◌≡◌, IfOk, map, string_bytes};
ghost use Rattle.early_starts.specs.LateFiles as spec;

use compilers::plans::{NvccGeneratedSubcommand, Program};
use std::alloc::{AllocError, Global};
use texts::text::{Text, join};
use texts::words::{Words, word_after};

/// The option behind which cicc and cudafe++ name the module id's file.
pub fn module_id_option() -> &'static str
    ensures { result.now ≡ spec.module_id_option }
{
    "--module_id_file_name"
}

// The path of the module id's file that a command names, joined to its working directory.
fn named_file(alloc: Global, command: &NvccGeneratedSubcommand) -> Result<Option<Text>, AllocError>
    ensures { IfOk result (λ file. file ≡ spec.named_file command.now) }
{
    match word_after(command.args.as_slice(), module_id_option()) {
        None => Ok(None),
        Some(word) => Ok(Some(Text::new(join(alloc, command.cwd.as_str(), word)?))),
    }
}

/// The path of the file that a command reads only once it has parsed its input: cicc's module id. `None` if it isn't cicc, or names none.
pub fn late_file(
    alloc: Global,
    command: &NvccGeneratedSubcommand,
) -> Result<Option<Text>, AllocError>
    ensures { IfOk result (λ file. file ≡ spec.late_file command.now) }
{
    match Program::at(command.exe.as_str()) {
        Program::Cicc => named_file(alloc, command),
        _ => Ok(None),
    }
}

/// Whether a command is cudafe++, and its module id's file is this one.
pub fn gives(
    alloc: Global,
    late: &str,
    command: &NvccGeneratedSubcommand,
) -> Result<bool, AllocError>
    ensures { IfOk result (λ gives. gives ≡ spec.gives late.now command.now) }
{
    match Program::at(command.exe.as_str()) {
        Program::Cudafe => match named_file(alloc, command)? {
            None => Ok(false),
            Some(file) => Ok(file.as_str() == late),
        },
        _ => Ok(false),
    }
}

/// Words in which another name is behind the first that is this option.
pub fn renamed(
    alloc: Global,
    option: &str,
    name: &str,
    words: &[String],
) -> Result<Words, AllocError>
    ensures { IfOk result (λ others. others ≡ spec.renamed option.now name.now (map string_bytes words.now)) }
{
    let mut renamed = Words::with_capacity(alloc, words.len())?;
    let mut rest = words;
    while let [word, behind @ ..] = rest {
        renamed.push_str(alloc, word.as_str())?;
        if word.as_str() == option {
            if let [_, others @ ..] = behind {
                renamed.push_str(alloc, name)?;
                renamed.push_copies(alloc, others)?;
            }
            return Ok(renamed);
        }
        rest = behind;
    }
    Ok(renamed)
}
