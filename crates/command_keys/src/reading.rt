//! The words of a command as a cache knows them.

ghost use Rattle.std.specs.Prelude.{◌≡◌, None, map, IfOk, option_map, option_copied, vec_items};
ghost use Rattle.std.specs.List.{list_any};
ghost use Rattle.command_keys.specs.Images.{quotes};
ghost use Rattle.command_keys.specs.Keys.{shown};
ghost use Rattle.command_keys.specs.KnownWords.{row_of};
ghost use Rattle.command_keys.specs.ReadWords as spec;

use crate::images::{image_name, is_quoted};
use crate::known_words::{Form, KnownWord, Meaning, known_word};
use compilers::plans::Program;
use std::alloc::{AllocError, Global};
use std::marker::Model;

/// What a word of a command is to a key.
#[derive(Clone, Copy, Debug, PartialEq)]
pub enum Role {
    /// It counts as it is.
    Counts,
    /// Only a preprocessor reads it, whose text counts by itself.
    Preprocessor,
    /// It names a file that the command reads.
    Reads,
    /// It ends in the name of a file that the command writes, or of one that another wrote for it.
    Names,
}

/// A word of a command.
#[derive(Debug, Drop)]
pub struct ReadWord<'a> {
    /// The word.
    pub word: &'a [u8],
    /// The file's name in it; empty if it names none.
    pub name: &'a [u8],
    /// What the word is to a key.
    pub role: Role,
}

impl<'a> Model for ReadWord<'a> {
    ghost use Rattle.command_keys.specs.ReadWords.{Read};

    ghost Value = { Read };

    ghost view = { λ r. record { word = r.word.now; name = r.name.now; role = r.role } };
}

impl<'a> ReadWord<'a> {
    // A word that names no file.
    fn plain(word: &'a [u8], role: Role) -> ReadWord<'a>
        ensures { result ≡ spec.plain word.entry.now role }
    {
        ReadWord {
            word,
            name: &[],
            role,
        }
    }
}

// A word that is the value of an option.
fn value_read<'a>(meaning: Meaning, word: &'a [u8]) -> ReadWord<'a>
    ensures { result ≡ spec.value_read meaning word.now }
{
    match meaning {
        Meaning::File => ReadWord {
            word,
            name: word,
            role: Role::Names,
        },
        Meaning::Preprocessor => ReadWord::plain(word, Role::Preprocessor),
        _ => ReadWord::plain(word, Role::Counts),
    }
}

// A word that no row fits, if it names a file that the tool reads.
fn input_read(tool: Program, word: &[u8]) -> Option<ReadWord<'_>>
    ensures { result ≡ spec.input_read tool word.now }
{
    let takes_files = matches!(
        tool,
        Program::Cudafe | Program::Cicc | Program::Ptxas | Program::Other
    );
    match word {
        [] | [b'-', ..] | [b'@', ..] => None,
        _ if takes_files => Some(ReadWord {
            word,
            name: word,
            role: Role::Reads,
        }),
        _ => None,
    }
}

// A word that names a file behind a row's text. Quotes may hide another name.
fn file_read<'a>(text: &str, word: &'a [u8]) -> Option<ReadWord<'a>>
    ensures { result ≡ spec.file_read text.now word.now }
{
    if is_quoted(word) {
        return None;
    }
    let name = word.get(text.len()..)?;
    Some(ReadWord {
        word,
        name,
        role: Role::Names,
    })
}

// A word of fatbinary's that is an image.
fn image_read<'a>(text: &str, word: &'a [u8]) -> Option<ReadWord<'a>>
    ensures { result ≡ spec.image_read text.now word.now }
{
    if is_quoted(word) {
        return None;
    }
    let name = image_name(word.get(text.len()..)?)?;
    Some(ReadWord {
        word,
        name,
        role: Role::Reads,
    })
}

// A word that a row of the table fits.
fn row_read<'a>(row: &KnownWord, word: &'a [u8]) -> Option<ReadWord<'a>>
    ensures { result ≡ spec.row_read (row_of row.now) word.now }
{
    match (row.meaning, row.form) {
        (Meaning::Refused, _) => None,
        (Meaning::Preprocessor, _) => Some(ReadWord::plain(word, Role::Preprocessor)),
        (Meaning::File, Form::Beginning) => file_read(row.text, word),
        (Meaning::Image, _) => image_read(row.text, word),
        _ => Some(ReadWord::plain(word, Role::Counts)),
    }
}

// What the next word is the value of.
fn next_meaning(row: &KnownWord) -> Option<Meaning>
    ensures { result ≡ spec.next_meaning (row_of row.now) }
{
    match row.form {
        Form::Valued => Some(row.meaning),
        _ => None,
    }
}

// A word that is no value, and the meaning of its option if the next word is its value.
fn option_read(tool: Program, word: &[u8]) -> Option<(ReadWord<'_>, Option<Meaning>)>
    ensures { result ≡ spec.option_read tool word.now }
{
    let Some(row) = known_word(tool, word) else {
        return Some((input_read(tool, word)?, None));
    };
    Some((row_read(&row, word)?, next_meaning(&row)))
}

// A word, given the option that it's the value of, and what the next one is the value of.
fn word_read(
    tool: Program,
    option: Option<Meaning>,
    word: &[u8],
) -> Option<(ReadWord<'_>, Option<Meaning>)>
    ensures { result ≡ spec.word_read tool option word.now }
{
    match option {
        Some(meaning) => Some((value_read(meaning, word), None)),
        None => option_read(tool, word),
    }
}

/// The words of a command, behind its program, as a cache knows them: all of them, in order. `None` if one isn't in the table of the tool's
/// words and names no file that it reads, if the table refuses it, or if the last one lacks its value.
pub fn read_words<'a>(
    alloc: Global,
    tool: Program,
    words: &[&'a [u8]],
) -> Result<Option<Vec<ReadWord<'a>>>, AllocError>
    ensures { IfOk result (λ read. option_map vec_items read ≡ spec.read_words tool (map shown words.now)) }
{
    let mut read = Vec::with_capacity(alloc, words.len())?;
    let mut option = None;
    for word in words {
        let Some((next, value_of)) = word_read(tool, option, word) else {
            return Ok(None);
        };
        read.push(next)?;
        option = value_of;
    }
    match option {
        Some(_) => Ok(None),
        None => Ok(Some(read)),
    }
}
