//! Items that borrow their texts from the words of their line. Reading them allocates nothing.

ghost use Rattle.std.specs.Prelude.{◌≡◌, ◌++◌, IfOk, OnOk, OnErr, option_map, option_copied};
ghost use Rattle.compilers.specs.Table.{entry_of};
ghost use Rattle.compilers.specs.Items.{item_of};
ghost use Rattle.compilers.specs.Items as spec;
ghost use Rattle.compilers.specs.Views.{item_seen, item_viewed};

use crate::items::{ArgParseError, Argument, Line, joined_word};
use crate::table::{ArgDisposition, ArgInfo, Match};
use std::alloc::{AllocError, Global};
use texts::words::Words;

/// An item of a command line that borrows its texts from the line. `T` is the kind that its table gives
/// each option.
#[derive(Clone, Copy, Debug)]
pub enum ArgumentView<'a, T: Copy> {
    /// A word that is no option.
    Raw(&'a str),
    /// A word that begins with `-` and that no entry matches.
    UnknownFlag(&'a str),
    /// An option without a value: its text and kind.
    Flag(&'static str, T),
    /// An option with a value: its text, kind and value, and how the value stood.
    WithValue(&'static str, T, &'a str, ArgDisposition),
}

impl<'a, T: Copy> ArgumentView<'a, T> {
    // The item of a word that no entry matches.
    fn unmatched(word: &'a str) -> ArgumentView<'a, T>
        ensures { item_seen result ≡ spec.unmatched_item word.now }
    {
        if word.as_bytes().first() == Some(&b'-') {
            ArgumentView::UnknownFlag(word)
        } else {
            ArgumentView::Raw(word)
        }
    }

    /// Copies the item's texts into memory of their own.
    pub fn to_argument(self, alloc: Global) -> Result<Argument<T>, AllocError>
        ensures { IfOk result (λ a. item_of a ≡ item_seen self.entry) }
    {
        Ok(match self {
            ArgumentView::Raw(word) => Argument::Raw(String::from_str(alloc, word)?),
            ArgumentView::UnknownFlag(word) => Argument::UnknownFlag(String::from_str(
                alloc, word,
            )?),
            ArgumentView::Flag(text, kind) => Argument::Flag(text, kind),
            ArgumentView::WithValue(text, kind, value, form) => {
                Argument::WithValue(text, kind, String::from_str(alloc, value)?, form)
            }
        })
    }

    /// Appends copies of the item's words to `words`, as `Argument::write` writes them. On an error `words`
    /// is unchanged.
    pub fn write(self, alloc: Global, words: &mut Words) -> Result<(), AllocError>
        ensures ok { OnOk result (words.new ≡ words.old ++ spec.words_of (item_seen self.entry)) }
        ensures err { OnErr result (words.new ≡ words.old) }
    {
        match self {
            ArgumentView::Raw(word) | ArgumentView::UnknownFlag(word) => words.push_str(
                alloc, word,
            ),
            ArgumentView::Flag(text, _) => words.push_str(alloc, text),
            ArgumentView::WithValue(text, _, value, form) => match form {
                ArgDisposition::Separated | ArgDisposition::CanBeConcatenated(_) => {
                    words.push_pair(alloc, text, value)
                }
                ArgDisposition::Concatenated(delimiter)
                | ArgDisposition::CanBeSeparated(delimiter) => {
                    words.push(joined_word(alloc, text, delimiter, value)?)
                }
            },
        }
    }
}

/// Reads the item that `word` begins; `row` is the entry that `word` chooses. An option takes its value
/// from `line`.
///
/// Readers that keep few items, or only parts of them, call it for each word of a line. `read_item` gives the
/// same item in memory of its own.
pub fn view_item<'v, 'a: 'v, T: Copy>(
    row: Option<&ArgInfo<T>>,
    word: &'v str,
    line: &mut Line<'a>,
) -> Result<ArgumentView<'v, T>, ArgParseError>
    ensures item { spec.Completes
        (spec.said_of word.now (option_map entry_of (option_copied row.entry))) line.old (item_viewed result) line.new }
    ensures left { line.new
        ≡ spec.words_past (spec.said_of word.now (option_map entry_of (option_copied row.entry))) line.old }
{
    let Some(row) = row else {
        return Ok(ArgumentView::unmatched(word));
    };
    match row.matches(word) {
        None => Ok(ArgumentView::unmatched(word)),
        Some(Match::Lone) => Ok(ArgumentView::Flag(row.text(), row.kind())),
        Some(Match::Joined(value)) => Ok(row.joined(value)),
        Some(Match::Awaiting) => match line.next_word() {
            Some(value) => Ok(row.separate(value)),
            None => row.last(),
        },
    }
}

impl<T: Copy> ArgInfo<T> {
    // The option with a value that was joined to it.
    fn joined<'a>(&self, value: &'a str) -> ArgumentView<'a, T>
        ensures { item_seen result
            ≡ spec.with_value (entry_of self.now).text (entry_of self.now).kind value.now
            (spec.joined_form (entry_of self.now).form) }
    {
        let form = match self.disposition() {
            None => ArgDisposition::Concatenated(None),
            Some(ArgDisposition::CanBeConcatenated(delimiter)) => {
                ArgDisposition::CanBeSeparated(delimiter)
            }
            Some(disposition) => disposition,
        };
        ArgumentView::WithValue(self.text(), self.kind(), value, form)
    }

    // The option with a value that was the next word.
    fn separate<'a>(&self, value: &'a str) -> ArgumentView<'a, T>
        ensures { item_seen result ≡ spec.separate_item (entry_of self.now) value.now }
    {
        let form = match self.disposition() {
            Some(ArgDisposition::CanBeSeparated(delimiter))
            | Some(ArgDisposition::CanBeConcatenated(delimiter)) => {
                ArgDisposition::CanBeConcatenated(delimiter)
            }
            _ => ArgDisposition::Separated,
        };
        ArgumentView::WithValue(self.text(), self.kind(), value, form)
    }

    // The option as the last word of a line, where its value would be the next one.
    fn last<'a>(&self) -> Result<ArgumentView<'a, T>, ArgParseError>
        ensures { item_viewed result ≡ spec.last_item (entry_of self.now) }
    {
        match self.disposition() {
            Some(ArgDisposition::CanBeSeparated(None))
            | Some(ArgDisposition::CanBeConcatenated(None)) => Ok(self.joined("")),
            _ => Err(ArgParseError::UnexpectedEndOfArgs),
        }
    }
}
