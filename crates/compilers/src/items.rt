//! The items of a command line, read word by word over an option table.

ghost use Rattle.std.specs.Prelude.{◌≡◌, ◌∷◌, [], ◌++◌, ◌<◌, length, map, Some, MatchOption, IfOk, OnOk, OnErr};
ghost use Rattle.std.specs.Prelude.{false, string_bytes, option_map, option_copied, remove};
ghost use Rattle.compilers.specs.Table.{entry_of};
ghost use Rattle.compilers.specs.Items.{item_of, item_read};
ghost use Rattle.compilers.specs.Items as spec;
ghost use Rattle.compilers.specs.WordsLaw as law;

use crate::table::{ArgDisposition, ArgInfo, SearchableArgInfo};
use crate::views::{ArgumentView, view_item};
use std::alloc::{AllocError, Global};
use std::marker::{Model, PhantomData};
use texts::words::Words;

/// The words of a command line that are left to read, in order. Clauses see the list of their texts.
#[derive(Debug, Drop)]
pub struct Line<'a> {
    front: &'a [String],
    back: &'a [String],
}

impl<'a> Model for Line<'a> {
    ghost use Rattle.std.specs.Prelude.{List, ℕ, map, string_bytes, ◌++◌};

    ghost Value = { List (List ℕ) };

    ghost view = { λ l. map string_bytes l.front.now ++ map string_bytes l.back.now };
}

impl<'a> Line<'a> {
    /// All of `words`.
    pub fn new(words: &'a [String]) -> Line<'a>
        ensures { result ≡ map string_bytes words.entry.now }
    {
        Line {
            front: words,
            back: &[],
        }
    }

    /// The words but the one at `place`, which has to be an index of `words`.
    pub fn without(words: &'a [String], place: usize) -> Line<'a>
        requires { place < length words.now }
        ensures { result ≡ remove (map string_bytes words.entry.now) place }
    {
        Line {
            front: &words[..place],
            back: &words[place + 1..],
        }
    }

    /// Takes the first word.
    pub fn next_word(&mut self) -> Option<&'a str>
        ensures { MatchOption result ((self.old ≡ []) × (self.new ≡ [])) (λ word. self.old ≡ word.now ∷ self.new) }
    {
        if let Some((word, rest)) = self.front.split_first() {
            self.front = rest;
            return Some(word.as_str());
        }
        let (word, rest) = self.back.split_first()?;
        self.back = rest;
        Some(word.as_str())
    }

    /// Appends the words that are left to `words`. On an error `words` is unchanged.
    pub fn write(self, alloc: Global, words: &mut Words) -> Result<(), AllocError>
        ensures ok { OnOk result (words.new ≡ words.old ++ self.entry) }
        ensures err { OnErr result (words.new ≡ words.old) }
    {
        let mut left = Words::copy_of(alloc, self.front)?;
        left.extend(alloc, self.back)?;
        words.append(left)
    }
}

/// An item of a command line. `T` is the kind that its table gives each option.
#[derive(Debug, PartialEq, Drop)]
pub enum Argument<T: Copy> {
    /// A word that is no option.
    Raw(String),
    /// A word that begins with `-` and that no entry matches.
    UnknownFlag(String),
    /// An option without a value: its text and kind.
    Flag(&'static str, T),
    /// An option with a value: its text, kind and value, and how the value stood.
    WithValue(&'static str, T, String, ArgDisposition),
}

/// How to write an option whose value may be a word of its own or a part of the option's word.
#[derive(Clone, Copy, Debug, PartialEq)]
pub enum NormalizedDisposition {
    /// The option and its value as two words.
    Separated,
    /// Both in one word.
    Concatenated,
}

/// Why a word gives no item.
#[derive(Clone, Copy, Debug, PartialEq)]
pub enum ArgParseError {
    /// The line ends before the value of its last option.
    UnexpectedEndOfArgs,
}

impl<T: Copy> Argument<T> {
    /// The option's kind, if the item is an option.
    pub fn get_data(&self) -> Option<&T>
        ensures { option_copied result ≡ spec.kind_of (item_of self.now) }
    {
        match self {
            Argument::Raw(_) | Argument::UnknownFlag(_) => None,
            Argument::Flag(_, kind) | Argument::WithValue(_, kind, _, _) => Some(kind),
        }
    }

    /// The option's text, if the item is an option of the table.
    pub fn flag_str(&self) -> Option<&'static str>
        ensures { option_copied result ≡ spec.text_of (item_of self.now) }
    {
        match self {
            Argument::Raw(_) | Argument::UnknownFlag(_) => None,
            Argument::Flag(text, _) | Argument::WithValue(text, _, _, _) => Some(text),
        }
    }

    /// The option's value, as the line gives it; empty for an item without one.
    pub fn value(&self) -> &str
        ensures { result.now ≡ spec.value_of (item_of self.now) }
    {
        match self {
            Argument::Raw(_) | Argument::UnknownFlag(_) | Argument::Flag(_, _) => "",
            Argument::WithValue(_, _, value, _) => value.as_str(),
        }
    }

    /// The same item, written as `disposition` says if its option may be written both ways. Any other
    /// item is unchanged.
    pub fn normalize(self, disposition: NormalizedDisposition) -> Argument<T>
        ensures { item_of result ≡ spec.normalized disposition (item_of self) }
    {
        match self {
            Argument::WithValue(text, kind, value, form) => {
                let form = match (form, disposition) {
                    (
                        ArgDisposition::CanBeSeparated(_) | ArgDisposition::CanBeConcatenated(_),
                        NormalizedDisposition::Separated,
                    ) => ArgDisposition::Separated,
                    (
                        ArgDisposition::CanBeSeparated(delimiter)
                        | ArgDisposition::CanBeConcatenated(delimiter),
                        NormalizedDisposition::Concatenated,
                    ) => ArgDisposition::Concatenated(delimiter),
                    (form, _) => form,
                };
                Argument::WithValue(text, kind, value, form)
            }
            item => item,
        }
    }

    /// The item's words, as `write` writes them, in memory of their own.
    pub fn words(&self, alloc: Global) -> Result<Words, AllocError>
        ensures { IfOk result (λ words. words ≡ spec.words_of (item_of self.now)) }
    {
        let view = match self {
            Argument::Raw(word) => ArgumentView::Raw(word.as_str()),
            Argument::UnknownFlag(word) => ArgumentView::UnknownFlag(word.as_str()),
            Argument::Flag(text, kind) => ArgumentView::Flag(text, *kind),
            Argument::WithValue(text, kind, value, form) => {
                ArgumentView::WithValue(text, *kind, value.as_str(), *form)
            }
        };
        let mut words = Words::new(alloc);
        view.write(alloc, &mut words)?;
        Ok(words)
    }

    /// Appends the item's words to `words`, and moves its texts there. An option and its value are two
    /// words. If the value was joined, they are one word, with the delimiter between them if there is one
    /// and the value isn't empty. On an error `words` is unchanged.
    pub fn write(self, alloc: Global, words: &mut Words) -> Result<(), AllocError>
        ensures ok { OnOk result (words.new ≡ words.old ++ spec.words_of (item_of self)) }
        ensures err { OnErr result (words.new ≡ words.old) }
    {
        match self {
            Argument::Raw(word) | Argument::UnknownFlag(word) => words.push(word),
            Argument::Flag(text, _) => words.push(String::from_str(alloc, text)?),
            Argument::WithValue(text, _, value, form) => match form {
                ArgDisposition::Separated | ArgDisposition::CanBeConcatenated(_) => {
                    words.push_two(String::from_str(alloc, text)?, value)
                }
                ArgDisposition::Concatenated(delimiter)
                | ArgDisposition::CanBeSeparated(delimiter) => {
                    words.push(joined_word(alloc, text, delimiter, value.as_str())?)
                }
            },
        }
    }
}

// An option and its value in one word.
pub(crate) fn joined_word(
    alloc: Global,
    text: &str,
    delimiter: Option<u8>,
    value: &str,
) -> Result<String, AllocError>
    ensures { IfOk result (λ word. string_bytes word
        ≡ (text.now ++ spec.delimiter_before value.now delimiter) ++ value.now) }
{
    let room = text.len().saturating_add(value.len()).saturating_add(1);
    let mut word = String::with_capacity(alloc, room)?;
    word.push_str(text)?;
    match delimiter {
        Some(byte) if !value.is_empty() => word.push(char::from(byte))?,
        _ => {},
    }
    word.push_str(value)?;
    Ok(word)
}

/// The items of a line, read over a table. It reads each word once, so there are at most as many items
/// as words.
///
/// After an allocation failure it yields nothing more, and `refused` returns true. The words left are then
/// those after the item whose copy failed.
#[derive(Drop)]
pub struct ArgsIter<'a, S: SearchableArgInfo<T> + Drop, T: Copy> {
    alloc: Global,
    line: Line<'a>,
    table: S,
    refused: bool,
    kinds: PhantomData<T>,
}

impl<'a, S: SearchableArgInfo<T> + Drop, T: Copy> ArgsIter<'a, S, T> {
    ghost use Rattle.compilers.specs.ArgsIter.{words_left, is_refused, table_of};

    /// The items of `words`.
    pub fn new(alloc: Global, words: &'a [String], table: S) -> ArgsIter<'a, S, T>
        ensures words { words_left result ≡ map string_bytes words.entry.now }
        ensures table { table_of result ≡ table }
        ensures goes_on { is_refused result ≡ false }
    {
        ArgsIter::over(alloc, Line::new(words), table)
    }

    /// The items of the words of `line`.
    pub fn over(alloc: Global, line: Line<'a>, table: S) -> ArgsIter<'a, S, T>
        ensures words { words_left result ≡ line.entry }
        ensures table { table_of result ≡ table }
        ensures goes_on { is_refused result ≡ false }
    {
        ArgsIter {
            alloc,
            line,
            table,
            refused: false,
            kinds: PhantomData,
        }
    }

    /// Whether an allocation failed. If so, the items so far are only the first ones of the line.
    pub fn refused(&self) -> bool
        ensures { result ≡ is_refused self.now }
    {
        self.refused
    }
}

impl<'a, S: SearchableArgInfo<T> + Drop, T: Copy> Iterator for ArgsIter<'a, S, T> {
    ghost use Rattle.std.specs.Iterator.{at_most};

    type Item = Result<Argument<T>, ArgParseError>;

    ghost next_gives = { λ s r t. spec.ReadsItem (S.chosen s.table) s.line s.refused (option_map item_read r) t.line t.refused
        × (t.table ≡ s.table) };

    ghost remaining = { λ s. at_most (length s.line) };

    fn next(&mut self) -> Option<Result<Argument<T>, ArgParseError>> {
        if self.refused {
            return None;
        }
        let word = self.line.next_word()?;
        let row = self.table.search(word);
        match read_item(self.alloc, row, word, &mut self.line) {
            Ok(item) => Some(item),
            Err(_) => {
                self.refused = true;
                None
            }
        }
    }
}

/// Reads the item that `word` begins; `row` is the entry that `word` chooses. An option takes its value
/// from `line`, even if copying that value then fails.
///
/// `ArgsIter` reads a whole line with it. Call it yourself if you need the words between two items.
pub fn read_item<T: Copy>(
    alloc: Global,
    row: Option<&ArgInfo<T>>,
    word: &str,
    line: &mut Line<'_>,
) -> Result<Result<Argument<T>, ArgParseError>, AllocError>
    ensures item { IfOk result (λ r. spec.Completes
        (spec.said_of word.now (option_map entry_of (option_copied row.entry))) line.old (item_read r) line.new) }
    ensures left { line.new
        ≡ spec.words_past (spec.said_of word.now (option_map entry_of (option_copied row.entry))) line.old }
{
    match view_item(row, word, line) {
        Ok(view) => Ok(Ok(view.to_argument(alloc)?)),
        Err(error) => Ok(Err(error)),
    }
}

/// A law over every table: reading the words that an item is written as gives that item again.
///
/// The parts of a line that its items were read from make up the line (`parts`). The rest of the law is
/// about whole items: those that aren't faulty, and whose value isn't both joined and empty. Wherever a
/// whole item is in a line, its words are the part that it was read from (`placed`). If it is the first
/// item, the line begins with its words, and the later items are those of the words after them (`written`).
///
/// Every item of a line is the first item of some line (`read`). The words of a whole item that was read
/// from a line are read as that item, whatever words follow (`reread`). The same goes for lists of such
/// items (`lists`), and a line of whole items is written as itself (`lines`).
pub fn words_law<T: Copy, S: SearchableArgInfo<T>>()
    ensures parts { (table : S) → law.LinesAreTheirParts (S.chosen table) }
    ensures placed { (table : S) → law.WholeItemsAreTheirParts (S.chosen table) }
    ensures read { (table : S) → law.LinesHoldReadItems (S.chosen table) }
    ensures written { (table : S) → law.WordsAreThoseRead (S.chosen table) }
    ensures reread { (table : S) → law.WordsReadBack (S.chosen table) }
    ensures lists { (table : S) → law.ListsReadBack (S.chosen table) }
    ensures lines { (table : S) → law.WholeLinesAreKept (S.chosen table) }
{}
