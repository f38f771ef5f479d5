//! The first command whose result differs, and what it had otherwise.

ghost use Rattle.std.specs.Prelude.{◌≡◌, map, string_bytes, bytes_eq};
ghost use Rattle.texts.specs.Variables.{pair_of};
ghost use Rattle.record_causes.specs.Places.{first_other};
ghost use Rattle.record_causes.specs.Causes as spec;

use crate::ran::{Ran, Record};

/// What a command had otherwise than that of another record. Numbers are places in both lists, from 0: what is there differs, or only one
/// list has it.
#[derive(Clone, Copy, Debug, PartialEq)]
pub enum Part {
    /// One record has no such command.
    Count,
    /// A word.
    Word(usize),
    /// A variable.
    Variable(usize),
    /// A program.
    Tool(usize),
    /// A file that it read.
    Input(usize),
    /// A folder.
    Folder(usize),
    /// Nothing: it isn't deterministic, or depends on what no record has.
    Nothing,
    /// The products differ, but the result of no command does.
    Unseen,
}

/// Why the products of two records differ.
#[derive(Clone, Copy, Debug, PartialEq)]
pub struct Cause {
    /// The number of the first command whose result differs, from 0. How many there are, if none does.
    pub command: usize,
    /// What it had otherwise.
    pub part: Part,
}

// The place of the first word by which two lists differ.
fn other_word(words: &[String], others: &[String]) -> Option<usize>
    ensures { result ≡ first_other bytes_eq 0 (map string_bytes words.now) (map string_bytes others.now) }
{
    let mut rest = others;
    for (place, word) in words.iter().enumerate() {
        let Some((other, more)) = rest.split_first() else {
            return Some(place);
        };
        if word.as_str() != other.as_str() {
            return Some(place);
        }
        rest = more;
    }
    if rest.is_empty() {
        None
    } else {
        Some(words.len())
    }
}

// Whether two pairs are the same.
fn is_same(pair: &(String, String), other: &(String, String)) -> bool
    ensures { result ≡ spec.is_same (pair_of pair.now) (pair_of other.now) }
{
    pair.0.as_str() == other.0.as_str() && pair.1.as_str() == other.1.as_str()
}

// The place of the first pair by which two lists differ.
fn other_pair(pairs: &[(String, String)], others: &[(String, String)]) -> Option<usize>
    ensures { result ≡ first_other spec.is_same 0 (map pair_of pairs.now) (map pair_of others.now) }
{
    let mut rest = others;
    for (place, pair) in pairs.iter().enumerate() {
        let Some((other, more)) = rest.split_first() else {
            return Some(place);
        };
        if !is_same(pair, other) {
            return Some(place);
        }
        rest = more;
    }
    if rest.is_empty() {
        None
    } else {
        Some(pairs.len())
    }
}

// What a command had otherwise than another one, but for words.
fn part_of_surroundings(one: &Ran, other: &Ran) -> Part
    ensures { result ≡ spec.part_of_surroundings one.now other.now }
{
    if let Some(place) = other_pair(one.variables.as_slice(), other.variables.as_slice()) {
        return Part::Variable(place);
    }
    if let Some(place) = other_pair(one.tools.as_slice(), other.tools.as_slice()) {
        return Part::Tool(place);
    }
    if let Some(place) = other_pair(one.inputs.as_slice(), other.inputs.as_slice()) {
        return Part::Input(place);
    }
    match other_word(one.folders.as_slice(), other.folders.as_slice()) {
        Some(place) => Part::Folder(place),
        None => Part::Nothing,
    }
}

// What a command had otherwise than another one.
fn part_of(one: &Ran, other: &Ran) -> Part
    ensures { result ≡ spec.part_of one.now other.now }
{
    match other_word(one.words.as_slice(), other.words.as_slice()) {
        Some(place) => Part::Word(place),
        None => part_of_surroundings(one, other),
    }
}

// Whether two lists have the same pairs.
fn are_same(pairs: &[(String, String)], others: &[(String, String)]) -> bool
    ensures { result ≡ spec.are_same (map pair_of pairs.now) (map pair_of others.now) }
{
    other_pair(pairs, others).is_none()
}

// The first command whose result differs, and what it had otherwise.
fn first_change(commands: &[Ran], others: &[Ran]) -> Cause
    ensures { result ≡ spec.first_change 0 commands.now others.now }
{
    let mut rest = others;
    for (command, one) in commands.iter().enumerate() {
        let Some((other, more)) = rest.split_first() else {
            return Cause {
                command,
                part: Part::Count,
            };
        };
        if !are_same(one.outputs.as_slice(), other.outputs.as_slice()) {
            return Cause {
                command,
                part: part_of(one, other),
            };
        }
        rest = more;
    }
    let part = if rest.is_empty() {
        Part::Unseen
    } else {
        Part::Count
    };
    Cause {
        command: commands.len(),
        part,
    }
}

/// Why the products of two records differ. `None` if they don't.
///
/// It is found at the first command that made other files than the other record's: nothing that ran before it did. There a word comes
/// first, then a variable that counts, a program, a file that it read, and a folder. A file of an earlier command is never it, since all
/// that these made is the same.
pub fn cause_of(one: &Record, other: &Record) -> Option<Cause>
    ensures { result ≡ spec.cause_of one.now other.now }
{
    if are_same(one.products.as_slice(), other.products.as_slice()) {
        None
    } else {
        Some(first_change(one.commands.as_slice(), other.commands.as_slice()))
    }
}
