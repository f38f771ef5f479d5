//! Splits a text into the words of a shell command.

ghost use Rattle.std.specs.Prelude.{◌≡◌, [], ◌∷◌, ◌<◌, ◌≤◌, false, map, length, IfOk, OnOk, MatchOption, encode_utf8_all, string_bytes, MatchBool, fold, option_map, chars};
ghost use Rattle.texts.specs.Shell.{HasWords, HasNoWords};
ghost use Rattle.texts.specs.Shell.Splitting.{split_chars};

use crate::shell::span::{ends_span, span_len};
use std::alloc::{AllocError, Global};
use std::marker::Model;
use std::mem;

/// Splits a text into the words of a command.
///
/// It splits like the crate `shlex`: quotes and backslashes group characters like in a POSIX shell, a `#` at the start
/// of a word begins a comment, which a newline ends, and `$`, `*`, `|` and `;` are ordinary characters. Like in that
/// crate, a backslash and a newline between blanks are an empty word; a shell has none there.
/// Returns `None` if a quote is left open, or a backslash ends the text.
pub fn split(alloc: Global, text: &str) -> Result<Option<Vec<String>>, AllocError>
    // The text has these words, or it has none.
    ensures words { IfOk result (λ found.
        MatchOption found (HasNoWords text.now) (λ v. HasWords text.now (map string_bytes v.items))) }
    // They are those that `split_chars` computes.
    ensures value { IfOk result (λ found.
        option_map (λ v. map string_bytes v.items) found
        ≡ option_map (map encode_utf8_all) (split_chars (chars text.now))) }
{
    let mut splitter = Splitter {
        alloc,
        state: State::Between,
        words: Vec::new(alloc),
        word: String::new(alloc),
    };
    let mut rest = text;
    while !rest.is_empty() {
        rest = splitter.read_some(rest)?;
    }
    splitter.finish()
}

/// Where a splitter is in a text.
#[derive(Clone, Copy)]
pub(crate) enum State {
    /// Between words.
    Between,
    /// After a `#` that begins a comment.
    Comment,
    /// In a word, outside quotes.
    Word,
    /// In a word, after a backslash.
    Escaped,
    /// Between single quotes.
    SingleQuoted,
    /// Between double quotes.
    DoubleQuoted,
    /// Between double quotes, after a backslash.
    EscapedInQuotes,
}

// The first character of a text, and the rest.
fn next_char(text: &str) -> Option<(char, &str)>
    ensures { MatchOption result (chars text.now ≡ [])
        (λ next. (chars text.now ≡ next.0 ∷ chars next.1.now) × (length next.1.now < length text.now)) }
{
    let mut chars = text.chars();
    let first = chars.next()?;
    Some((first, chars.as_str()))
}

/// The words so far of a text that is read from its start.
#[derive(Drop)]
struct Splitter {
    alloc: Global,
    state: State,
    words: Vec<String>,
    word: String,
}

impl Model for Splitter {
    ghost use Rattle.std.specs.Prelude.{map, string_bytes};
    ghost use Rattle.texts.specs.Shell.Splitting.{Splitting};

    ghost Value = { Splitting };

    ghost view = { λ s. record { state = s.state; words = map string_bytes s.words.items; word = string_bytes s.word } };
}

impl Splitter {
    ghost use Rattle.texts.specs.Shell.Splitting as spec;

    // Reads a span and what ends it, or a character outside any span. Returns what is left to read.
    #[inline(always)]
    fn read_some<'a>(&mut self, text: &'a str) -> Result<&'a str, AllocError>
        ensures same { IfOk result (λ rest.
            fold spec.after self.new (chars rest.now) ≡ fold spec.after self.old (chars text.now)) }
        ensures less { IfOk result (λ rest. 0 < length text.now → length rest.now < length text.now) }
    {
        let Some((c, behind)) = next_char(text) else {
            return Ok(text);
        };
        if !self.begin_span(c) {
            self.read(c)?;
            return Ok(behind);
        }
        let (span, rest) = text.split_at(span_len(self.state, text.as_bytes()));
        self.take_span(span, rest)
    }

    // Whether a character is the first of a span. A span between words begins a word.
    #[inline(always)]
    fn begin_span(&mut self, c: char) -> bool
        ensures { MatchBool result
            ((spec.after self.new c ≡ spec.after self.old c) × (spec.ends_span self.new.state c ≡ false))
            (self.new ≡ self.old) }
    {
        match self.state {
            State::Between => {
                if c == '#' || ends_span(State::Word, c) {
                    return false;
                }
                self.state = State::Word;
                true
            }
            state => !ends_span(state, c),
        }
    }

    // Adds a span to the word. If the span is the whole word and a blank ends it, reads that too.
    #[inline(always)]
    fn take_span<'a>(&mut self, span: &str, rest: &'a str) -> Result<&'a str, AllocError>
        ensures same { IfOk result (λ left.
            fold spec.after self.new (chars left.now) ≡ fold spec.after (spec.with_bytes self.old span.now) (chars rest.now)) }
        ensures less { IfOk result (λ left. length left.now ≤ length rest.now) }
    {
        if !self.word.is_empty() {
            self.word.push_str(span)?;
            return Ok(rest);
        }
        let word = String::from_str(self.alloc, span)?;
        match (self.state, next_char(rest)) {
            (State::Word, Some((' ' | '\t' | '\n', behind))) => {
                self.words.push(word)?;
                self.state = State::Between;
                Ok(behind)
            }
            _ => {
                self.word = word;
                Ok(rest)
            }
        }
    }

    fn read(&mut self, c: char) -> Result<(), AllocError>
        ensures { OnOk result (self.new ≡ spec.after self.old c) }
    {
        match self.state {
            State::Between => match c {
                ' ' | '\t' | '\n' => {}
                '#' => self.state = State::Comment,
                _ => self.begin_piece(c)?,
            },
            State::Comment => {
                if c == '\n' {
                    self.state = State::Between;
                }
            }
            State::Word => match c {
                ' ' | '\t' | '\n' => self.end_word()?,
                _ => self.begin_piece(c)?,
            },
            State::Escaped => {
                if c != '\n' {
                    self.word.push(c)?;
                }
                self.state = State::Word;
            }
            State::SingleQuoted => match c {
                '\'' => self.state = State::Word,
                _ => self.word.push(c)?,
            },
            State::DoubleQuoted => match c {
                '"' => self.state = State::Word,
                '\\' => self.state = State::EscapedInQuotes,
                _ => self.word.push(c)?,
            },
            State::EscapedInQuotes => self.read_escaped_in_quotes(c)?,
        }
        Ok(())
    }

    fn end_word(&mut self) -> Result<(), AllocError>
        ensures { OnOk result (self.new ≡ spec.applied (State.Between, spec.Effect.EndsWord) self.old) }
    {
        let word = mem::replace(&mut self.word, String::new(self.alloc));
        self.words.push(word)?;
        self.state = State::Between;
        Ok(())
    }

    fn begin_piece(&mut self, c: char) -> Result<(), AllocError>
        ensures { OnOk result (self.new ≡ spec.applied (spec.begins_piece c) self.old) }
    {
        match c {
            '\\' => self.state = State::Escaped,
            '\'' => self.state = State::SingleQuoted,
            '"' => self.state = State::DoubleQuoted,
            _ => {
                self.word.push(c)?;
                self.state = State::Word;
            }
        }
        Ok(())
    }

    fn read_escaped_in_quotes(&mut self, c: char) -> Result<(), AllocError>
        ensures { OnOk result (self.new ≡ spec.applied (spec.reads_escaped_in_quotes c) self.old) }
    {
        match c {
            '$' | '`' | '"' | '\\' => self.word.push(c)?,
            '\n' => {}
            _ => {
                self.word.push('\\')?;
                self.word.push(c)?;
            }
        }
        self.state = State::DoubleQuoted;
        Ok(())
    }

    fn finish(mut self) -> Result<Option<Vec<String>>, AllocError>
        ensures { IfOk result (λ found.
            option_map (λ v. map string_bytes v.items) found ≡ spec.finished self) }
    {
        match self.state {
            State::Between | State::Comment => {}
            State::Word => self.end_word()?,
            _ => return Ok(None),
        }
        let Splitter { words, .. } = self;
        Ok(Some(words))
    }
}
