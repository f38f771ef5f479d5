//! Reads the tokens of a text byte by byte.

ghost use Rattle.std.specs.Prelude.{◌≡◌, OnOk};
ghost use Rattle.token_texts.specs.Lexing as spec;

use crate::class::{Class, class_of};
use crate::token::{is_encoding, is_raw_prefix, push_token};
use std::alloc::{AllocError, Global};
use std::marker::Model;

/// How many bytes a raw string's delimiter may have, with the `)` in front of it.
const LONGEST_DELIMITER: usize = 17;

/// Where a lexer is in a text.
#[derive(Clone, Copy)]
pub(crate) enum State {
    /// At a line's first byte, where a `#` begins a directive.
    LineStart,
    /// Between two tokens of a line.
    Between,
    /// In an identifier.
    Word,
    /// In a number.
    Number,
    /// In a number, after an `e` or a `p`: a sign goes on with it.
    Exponent,
    /// In a number, after a `'`.
    Separator,
    /// In operators without a blank between them.
    Operator,
    /// The same, after a `.`: a digit goes on with it.
    Dot,
    /// After a `/`, which isn't in the token yet: it may begin a comment.
    Slash,
    /// In a string.
    Text,
    /// In a string, after a backslash.
    TextEscape,
    /// In a character literal.
    Character,
    /// In a character literal, after a backslash.
    CharacterEscape,
    /// Right after a literal.
    Closed,
    /// In what a literal ends with, as in `1.5_km` or `"a"s`.
    Suffix,
    /// In a raw string, before its `(`.
    RawDelimiter,
    /// In a raw string, after its `(`.
    Raw,
    /// In a comment that ends with the line.
    LineComment,
    /// In a comment that ends with `*/`.
    Comment,
    /// In such a comment, after a `*`.
    CommentStar,
    /// After a line's `#`.
    Hash,
    /// In a directive that isn't a line marker.
    Directive,
    /// In a line marker, after `# `.
    Marker,
    /// In a line marker's number.
    MarkerNumber,
    /// In a line marker, after the number and a space.
    MarkerGap,
    /// In a line marker's file name.
    MarkerName,
    /// In a line marker's file name, after a backslash.
    MarkerEscape,
    /// In a line marker, after the name. No flag says yet that a file is entered or left.
    Flags,
    /// In the flags of a line marker that enters a file.
    Enters,
    /// In the flags of a line marker that returns to a file.
    Returns,
    /// The text has no reading.
    Refused,
}

// The state after a byte that is in no token: in a comment, or in a line marker in front of its file.
fn state_after(state: State, class: Class, byte: u8) -> State
    ensures { result ≡ spec.state_after state class byte }
{
    match (state, class) {
        (State::LineComment, _) => match byte {
            b'\\' => State::Refused,
            b'\n' => State::LineStart,
            _ => State::LineComment,
        },
        (State::Comment, _) => comment_after(byte),
        (State::CommentStar, _) if byte == b'/' => State::Between,
        (State::CommentStar, _) => comment_after(byte),
        (State::Marker | State::MarkerNumber, Class::Digit) => State::MarkerNumber,
        (State::MarkerNumber, Class::LineEnd) => State::LineStart,
        (State::MarkerNumber, Class::Blank) if byte == b' ' => State::MarkerGap,
        _ => State::Refused,
    }
}

fn comment_after(byte: u8) -> State
    ensures { result ≡ spec.in_comment byte }
{
    match byte {
        b'\\' => State::Refused,
        b'*' => State::CommentStar,
        _ => State::Comment,
    }
}

// Whether a byte may begin a comment or a raw string behind the first bytes of a directive, or join two lines.
fn is_doubtful(token: &[u8], byte: u8) -> bool
    ensures { result ≡ spec.is_doubtful token.now byte }
{
    match byte {
        b'\\' => true,
        b'/' | b'*' => token.ends_with(b"/"),
        b'"' => token.ends_with(b"R"),
        _ => false,
    }
}

/// A text's normal form so far, and what is known of the token that isn't written yet.
#[derive(Drop)]
pub(crate) struct Lexer {
    state: State,
    // The bytes of the current token, literal, directive or line marker.
    token: Vec<u8>,
    // `)` and the delimiter of the raw string that it is in.
    delimiter: Vec<u8>,
    // The file of the last line marker, and its flags 3 and 4.
    place: Vec<u8>,
    out: Vec<u8>,
}

impl Model for Lexer {
    ghost use Rattle.token_texts.specs.Normal.{Written};

    ghost Value = { Written };

    ghost view = { λ l. record {
      at = record { state = l.state; token = l.token.items; delimiter = l.delimiter.items; place = l.place.items };
      out = l.out.items;
    } };
}

impl Lexer {
    ghost use Rattle.std.specs.Prelude.{option_map, IfOk};
    ghost use Rattle.token_texts.specs.Lexing as spec;
    ghost use Rattle.token_texts.specs.Normal.{start, applied, after, finished, encoded_token};

    pub(crate) fn new(alloc: Global) -> Self
        ensures { result ≡ start }
    {
        Lexer {
            state: State::LineStart,
            token: Vec::new(alloc),
            delimiter: Vec::new(alloc),
            place: Vec::new(alloc),
            out: Vec::new(alloc),
        }
    }

    pub(crate) fn read(&mut self, byte: u8) -> Result<(), AllocError>
        ensures { OnOk result (self.new ≡ after self.old byte) }
    {
        let class = class_of(byte);
        match self.state {
            State::LineStart => self.read_line_start(class, byte),
            State::Between => self.begin(class, byte),
            State::Word => self.read_word(class, byte),
            State::Number => self.read_number(class, byte),
            State::Exponent => self.read_exponent(class, byte),
            State::Separator => self.read_separator(class, byte),
            State::Operator => self.read_operator(class, byte),
            State::Dot => self.read_dot(class, byte),
            State::Slash => self.read_slash(class, byte),
            State::Text => self.read_quoted(b'"', State::TextEscape, State::Closed, byte),
            State::TextEscape => self.read_escaped(State::Text, byte),
            State::Character => self.read_quoted(
                b'\'',
                State::CharacterEscape,
                State::Closed,
                byte,
            ),
            State::CharacterEscape => self.read_escaped(State::Character, byte),
            State::Closed => self.read_closed(class, byte),
            State::Suffix => self.read_suffix(class, byte),
            State::RawDelimiter => self.read_raw_delimiter(class, byte),
            State::Raw => self.read_raw(byte),
            State::Hash => self.read_hash(class, byte),
            State::Directive => self.read_directive(byte),
            State::MarkerGap => self.read_marker_gap(byte),
            State::MarkerName => self.read_quoted(b'"', State::MarkerEscape, State::Flags, byte),
            State::MarkerEscape => self.read_escaped(State::MarkerName, byte),
            State::Flags => self.read_flags(byte),
            State::Enters => self.read_move(b'1', byte),
            State::Returns => self.read_move(b'2', byte),
            state => {
                self.state = state_after(state, class, byte);
                Ok(())
            }
        }
    }

    // Begins a token, or doesn't.
    fn begin(&mut self, class: Class, byte: u8) -> Result<(), AllocError>
        ensures { OnOk result (self.new ≡ applied (spec.begins class byte self.old.at) self.old) }
    {
        match class {
            Class::Blank => self.state = State::Between,
            Class::LineEnd => self.state = State::LineStart,
            Class::Slash => self.state = State::Slash,
            Class::Other => self.state = State::Refused,
            Class::Lone => {
                push_token(&mut self.out, &[byte])?;
                self.state = State::Between;
            }
            Class::Word => return self.grow(State::Word, byte),
            Class::Digit => return self.grow(State::Number, byte),
            Class::Operator => return self.grow(State::Operator, byte),
            Class::Dot => return self.grow(State::Dot, byte),
            Class::DoubleQuote => return self.grow(State::Text, byte),
            Class::SingleQuote => return self.grow(State::Character, byte),
        }
        Ok(())
    }

    fn grow(&mut self, state: State, byte: u8) -> Result<(), AllocError>
        ensures { OnOk result (self.new ≡ applied (spec.grow state byte self.old.at) self.old) }
    {
        self.token.push(byte)?;
        self.state = state;
        Ok(())
    }

    // Writes the token.
    fn end(&mut self, state: State) -> Result<(), AllocError>
        ensures { OnOk result (self.new ≡ applied (spec.ends state self.old.at) self.old) }
    {
        push_token(&mut self.out, self.token.as_slice())?;
        self.token.clear();
        self.state = state;
        Ok(())
    }

    // Writes the token, and begins another.
    fn end_and_begin(&mut self, class: Class, byte: u8) -> Result<(), AllocError>
        ensures { OnOk result (self.new ≡ applied (spec.ends_and_begins class byte self.old.at) self.old) }
    {
        self.end(State::Between)?;
        self.begin(class, byte)
    }

    fn read_line_start(&mut self, class: Class, byte: u8) -> Result<(), AllocError>
        ensures { OnOk result (self.new ≡ applied (spec.at_line_start class byte self.old.at) self.old) }
    {
        if byte == b'#' {
            self.state = State::Hash;
            return Ok(());
        }
        self.begin(class, byte)
    }

    fn read_word(&mut self, class: Class, byte: u8) -> Result<(), AllocError>
        ensures { OnOk result (self.new ≡ applied (spec.in_word class byte self.old.at) self.old) }
    {
        match class {
            Class::Word | Class::Digit => self.grow(State::Word, byte),
            Class::DoubleQuote if is_encoding(self.token.as_slice()) => self.grow(
                State::Text,
                byte,
            ),
            Class::DoubleQuote if is_raw_prefix(self.token.as_slice()) => {
                self.delimiter.clear();
                self.delimiter.push(b')')?;
                self.grow(State::RawDelimiter, byte)
            }
            Class::SingleQuote if is_encoding(self.token.as_slice()) => {
                self.grow(State::Character, byte)
            }
            _ => self.end_and_begin(class, byte),
        }
    }

    fn read_number(&mut self, class: Class, byte: u8) -> Result<(), AllocError>
        ensures { OnOk result (self.new ≡ applied (spec.in_number class byte self.old.at) self.old) }
    {
        match (class, byte) {
            (Class::Word, b'e' | b'E' | b'p' | b'P') => self.grow(State::Exponent, byte),
            (Class::Word | Class::Digit | Class::Dot, _) => self.grow(State::Number, byte),
            (Class::SingleQuote, _) => self.grow(State::Separator, byte),
            _ => self.end_and_begin(class, byte),
        }
    }

    fn read_exponent(&mut self, class: Class, byte: u8) -> Result<(), AllocError>
        ensures { OnOk result (self.new ≡ applied (spec.in_exponent class byte self.old.at) self.old) }
    {
        match byte {
            b'+' | b'-' => self.grow(State::Number, byte),
            _ => self.read_number(class, byte),
        }
    }

    fn read_separator(&mut self, class: Class, byte: u8) -> Result<(), AllocError>
        ensures { OnOk result (self.new ≡ applied (spec.behind_separator class byte self.old.at) self.old) }
    {
        match class {
            Class::Word | Class::Digit => self.read_number(class, byte),
            _ => {
                self.state = State::Refused;
                Ok(())
            }
        }
    }

    fn read_operator(&mut self, class: Class, byte: u8) -> Result<(), AllocError>
        ensures { OnOk result (self.new ≡ applied (spec.in_operator class byte self.old.at) self.old) }
    {
        match class {
            // `%:` is another way to write `#`
            Class::Operator if byte == b':' && self.token.ends_with(b"%") => {
                self.state = State::Refused;
                Ok(())
            }
            Class::Operator => self.grow(State::Operator, byte),
            Class::Dot => self.grow(State::Dot, byte),
            Class::Slash => {
                self.state = State::Slash;
                Ok(())
            }
            _ => self.end_and_begin(class, byte),
        }
    }

    fn read_dot(&mut self, class: Class, byte: u8) -> Result<(), AllocError>
        ensures { OnOk result (self.new ≡ applied (spec.behind_dot class byte self.old.at) self.old) }
    {
        match class {
            Class::Digit => self.grow(State::Number, byte),
            _ => self.read_operator(class, byte),
        }
    }

    fn read_slash(&mut self, class: Class, byte: u8) -> Result<(), AllocError>
        ensures { OnOk result (self.new ≡ applied (spec.behind_slash class byte self.old.at) self.old) }
    {
        match byte {
            b'/' => self.begin_comment(State::LineComment),
            b'*' => self.begin_comment(State::Comment),
            _ => {
                self.token.push(b'/')?;
                self.read_operator(class, byte)
            }
        }
    }

    // Writes the operators in front of a comment, if there are any.
    fn begin_comment(&mut self, state: State) -> Result<(), AllocError>
        ensures { OnOk result (self.new ≡ applied (spec.begins_comment state self.old.at) self.old) }
    {
        if self.token.is_empty() {
            self.state = state;
            return Ok(());
        }
        self.end(state)
    }

    // Between quotes.
    fn read_quoted(
        &mut self,
        quote: u8,
        escape: State,
        closed: State,
        byte: u8,
    ) -> Result<(), AllocError>
        ensures { OnOk result (self.new ≡ applied (spec.quoted quote escape closed byte self.old.at) self.old) }
    {
        if byte == quote {
            return self.grow(closed, byte);
        }
        match byte {
            b'\\' => self.grow(escape, byte),
            b'\n' => {
                self.state = State::Refused;
                Ok(())
            }
            _ => self.grow(self.state, byte),
        }
    }

    fn read_escaped(&mut self, inside: State, byte: u8) -> Result<(), AllocError>
        ensures { OnOk result (self.new ≡ applied (spec.escaped inside byte self.old.at) self.old) }
    {
        if byte == b'\n' {
            self.state = State::Refused;
            return Ok(());
        }
        self.grow(inside, byte)
    }

    fn read_closed(&mut self, class: Class, byte: u8) -> Result<(), AllocError>
        ensures { OnOk result (self.new ≡ applied (spec.behind_literal class byte self.old.at) self.old) }
    {
        match class {
            Class::Word => self.grow(State::Suffix, byte),
            Class::Digit => {
                self.state = State::Refused;
                Ok(())
            }
            _ => self.end_and_begin(class, byte),
        }
    }

    fn read_suffix(&mut self, class: Class, byte: u8) -> Result<(), AllocError>
        ensures { OnOk result (self.new ≡ applied (spec.in_suffix class byte self.old.at) self.old) }
    {
        match class {
            Class::Word | Class::Digit => self.grow(State::Suffix, byte),
            Class::DoubleQuote | Class::SingleQuote => {
                self.state = State::Refused;
                Ok(())
            }
            _ => self.end_and_begin(class, byte),
        }
    }

    fn read_raw_delimiter(&mut self, class: Class, byte: u8) -> Result<(), AllocError>
        ensures { OnOk result (self.new ≡ applied (spec.in_raw_delimiter class byte self.old.at) self.old) }
    {
        match (class, byte) {
            (Class::Word | Class::Digit, _) => {
                self.delimiter.push(byte)?;
                self.grow(State::RawDelimiter, byte)
            }
            (_, b'(') if self.delimiter.len() <= LONGEST_DELIMITER => self.grow(State::Raw, byte),
            _ => {
                self.state = State::Refused;
                Ok(())
            }
        }
    }

    fn read_raw(&mut self, byte: u8) -> Result<(), AllocError>
        ensures { OnOk result (self.new ≡ applied (spec.in_raw byte self.old.at) self.old) }
    {
        if byte == b'"' && self.token.ends_with(self.delimiter.as_slice()) {
            self.delimiter.clear();
            self.grow(State::Closed, byte)
        } else {
            self.grow(State::Raw, byte)
        }
    }

    fn read_hash(&mut self, class: Class, byte: u8) -> Result<(), AllocError>
        ensures { OnOk result (self.new ≡ applied (spec.behind_hash class byte self.old.at) self.old) }
    {
        match (class, byte) {
            (Class::Word, _) => {
                self.token.push(b'#')?;
                return self.grow(State::Directive, byte);
            }
            (_, b' ') => self.state = State::Marker,
            _ => self.state = State::Refused,
        }
        Ok(())
    }

    fn read_directive(&mut self, byte: u8) -> Result<(), AllocError>
        ensures { OnOk result (self.new ≡ applied (spec.in_directive byte self.old.at) self.old) }
    {
        match byte {
            b'\n' if self.token.starts_with(b"#line") => {
                self.state = State::Refused;
                Ok(())
            }
            b'\n' => {
                self.token.push(byte)?;
                self.end(State::LineStart)
            }
            _ if is_doubtful(self.token.as_slice(), byte) => {
                self.state = State::Refused;
                Ok(())
            }
            _ => self.grow(State::Directive, byte),
        }
    }

    fn read_marker_gap(&mut self, byte: u8) -> Result<(), AllocError>
        ensures { OnOk result (self.new ≡ applied (spec.in_marker_gap byte self.old.at) self.old) }
    {
        if byte == b'"' {
            return self.grow(State::MarkerName, byte);
        }
        self.state = State::Refused;
        Ok(())
    }

    fn read_flags(&mut self, byte: u8) -> Result<(), AllocError>
        ensures { OnOk result (self.new ≡ applied (spec.in_flags byte self.old.at) self.old) }
    {
        match byte {
            b'\n' => return self.end_marker(byte),
            b'3' | b'4' => return self.grow(State::Flags, byte),
            b' ' => self.state = State::Flags,
            b'1' => self.state = State::Enters,
            b'2' => self.state = State::Returns,
            _ => self.state = State::Refused,
        }
        Ok(())
    }

    // The flags behind `flag`, which says how a line marker moves to its file.
    fn read_move(&mut self, flag: u8, byte: u8) -> Result<(), AllocError>
        ensures { OnOk result (self.new ≡ applied (spec.in_move flag byte self.old.at) self.old) }
    {
        match byte {
            b'\n' => {
                self.keep_place()?;
                self.token.push(flag)?;
                self.token.push(byte)?;
                return self.end(State::LineStart);
            }
            b'3' | b'4' => return self.grow(self.state, byte),
            b' ' => {}
            _ => self.state = State::Refused,
        }
        Ok(())
    }

    // A line marker that stays in its file is no token.
    fn end_marker(&mut self, byte: u8) -> Result<(), AllocError>
        ensures { OnOk result (self.new ≡ applied (spec.ends_marker byte self.old.at) self.old) }
    {
        if self.token.as_slice() == self.place.as_slice() {
            self.token.clear();
            self.state = State::LineStart;
            return Ok(());
        }
        self.keep_place()?;
        self.token.push(byte)?;
        self.end(State::LineStart)
    }

    fn keep_place(&mut self) -> Result<(), AllocError>
        ensures { OnOk result (self.new ≡ applied (spec.keeps_place self.old.at) self.old) }
    {
        self.place.clear();
        self.place.extend_from_slice(self.token.as_slice())
    }

    pub(crate) fn finish(mut self) -> Result<Option<Vec<u8>>, AllocError>
        ensures { IfOk result (λ found. option_map (λ v. v.items) found ≡ finished self) }
    {
        match self.state {
            State::LineStart | State::Between | State::LineComment => {}
            State::Slash => {
                self.token.push(b'/')?;
                self.end(State::Between)?;
            }
            State::Word
            | State::Number
            | State::Exponent
            | State::Operator
            | State::Dot
            | State::Closed
            | State::Suffix => self.end(State::Between)?,
            _ => return Ok(None),
        }
        let Lexer { out, .. } = self;
        Ok(Some(out))
    }
}
