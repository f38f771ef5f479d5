//! Reads the layout of a text byte by byte.

ghost use Rattle.std.specs.Prelude.{◌≡◌, OnOk};
ghost use Rattle.source_layouts.specs.Reading as spec;

use crate::bytes::{
    begins_word, is_blank, is_exponent, is_odd, is_raw_prefix, is_word, may_be_letter,
};
use crate::state::State;
use std::alloc::{AllocError, Global};
use std::marker::Model;

/// How many brackets may be open at once, if lines don't count.
const MOST_BRACKETS: usize = 65535;

/// A text's layout so far, and what is known of the token, comment or directive that has begun.
#[derive(Drop)]
pub(crate) struct Reader {
    state: State,
    // The bytes of the word or comment that has begun, if one has.
    token: Vec<u8>,
    // The line ends of that comment, as the layout writes them.
    ends: Vec<u8>,
    // The byte before in a directive, without joined lines.
    last: u8,
    // How many brackets are open.
    depth: usize,
    // Whether the line has no token yet.
    is_empty: bool,
    // Whether blanks or comments are behind the line's last token.
    has_blank: bool,
    // Whether that comment has bytes that aren't ASCII.
    is_wide: bool,
    // Whether the directive has a comment that goes on behind its line.
    is_open: bool,
    // Whether lines count.
    is_lined: bool,
    out: Vec<u8>,
}

impl Model for Reader {
    ghost use Rattle.source_layouts.specs.Reading.{Reading};

    ghost Value = { Reading };

    ghost view = { λ r. record {
      state = r.state;
      token = r.token.items;
      ends = r.ends.items;
      last = r.last;
      depth = r.depth;
      is_empty = r.is_empty;
      has_blank = r.has_blank;
      is_wide = r.is_wide;
      is_open = r.is_open;
      is_lined = r.is_lined;
      out = r.out.items;
    } };
}

fn may_set_lines(byte: u8) -> bool
    ensures { result ≡ spec.may_set_lines byte }
{
    byte == b'l' || byte == b'/' || byte == b'\\' || byte.is_ascii_digit()
}

fn may_end(state: State) -> bool
    ensures { result ≡ spec.may_end state }
{
    match state {
        State::Text
        | State::TextEscape
        | State::Character
        | State::CharacterEscape
        | State::Comment
        | State::CommentStar
        | State::CommentSlash
        | State::DirectiveEscape
        | State::Refused => false,
        _ => true,
    }
}

impl Reader {
    ghost use Rattle.std.specs.Prelude.{option_map, IfOk};
    ghost use Rattle.source_layouts.specs.Reading as spec;

    pub(crate) fn new(alloc: Global, is_lined: bool) -> Self
        ensures { result ≡ spec.beginning is_lined }
    {
        Reader {
            state: State::Between,
            token: Vec::new(alloc),
            ends: Vec::new(alloc),
            last: 0,
            depth: 0,
            is_empty: true,
            has_blank: false,
            is_wide: false,
            is_open: false,
            is_lined,
            out: Vec::new(alloc),
        }
    }

    pub(crate) fn read(&mut self, byte: u8) -> Result<(), AllocError>
        ensures { OnOk result (self.new ≡ spec.step byte self.old) }
    {
        match self.state {
            State::Between => self.begin(byte),
            State::Word => self.read_word(byte),
            State::OtherWord => self.read_other_word(byte),
            State::Number => self.read_number(byte),
            State::Exponent => self.read_exponent(byte),
            State::Dot => self.read_dot(byte),
            State::Slash => self.read_slash(byte),
            State::Percent => self.read_percent(byte),
            State::Text => self.read_quoted(b'"', State::TextEscape, byte),
            State::TextEscape => self.read_escaped(State::Text, byte),
            State::Character => self.read_quoted(b'\'', State::CharacterEscape, byte),
            State::CharacterEscape => self.read_escaped(State::Character, byte),
            State::LineComment => self.read_line_comment(byte),
            State::Comment => self.read_comment(byte),
            State::CommentStar => self.read_star(byte),
            State::CommentSlash => self.read_comment_slash(byte),
            State::Hash => self.read_hash(byte),
            State::Directive => self.read_directive(byte),
            State::DirectiveEscape => self.read_backslash(byte),
            State::Refused => Ok(()),
        }
    }

    fn refuse(&mut self) -> Result<(), AllocError>
        ensures { OnOk result (self.new ≡ spec.goes State.Refused self.old) }
    {
        self.state = State::Refused;
        Ok(())
    }

    fn grow(&mut self, state: State, byte: u8) -> Result<(), AllocError>
        ensures { OnOk result (self.new ≡ spec.grow state byte self.old) }
    {
        self.out.push(byte)?;
        self.state = state;
        Ok(())
    }

    // Begins a token, after one blank for all blanks before it.
    fn start(&mut self, state: State, byte: u8) -> Result<(), AllocError>
        ensures { OnOk result (self.new ≡ spec.start state byte self.old) }
    {
        if self.has_blank && !self.is_empty {
            self.out.push(b' ')?;
        }
        self.out.push(byte)?;
        self.state = state;
        self.is_empty = false;
        self.has_blank = false;
        Ok(())
    }

    fn start_word(&mut self, byte: u8) -> Result<(), AllocError>
        ensures { OnOk result (self.new ≡ spec.start_word byte self.old) }
    {
        self.token.push(byte)?;
        self.start(State::Word, byte)
    }

    fn end_line(&mut self) -> Result<(), AllocError>
        ensures { OnOk result (self.new ≡ spec.end_line self.old) }
    {
        if self.is_lined || !self.is_empty {
            self.out.push(b'\n')?;
        }
        self.state = State::Between;
        self.is_empty = true;
        self.has_blank = false;
        Ok(())
    }

    fn open_bracket(&mut self, byte: u8) -> Result<(), AllocError>
        ensures { OnOk result (self.new ≡ spec.open_bracket byte self.old) }
    {
        if self.is_lined {
            return self.start(State::Between, byte);
        }
        if self.depth >= MOST_BRACKETS {
            return self.refuse();
        }
        self.depth += 1;
        self.start(State::Between, byte)
    }

    fn close_bracket(&mut self, byte: u8) -> Result<(), AllocError>
        ensures { OnOk result (self.new ≡ spec.close_bracket byte self.old) }
    {
        if self.is_lined {
            return self.start(State::Between, byte);
        }
        if self.depth == 0 {
            return self.refuse();
        }
        self.depth -= 1;
        self.start(State::Between, byte)
    }

    fn start_directive(&mut self, state: State, byte: u8) -> Result<(), AllocError>
        ensures { OnOk result (self.new ≡ spec.start_directive state byte self.old) }
    {
        if !self.is_lined && self.depth != 0 {
            return self.refuse();
        }
        self.last = 0;
        self.is_open = false;
        self.start(state, byte)
    }

    // What a byte does that is in no token.
    fn begin(&mut self, byte: u8) -> Result<(), AllocError>
        ensures { OnOk result (self.new ≡ spec.begins byte self.old) }
    {
        if is_blank(byte) {
            self.state = State::Between;
            self.has_blank = true;
            return Ok(());
        }
        if begins_word(byte) {
            return self.start_word(byte);
        }
        if may_be_letter(byte) {
            return self.start(State::OtherWord, byte);
        }
        if byte.is_ascii_digit() {
            return self.start(State::Number, byte);
        }
        self.begin_beside_words(byte)
    }

    fn begin_beside_words(&mut self, byte: u8) -> Result<(), AllocError>
        ensures { OnOk result (self.new ≡ spec.begins_beside_words byte self.old) }
    {
        match byte {
            b'\n' => self.end_line(),
            b'/' => {
                self.state = State::Slash;
                Ok(())
            }
            b'.' => self.start(State::Dot, byte),
            b'"' => self.start(State::Text, byte),
            b'\'' => self.start(State::Character, byte),
            b'#' if self.is_empty => self.start_directive(State::Hash, byte),
            b'%' if self.is_empty => self.start(State::Percent, byte),
            b'(' => self.open_bracket(byte),
            b')' => self.close_bracket(byte),
            _ if is_odd(byte) => self.refuse(),
            _ => self.start(State::Between, byte),
        }
    }

    fn read_word(&mut self, byte: u8) -> Result<(), AllocError>
        ensures { OnOk result (self.new ≡ spec.in_word byte self.old) }
    {
        if is_word(byte) {
            self.token.push(byte)?;
            return self.grow(State::Word, byte);
        }
        if byte == b'"' && is_raw_prefix(self.token.as_slice()) {
            return self.refuse();
        }
        self.token.clear();
        if may_be_letter(byte) {
            return self.grow(State::OtherWord, byte);
        }
        self.begin(byte)
    }

    fn read_other_word(&mut self, byte: u8) -> Result<(), AllocError>
        ensures { OnOk result (self.new ≡ spec.in_other_word byte self.old) }
    {
        match byte {
            b'"' | b'\'' => self.refuse(),
            _ if is_word(byte) || may_be_letter(byte) => self.grow(State::OtherWord, byte),
            _ => self.begin(byte),
        }
    }

    fn read_number(&mut self, byte: u8) -> Result<(), AllocError>
        ensures { OnOk result (self.new ≡ spec.in_number byte self.old) }
    {
        if is_exponent(byte) {
            return self.grow(State::Exponent, byte);
        }
        if is_word(byte) || may_be_letter(byte) || byte == b'.' {
            return self.grow(State::Number, byte);
        }
        if byte == b'"' || byte == b'\'' {
            return self.refuse();
        }
        self.begin(byte)
    }

    fn read_exponent(&mut self, byte: u8) -> Result<(), AllocError>
        ensures { OnOk result (self.new ≡ spec.in_exponent byte self.old) }
    {
        if byte == b'+' || byte == b'-' {
            return self.grow(State::Number, byte);
        }
        self.read_number(byte)
    }

    fn read_dot(&mut self, byte: u8) -> Result<(), AllocError>
        ensures { OnOk result (self.new ≡ spec.behind_dot byte self.old) }
    {
        if byte.is_ascii_digit() {
            return self.grow(State::Number, byte);
        }
        self.begin(byte)
    }

    fn read_percent(&mut self, byte: u8) -> Result<(), AllocError>
        ensures { OnOk result (self.new ≡ spec.behind_percent byte self.old) }
    {
        if byte != b':' {
            return self.begin(byte);
        }
        if !self.is_lined && self.depth != 0 {
            return self.refuse();
        }
        self.last = 0;
        self.is_open = false;
        self.grow(State::Hash, byte)
    }

    fn read_slash(&mut self, byte: u8) -> Result<(), AllocError>
        ensures { OnOk result (self.new ≡ spec.behind_slash byte self.old) }
    {
        match byte {
            b'/' => self.begin_comment(State::LineComment, byte),
            b'*' => self.begin_comment(State::Comment, byte),
            _ => {
                self.start(State::Between, b'/')?;
                self.begin(byte)
            }
        }
    }

    fn begin_comment(&mut self, state: State, byte: u8) -> Result<(), AllocError>
        ensures { OnOk result (self.new ≡ spec.begin_comment state byte self.old) }
    {
        self.token.push(b'/')?;
        self.token.push(byte)?;
        self.state = state;
        Ok(())
    }

    fn end_comment(&mut self) -> Result<(), AllocError>
        ensures { OnOk result (self.new ≡ spec.end_comment self.old) }
    {
        if self.is_wide {
            self.out.push(12)?;
            self.out.extend_from_slice(self.token.as_slice())?;
            self.out.push(12)?;
        } else {
            self.out.extend_from_slice(self.ends.as_slice())?;
        }
        self.token.clear();
        self.ends.clear();
        self.is_wide = false;
        self.state = State::Between;
        self.has_blank = true;
        Ok(())
    }

    // A byte of a comment.
    fn comment_on(&mut self, state: State, byte: u8) -> Result<(), AllocError>
        ensures { OnOk result (self.new ≡ spec.comment_on state byte self.old) }
    {
        if is_odd(byte) {
            return self.refuse();
        }
        if self.is_lined && byte == b'\n' {
            self.ends.push(11)?;
        }
        if byte >= 128 {
            self.is_wide = true;
        }
        self.token.push(byte)?;
        self.state = state;
        Ok(())
    }

    fn read_line_comment(&mut self, byte: u8) -> Result<(), AllocError>
        ensures { OnOk result (self.new ≡ spec.in_line_comment byte self.old) }
    {
        if byte == b'\n' {
            self.end_comment()?;
            return self.end_line();
        }
        self.comment_on(State::LineComment, byte)
    }

    fn read_comment(&mut self, byte: u8) -> Result<(), AllocError>
        ensures { OnOk result (self.new ≡ spec.in_comment byte self.old) }
    {
        match byte {
            b'*' => self.comment_on(State::CommentStar, byte),
            b'/' => self.comment_on(State::CommentSlash, byte),
            _ => self.comment_on(State::Comment, byte),
        }
    }

    fn read_star(&mut self, byte: u8) -> Result<(), AllocError>
        ensures { OnOk result (self.new ≡ spec.behind_star byte self.old) }
    {
        if byte == b'/' {
            self.token.push(byte)?;
            return self.end_comment();
        }
        self.read_comment(byte)
    }

    fn read_comment_slash(&mut self, byte: u8) -> Result<(), AllocError>
        ensures { OnOk result (self.new ≡ spec.behind_comment_slash byte self.old) }
    {
        if byte == b'*' {
            return self.refuse();
        }
        self.read_comment(byte)
    }

    fn read_quoted(&mut self, quote: u8, escape: State, byte: u8) -> Result<(), AllocError>
        ensures { OnOk result (self.new ≡ spec.quoted quote escape byte self.old) }
    {
        if byte == quote {
            return self.grow(State::Between, byte);
        }
        match byte {
            b'\\' => self.grow(escape, byte),
            10 | 13 | 0 => self.refuse(),
            _ => self.grow(self.state, byte),
        }
    }

    fn read_escaped(&mut self, inside: State, byte: u8) -> Result<(), AllocError>
        ensures { OnOk result (self.new ≡ spec.escaped inside byte self.old) }
    {
        if byte == 10 || byte == 13 || is_blank(byte) {
            return self.refuse();
        }
        self.grow(inside, byte)
    }

    fn read_directive(&mut self, byte: u8) -> Result<(), AllocError>
        ensures { OnOk result (self.new ≡ spec.in_directive byte self.old) }
    {
        match byte {
            b'\n' if self.is_open => self.refuse(),
            b'\n' => self.end_line(),
            b'\\' => self.grow(State::DirectiveEscape, byte),
            b'"' if self.last == b'R' => self.refuse(),
            _ if is_odd(byte) => self.refuse(),
            _ => self.grow_directive(byte),
        }
    }

    // A byte of a directive, which may open or close a comment.
    fn grow_directive(&mut self, byte: u8) -> Result<(), AllocError>
        ensures { OnOk result (self.new ≡ spec.grow_directive byte self.old) }
    {
        self.out.push(byte)?;
        self.state = State::Directive;
        match (self.last, byte) {
            (b'/', b'*') => {
                self.is_open = true;
                self.last = 0;
            }
            (b'*', b'/') => {
                self.is_open = false;
                self.last = byte;
            }
            _ => self.last = byte,
        }
        Ok(())
    }

    fn read_hash(&mut self, byte: u8) -> Result<(), AllocError>
        ensures { OnOk result (self.new ≡ spec.behind_hash byte self.old) }
    {
        if is_blank(byte) {
            return self.grow(State::Hash, byte);
        }
        if !self.is_lined && may_set_lines(byte) {
            return self.refuse();
        }
        self.read_directive(byte)
    }

    fn read_backslash(&mut self, byte: u8) -> Result<(), AllocError>
        ensures { OnOk result (self.new ≡ spec.behind_backslash byte self.old) }
    {
        if byte == b'\n' {
            return self.grow(State::Directive, byte);
        }
        if is_blank(byte) {
            return self.grow(State::DirectiveEscape, byte);
        }
        self.last = b'\\';
        self.read_directive(byte)
    }

    pub(crate) fn finish(mut self) -> Result<Option<Vec<u8>>, AllocError>
        ensures { IfOk result (λ found. option_map (λ v. v.items) found ≡ spec.ending self) }
    {
        if !may_end(self.state) || self.is_open || !(self.is_lined || self.depth == 0) {
            return Ok(None);
        }
        // The end of the text also ends a comment or a `/`.
        match self.state {
            State::Slash => self.start(State::Between, b'/')?,
            State::LineComment => self.end_comment()?,
            _ => {}
        }
        if !self.is_empty {
            self.out.push(b'\n')?;
        }
        let Reader { out, .. } = self;
        Ok(Some(out))
    }
}
