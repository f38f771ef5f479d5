//! Whether words may become the number of a line, by macros.

ghost use Rattle.std.specs.Prelude.{◌≡◌, ◌≤◌, ◌+◌, IfOk, OnOk, drop, length, map, take};
ghost use Rattle.std.specs.List.{list_all};
ghost use Rattle.source_layouts.specs.LineNumbers as spec;
ghost use Rattle.source_layouts.specs.WordSets as sets;

use std::alloc::{AllocError, Global};
use std::collections::HashMap;

/// A macro.
#[derive(Clone, Copy, Debug)]
pub struct Macro<'a> {
    /// Its name.
    pub name: &'a [u8],
    /// The words of all that it may become, by any of its definitions.
    pub words: &'a [&'a [u8]],
}

// A set of words.
#[derive(Drop)]
struct Words<'a> {
    words: HashMap<&'a [u8], bool>,
}

impl<'a> Words<'a> {
    fn new(alloc: Global, words: &[&'a [u8]]) -> Result<Words<'a>, AllocError>
        ensures { IfOk result (λ set. sets.has set ≡ spec.among (map spec.shown words.now)) }
    {
        let mut set = Words {
            words: HashMap::with_capacity(alloc, words.len())?,
        };
        for word in words {
            set.add(word)?;
        }
        Ok(set)
    }

    fn add(&mut self, word: &'a [u8]) -> Result<(), AllocError>
        ensures { OnOk result (sets.has self.new ≡ spec.with_word (sets.has self.old) word.entry.now) }
    {
        self.words.insert(word, true)?;
        Ok(())
    }

    fn has(&self, word: &[u8]) -> bool
        ensures { result ≡ sets.has self.now word.now }
    {
        self.words.contains_key(word)
    }

    fn has_all(&self, words: &[&[u8]]) -> bool
        ensures { result ≡ spec.has_all (sets.has self.now) (map spec.shown words.now) }
    {
        for word in words {
            if !self.has(word) {
                return false;
            }
        }
        true
    }

    // Whether the word is there that a text has from a place on.
    fn has_part(&self, text: &[u8], start: usize, size: usize) -> bool
        requires { start + size ≤ length text.now }
        ensures { result ≡ sets.has self.now (take size (drop start text.now)) }
    {
        match text.get(start..start + size) {
            None => false,
            Some(part) => self.has(part),
        }
    }

    // Whether a word that ends at a place begins at one up to which a text is joined.
    fn ends_at(&self, text: &[u8], end: usize, joined: &[bool]) -> bool
        requires within { end ≤ length text.now }
        requires before { length joined.now ≤ end }
        ensures { result ≡ spec.ends_at (sets.has self.now) text.now end 0 joined.now }
    {
        for (start, is_joined) in joined.iter().enumerate() {
            if *is_joined && self.has_part(text, start, end - start) {
                return true;
            }
        }
        false
    }

    // Whether a text is words of the set, one behind the other.
    fn is_joined(&self, alloc: Global, text: &[u8]) -> Result<bool, AllocError>
        ensures { IfOk result (λ answer. answer ≡ spec.is_joined (sets.has self.now) text.now) }
    {
        let mut joined = Vec::with_capacity(alloc, text.len())?;
        let mut last = true;
        for place in 0..text.len() {
            joined.push(last)?;
            last = self.ends_at(text, place + 1, joined.as_slice());
        }
        Ok(last)
    }

    fn goes_on(&self, macros: &[Macro<'_>]) -> bool
        ensures { result ≡ list_all (spec.goes_on (sets.has self.now)) (map spec.defined macros.now) }
    {
        for it in macros {
            if self.has(it.name) && !self.has_all(it.words) {
                return false;
            }
        }
        true
    }

    fn has_joined(&self, alloc: Global, macros: &[Macro<'_>]) -> Result<bool, AllocError>
        ensures { IfOk result (λ answer. answer ≡ list_all (λ m. spec.has_joined (sets.has self.now) m.name) (map spec.defined macros.now)) }
    {
        for it in macros {
            if !self.has(it.name) && self.is_joined(alloc, it.name)? {
                return Ok(false);
            }
        }
        Ok(true)
    }

    fn lacks_lines(&self, alloc: Global) -> Result<bool, AllocError>
        ensures { IfOk result (λ answer. answer ≡ spec.lacks_lines (sets.has self.now)) }
    {
        Ok(!self.has(line()) && !self.is_joined(alloc, line())?)
    }
}

// The macro that is the number of a line.
fn line() -> &'static [u8]
    ensures { result.now ≡ spec.line }
{
    b"__LINE__"
}

// Whether a set has what gcc's own macros put behind a word.
fn has_suffixes(set: &Words<'_>) -> bool
    ensures { result ≡ spec.has_all (sets.has set.now) spec.suffixes }
{
    set.has(b"L") && set.has(b"LL") && set.has(b"U") && set.has(b"UL") && set.has(b"ULL")
}

// Whether a set is closed, and lacks the number of a line.
fn shuts_out(
    alloc: Global,
    set: &Words<'_>,
    macros: &[Macro<'_>],
    words: &[&[u8]],
) -> Result<bool, AllocError>
    ensures { IfOk result (λ answer. answer
        ≡ spec.shuts_out (map spec.defined macros.now) (map spec.shown words.now) (sets.has set.now)) }
{
    let has_words = set.lacks_lines(alloc)? && set.has_all(words) && has_suffixes(set);
    Ok(has_words && set.goes_on(macros) && set.has_joined(alloc, macros)?)
}

/// Whether it is sure that no word of a text becomes the number of its line, by these macros: `reached` has all that the words may
/// become, and lacks `__LINE__`.
///
/// It has to have the words, `L`, `LL`, `U`, `UL` and `ULL`, which gcc's own macros put behind a word, with a macro's name all words of
/// the macro, and each macro's name that is words of `reached` put together. `laws::line_numbers` says why that's enough. The only error
/// is an allocation failure.
pub fn shuts_lines_out(
    alloc: Global,
    macros: &[Macro<'_>],
    words: &[&[u8]],
    reached: &[&[u8]],
) -> Result<bool, AllocError>
    ensures { IfOk result (λ answer. answer
        ≡ spec.shuts_out (map spec.defined macros.now) (map spec.shown words.now) (spec.among (map spec.shown reached.now))) }
{
    let set = Words::new(alloc, reached)?;
    shuts_out(alloc, &set, macros, words)
}
