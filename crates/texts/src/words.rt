//! The words of a command line.

ghost use Rattle.std.specs.Prelude.{◌≡◌, ◌∷◌, [], ◌++◌, List, ℕ, map, length, IfOk, OnOk, ◌==◌, OnErr, string_bytes, option_copied};
ghost use Rattle.std.specs.Slice.Iter.{iter_rest};
ghost use Rattle.texts.specs.Equality.{words_eq, words_law};
ghost use Rattle.texts.specs.Lists as lists;

use std::alloc::{AllocError, Global};
use std::marker::Model;
use std::slice;

/// A list of words that a record holds, in order, seen in contracts as the list of their texts.
///
/// `from_vec` and `into_vec` don't allocate.
#[derive(Debug, Drop)]
pub struct Words {
    words: Vec<String>,
}

impl Model for Words {
    ghost Value = { List (List ℕ) };

    ghost view = { λ w. map string_bytes w.words.items };
}

impl Words {
    /// No words.
    pub fn new(alloc: Global) -> Words
        ensures { result ≡ [] }
    {
        Words {
            words: Vec::new(alloc),
        }
    }

    /// No words, with room for `count` of them.
    pub fn with_capacity(alloc: Global, count: usize) -> Result<Words, AllocError>
        ensures { IfOk result (λ w. w ≡ []) }
    {
        Ok(Words {
            words: Vec::with_capacity(alloc, count)?,
        })
    }

    /// Holds the words of `words`.
    pub fn from_vec(words: Vec<String>) -> Words
        ensures { result ≡ map string_bytes words.items }
    {
        Words { words }
    }

    /// The words as a slice.
    pub fn as_slice(&self) -> &[String]
        ensures { map string_bytes result.now ≡ self.now }
    {
        self.words.as_slice()
    }

    /// Gives the `Vec` back.
    pub fn into_vec(self) -> Vec<String>
        ensures { map string_bytes result.items ≡ self }
    {
        self.words
    }

    /// How many words there are.
    pub fn len(&self) -> usize
        ensures { result ≡ length self.now }
    {
        self.words.len()
    }

    /// Whether there are no words.
    pub fn is_empty(&self) -> bool
        ensures { result ≡ (length self.now == 0) }
    {
        self.words.is_empty()
    }

    /// Each word, in order.
    pub fn iter(&self) -> slice::Iter<'_, String>
        ensures { map string_bytes (iter_rest result) ≡ self.now }
    {
        self.words.iter()
    }

    /// Appends `word`. On an error the words are unchanged.
    pub fn push(&mut self, word: String) -> Result<(), AllocError>
        ensures ok { OnOk result (self.new ≡ self.old ++ string_bytes word ∷ []) }
        ensures err { OnErr result (self.new ≡ self.old) }
    {
        self.words.push(word)?;
        Ok(())
    }

    /// Appends two words. On an error the words are unchanged.
    pub fn push_two(&mut self, first: String, second: String) -> Result<(), AllocError>
        ensures ok { OnOk result (self.new ≡ self.old ++ string_bytes first ∷ string_bytes second ∷ []) }
        ensures err { OnErr result (self.new ≡ self.old) }
    {
        self.words.reserve(2)?;
        self.words.push(first)?;
        self.words.push(second)?;
        Ok(())
    }

    /// Appends a copy of `word`. On an error the words are unchanged.
    pub fn push_str(&mut self, alloc: Global, word: &str) -> Result<(), AllocError>
        ensures ok { OnOk result (self.new ≡ self.old ++ word.now ∷ []) }
        ensures err { OnErr result (self.new ≡ self.old) }
    {
        self.push(String::from_str(alloc, word)?)
    }

    /// Appends copies of two words, such as an option and its value. On an error the words are unchanged.
    pub fn push_pair(&mut self, alloc: Global, first: &str, second: &str) -> Result<(), AllocError>
        ensures ok { OnOk result (self.new ≡ self.old ++ first.now ∷ second.now ∷ []) }
        ensures err { OnErr result (self.new ≡ self.old) }
    {
        self.push_two(
            String::from_str(alloc, first)?,
            String::from_str(alloc, second)?,
        )
    }

    /// Appends a copy of each of `words`, in order: `extend` by another name.
    pub fn push_copies(&mut self, alloc: Global, words: &[String]) -> Result<(), AllocError>
        ensures ok { OnOk result (self.new ≡ self.old ++ map string_bytes words.now) }
        ensures err { OnErr result (self.new ≡ self.old) }
    {
        self.extend(alloc, words)
    }

    /// Appends the words of `more`, in order. On an error the words are unchanged.
    pub fn append(&mut self, more: Words) -> Result<(), AllocError>
        ensures ok { OnOk result (self.new ≡ self.old ++ more) }
        ensures err { OnErr result (self.new ≡ self.old) }
    {
        let mut words = more.into_vec();
        self.words.append(&mut words)
    }

    /// Appends a copy of each of `words`, in order. The copies use the list's own allocator. On an error the words
    /// are unchanged.
    pub fn extend(&mut self, _alloc: Global, words: &[String]) -> Result<(), AllocError>
        ensures ok { OnOk result (self.new ≡ self.old ++ map string_bytes words.now) }
        ensures err { OnErr result (self.new ≡ self.old) }
    {
        self.words.extend_from_slice(words)?;
        Ok(())
    }

    /// A list equal to `words`, in memory of its own.
    pub fn copy_of(alloc: Global, words: &[String]) -> Result<Words, AllocError>
        ensures { IfOk result (λ w. w ≡ map string_bytes words.now) }
    {
        let mut copy = Words::new(alloc);
        copy.extend(alloc, words)?;
        Ok(copy)
    }

    /// An equal list, in memory of its own.
    pub fn try_clone(&self, alloc: Global) -> Result<Words, AllocError>
        ensures { IfOk result (λ w. w ≡ self.now) }
    {
        Words::copy_of(alloc, self.as_slice())
    }
}

/// The word right after the first that equals `option`, as a file name after `-o`. `None` if no word equals it, or if
/// only the last one does.
pub fn word_after<'a>(words: &'a [String], option: &str) -> Option<&'a str>
    ensures { option_copied result ≡ lists.word_after option.now (map string_bytes words.now) }
{
    let mut follows = false;
    for word in words {
        if follows {
            return Some(word.as_str());
        }
        follows = option == word.as_str();
    }
    None
}

impl<'a> IntoIterator for &'a Words {
    type Item = &'a String;

    type IntoIter = slice::Iter<'a, String>;

    ghost into_iter_gives = { λ words it. map string_bytes (iter_rest it) ≡ words.now };

    fn into_iter(self) -> Self::IntoIter {
        self.iter()
    }
}

impl PartialEq for Words {
    ghost eq = { words_eq };

    ghost laws = { words_law };

    fn eq(&self, other: &Words) -> bool {
        self.as_slice() == other.as_slice()
    }
}
