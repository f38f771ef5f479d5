//! The suffixes of the files that nvcc generates.

ghost use Rattle.std.specs.Prelude.{◌≡◌, ◌∷◌, [], Ok, Err, map, length, drop, nat_eq, nat_le, IfOk, MatchOption, OnOk, string_bytes, if◌then◌else◌, None, ◌<◌, ◌==◌, ⊤, true, false, option_copied, option_map, bytes_eq};
ghost use Rattle.std.specs.List.{slice_get, list_any, list_all, starts_with, ends_with};
ghost use Rattle.std.specs.Char.{is_ascii_alphanumeric};
ghost use Rattle.texts.specs.Fault.{UnlessMemory};
ghost use Rattle.texts.specs.Lists.{is_some_and};
ghost use Rattle.texts.specs.declared.fault.Fault.TheVariants.{BadSuffixes};
ghost use Rattle.canonical_names.specs.Alike.{holds as text_holds};
ghost use Rattle.canonical_names.specs.SuffixRule as spec;
ghost use Rattle.canonical_names.specs.Generated as generated;
ghost use Rattle.canonical_names.specs.Generated.{standard_suffixes, class_of_name};
ghost use Rattle.canonical_names.specs.CanonicalNames.{AreSuffixes};

use crate::words::{begins_with_dash, core};
use std::alloc::{AllocError, Global};
use std::marker::Model;
use texts::device_files::CICC_INPUT_SUFFIX;
use texts::fault::Fault;
use texts::text::is_bare;
use texts::words::Words;

/// The suffixes that mark the names of generated files. Clauses see them as a list.
///
/// Each begins with `.`, ends in an ASCII letter or digit and contains no `/`. None is an end of another one.
/// `.cpp1.ii`, the suffix of cicc's input, is among them.
#[derive(Debug, Drop)]
pub struct Suffixes {
    handed: Option<Words>,
}

impl Model for Suffixes {
    ghost use Rattle.std.specs.Prelude.{◌≡◌, List, ℕ, true};
    ghost use Rattle.canonical_names.specs.SuffixRule.{suffixes_or_standard, are_suffixes};

    ghost Value = { List (List ℕ) };

    ghost view = { λ s. suffixes_or_standard s.handed };

    ghost invariant = { λ s. are_suffixes (suffixes_or_standard s.handed) ≡ true };
}

/// Whether a text begins with `.`, ends in an ASCII letter or digit, and contains no `/`.
pub fn is_suffix(text: &str) -> bool
    ensures { result ≡ spec.is_suffix text.now }
{
    begins_with_dot(text.as_bytes()) && ends_in_letter_or_digit(text.as_bytes()) && is_bare(text)
}

fn begins_with_dot(text: &[u8]) -> bool
    ensures { result ≡ is_some_and (λ c. c == 46) (slice_get text.now 0) }
{
    match text.first() {
        None => false,
        Some(byte) => *byte == b'.',
    }
}

fn ends_in_letter_or_digit(text: &[u8]) -> bool
    ensures { result ≡ is_some_and is_ascii_alphanumeric (spec.last_byte text.now) }
{
    match text.last() {
        None => false,
        Some(byte) => byte.is_ascii_alphanumeric(),
    }
}

// Whether neither `suffix` nor one of `others` is an end of the other.
fn is_apart_from(suffix: &str, others: &[String]) -> bool
    ensures { result ≡ list_all (spec.is_apart suffix.now) (map string_bytes others.now) }
{
    let suffix = suffix.as_bytes();
    others.iter().all(|other| {
        let other = other.as_str().as_bytes();
        !suffix.ends_with(other) && !other.ends_with(suffix)
    })
}

fn are_apart(list: &[String]) -> bool
    ensures { result ≡ spec.are_apart (map string_bytes list.now) }
{
    let mut rest = list;
    while let Some((suffix, others)) = rest.split_first() {
        if !is_apart_from(suffix.as_str(), others) {
            return false;
        }
        rest = others;
    }
    true
}

fn are_each_suffixes(list: &[String]) -> bool
    ensures { result ≡ list_all spec.is_suffix (map string_bytes list.now) }
{
    list.iter().all(|text| is_suffix(text.as_str()))
}

fn holds(list: &[String], suffix: &str) -> bool
    ensures { result ≡ list_any (bytes_eq suffix.now) (map string_bytes list.now) }
{
    list.iter().any(|text| suffix == text.as_str())
}

impl Suffixes {
    /// The suffixes of the files that nvcc generates: `.cpp1.ii`, `.cpp4.ii`, `.cudafe1.c`,
    /// `.cudafe1.cpp` and `.cudafe1.stub.c`.
    pub fn standard() -> Suffixes
        ensures { result ≡ standard_suffixes }
    {
        Suffixes { handed: None }
    }

    /// The suffixes of `list`, in its order.
    ///
    /// A word that ends in one of them is the name of a generated file, so a suffix such as `.cu`
    /// renames the source file itself.
    ///
    /// Each must begin with `.`, end in an ASCII letter or digit and contain no `/`; none may be an end of
    /// another one, so none may appear twice; and `.cpp1.ii` must be among them, since a plan groups the device
    /// commands by it. Any other list is refused: `BadSuffixes`.
    pub fn new(alloc: Global, list: &[String]) -> Result<Suffixes, Fault>
        ensures { UnlessMemory result (if spec.are_suffixes (map string_bytes list.now) then Ok (map string_bytes list.now) else Err BadSuffixes) }
    {
        if !(are_each_suffixes(list) && are_apart(list) && holds(list, CICC_INPUT_SUFFIX)) {
            return Err(Fault::BadSuffixes);
        }
        let words = Words::copy_of(alloc, list)?;
        Ok(Suffixes {
            handed: Some(words),
        })
    }

    /// How many suffixes there are.
    pub fn len(&self) -> usize
        ensures { result ≡ length self.now }
    {
        match &self.handed {
            None => 5,
            Some(words) => words.len(),
        }
    }

    /// The suffix at `index`, counted from 0.
    pub fn get(&self, index: usize) -> Option<&str>
        ensures { option_copied result ≡ slice_get self.now index }
    {
        match &self.handed {
            Some(words) => Some(words.as_slice().get(index)?.as_str()),
            None => match index {
                0 => Some(".cpp1.ii"),
                1 => Some(".cpp4.ii"),
                2 => Some(".cudafe1.c"),
                3 => Some(".cudafe1.cpp"),
                4 => Some(".cudafe1.stub.c"),
                _ => None,
            },
        }
    }

    /// What every value of this type guarantees: the list keeps the rule above (`rule`), so the laws of canonical
    /// names apply to it (`asked`). The call does nothing else.
    pub fn keeps_the_rule(&self)
        ensures rule { spec.are_suffixes self.now ≡ true }
        ensures asked { AreSuffixes self.now }
    {
        let _ = &self.handed;
    }

    /// Copies the list into memory of its own.
    pub fn try_clone(&self, alloc: Global) -> Result<Suffixes, AllocError>
        ensures { IfOk result (λ s. s ≡ self.now) }
    {
        let handed = match &self.handed {
            None => None,
            Some(words) => Some(words.try_clone(alloc)?),
        };
        Ok(Suffixes { handed })
    }

    // The place of the first suffix that a name ends in.
    pub(crate) fn class(&self, name: &str) -> Option<usize>
        ensures none { MatchOption result (class_of_name self.now name.now ≡ None) (λ i. class_of_name self.now name.now ≡ slice_get self.now i) }
        ensures within { MatchOption result ⊤ (λ i. i < length self.now) }
    {
        for index in 0..self.len() {
            if ends_in(name, self.get(index)) {
                return Some(index);
            }
        }
        None
    }

    // How many bytes each suffix has at least.
    fn least_length(&self) -> usize
        ensures { list_all (λ s. nat_le result (length s)) self.now ≡ true }
    {
        match &self.handed {
            None => 8,
            Some(_) => 1,
        }
    }

    // Whether one of the suffixes is anywhere in a text. Each begins with `.`, so it is enough to look behind each
    // `.`.
    pub(crate) fn stand_in(&self, text: &str) -> bool
        ensures { result ≡ list_any (λ s. text_holds s text.now) self.now }
    {
        self.keeps_the_rule();
        if text.len() < self.least_length() {
            return false;
        }
        let mut rest = text;
        while let Some((_, after)) = rest.split_once('.') {
            if self.follow_dot(after) {
                return true;
            }
            rest = after;
        }
        false
    }

    // Whether a text may begin with what a suffix has after its `.`. All of nvcc's suffixes have a `c` there.
    fn may_follow_dot(&self, text: &str) -> bool
        ensures { result ≡ false → list_any (λ s. starts_with nat_eq text.now (drop 1 s)) self.now ≡ false }
    {
        match &self.handed {
            None => text.as_bytes().starts_with(b"c"),
            Some(_) => true,
        }
    }

    fn follow_dot(&self, text: &str) -> bool
        ensures { result ≡ list_any (λ s. starts_with nat_eq text.now (drop 1 s)) self.now }
    {
        if !self.may_follow_dot(text) {
            return false;
        }
        for index in 0..self.len() {
            if follows_dot(text, self.get(index)) {
                return true;
            }
        }
        false
    }

    /// The name in a generated word: its core.
    pub fn generated_name<'a>(&self, word: &'a str) -> Option<&'a str>
        ensures { option_copied result ≡ generated.generated_name self.now word.now }
    {
        let name = core(word);
        if begins_with_dash(name) {
            return None;
        }
        match self.class(name) {
            None => None,
            Some(_) => Some(name),
        }
    }
}

// Whether there is a suffix, and a text begins with what it has after its first byte.
fn follows_dot(text: &str, suffix: Option<&str>) -> bool
    ensures { result ≡ is_some_and (λ s. starts_with nat_eq text.now (drop 1 s)) (option_copied suffix.entry) }
{
    match suffix {
        None => false,
        Some(suffix) => match suffix.as_bytes().split_first() {
            None => true,
            Some((_, rest)) => text.as_bytes().starts_with(rest),
        },
    }
}

fn ends_in(name: &str, suffix: Option<&str>) -> bool
    ensures { result ≡ is_some_and (ends_with nat_eq name.now) (option_copied suffix.entry) }
{
    match suffix {
        None => false,
        Some(suffix) => name.as_bytes().ends_with(suffix.as_bytes()),
    }
}

fn are_equal(one: Option<&str>, other: Option<&str>) -> bool
    ensures { result ≡ is_some_and (λ a. is_some_and (bytes_eq a) (option_copied other.entry)) (option_copied one.entry) }
{
    match (one, other) {
        (Some(one), Some(other)) => one == other,
        _ => false,
    }
}

impl PartialEq for Suffixes {
    ghost use Rattle.texts.specs.Equality.{words_eq, words_law};

    ghost eq = { words_eq };

    ghost laws = { words_law };

    fn eq(&self, other: &Suffixes) -> bool {
        if self.len() != other.len() {
            return false;
        }
        for index in 0..self.len() {
            if !are_equal(self.get(index), other.get(index)) {
                return false;
            }
        }
        true
    }
}
