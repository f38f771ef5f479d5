//! Option tables, and which entry of a table a word chooses.

ghost use Rattle.std.specs.Prelude.{◌≡◌, ◌++◌, ℕ, List, Option, map, Some, None, false, option_map, option_copied};
ghost use Rattle.compilers.specs.Table.{Entry, entry_of};
ghost use Rattle.compilers.specs.Table as spec;
ghost use Rattle.compilers.specs.LongestMatch.{longer_choice-longest, longest_match-longest};
ghost use Rattle.texts.specs.Lists.{rest_after};

/// How an option takes its value. The number is the delimiter between the option's text and a joined
/// value. It must be an ASCII byte: an entry with any other delimiter matches no word.
#[derive(Clone, Copy, Debug, PartialEq)]
pub enum ArgDisposition {
    /// As the next word.
    Separated,
    /// In the same word, right after the option's text and the delimiter.
    Concatenated(Option<u8>),
    /// In the same word, or as the next word if the option stands alone.
    CanBeSeparated(Option<u8>),
    /// As the next word, although the same word would do. Items carry this form. In an entry it means
    /// `CanBeSeparated`.
    CanBeConcatenated(Option<u8>),
}

/// A value as the next word.
pub const SEPARATED: ArgDisposition = ArgDisposition::Separated;

/// A value in the option's own word.
pub const JOINED: ArgDisposition = ArgDisposition::Concatenated(None);

/// A value in the option's own word, after `=`.
pub const JOINED_BY_EQUALS: ArgDisposition = ArgDisposition::Concatenated(Some(b'='));

/// A value in the option's own word, or as the next word.
pub const EITHER_WAY: ArgDisposition = ArgDisposition::CanBeSeparated(None);

/// A value in the option's own word, after `=`, or as the next word.
pub const EITHER_WAY_OR_EQUALS: ArgDisposition = ArgDisposition::CanBeSeparated(Some(b'='));

/// An entry of an option table: the option's text, its kind, and how it takes a value, if it does.
#[derive(Clone, Copy, Debug)]
pub enum ArgInfo<T: Copy> {
    /// An option without a value: its text and its kind.
    Flag(&'static str, T),
    /// An option with a value: its text, its kind, and where the value stands.
    TakeArg(&'static str, T, ArgDisposition),
}

/// The entries of a table, in groups of a form, a kind and the texts: `flag KIND: "TEXT" ..;` for options without a
/// value, and `FORM KIND: "TEXT" ..;` for options with one. `FORM` is a constant such as `JOINED`, and `KIND` a
/// variant of the `ArgData` that is in scope.
#[macro_export]
macro_rules! entries {
    ($($form:tt $kind:ident: $($text:literal)+;)+) => {
        [$($($crate::entry!($form $kind $text)),+),+]
    };
}

/// One entry of [`entries`].
#[macro_export]
macro_rules! entry {
    (flag $kind:ident $text:literal) => {
        $crate::table::ArgInfo::Flag($text, ArgData::$kind)
    };
    ($form:ident $kind:ident $text:literal) => {
        $crate::table::ArgInfo::TakeArg($text, ArgData::$kind, $form)
    };
}

/// How an entry matches a word.
#[derive(Clone, Copy, Debug)]
pub enum Match<'a> {
    /// The word is the flag.
    Lone,
    /// The word holds the option and its value.
    Joined(&'a str),
    /// The word is the option, and its value is the next word.
    Awaiting,
}

// What follows `text` in `word`.
fn rest_of<'a>(text: &str, word: &'a str) -> Option<&'a str>
    ensures { option_copied result ≡ rest_after text.now word.now }
{
    word.strip_prefix(text)
}

// The value in the option's own word, by what follows the option's text there: it is empty, or comes after the
// delimiter if there is one.
fn joined_value<'a>(delimiter: Option<u8>, rest: &'a str) -> Option<&'a str>
    ensures { option_copied result ≡ spec.value_after delimiter rest.now }
{
    match delimiter {
        None => Some(rest),
        Some(byte) if !byte.is_ascii() => None,
        Some(_) if rest.is_empty() => Some(rest),
        Some(byte) => rest.strip_prefix(char::from(byte)),
    }
}

// Whether `word` may begin with `text`: it is long enough, and has the same byte where `text` ends. This rules
// out most entries before any texts are compared.
fn may_begin(text: &str, word: &str) -> bool
    ensures { result ≡ false → rest_after text.now word.now ≡ None }
{
    let (text, word) = (text.as_bytes(), word.as_bytes());
    let length = text.len();
    length <= word.len() && (length == 0 || text[length - 1] == word[length - 1])
}

impl<T: Copy> ArgInfo<T> {
    /// The option's text, as `-o`.
    pub fn text(&self) -> &'static str
        ensures { result.now ≡ (entry_of self.now).text }
    {
        match self {
            ArgInfo::Flag(text, _) | ArgInfo::TakeArg(text, _, _) => text,
        }
    }

    /// The option's kind.
    pub fn kind(&self) -> T
        ensures { result ≡ (entry_of self.now).kind }
    {
        match self {
            ArgInfo::Flag(_, kind) | ArgInfo::TakeArg(_, kind, _) => *kind,
        }
    }

    /// How the option takes its value; `None` for a flag.
    pub fn disposition(&self) -> Option<ArgDisposition>
        ensures { result ≡ (entry_of self.now).form }
    {
        match self {
            ArgInfo::Flag(_, _) => None,
            ArgInfo::TakeArg(_, _, disposition) => Some(*disposition),
        }
    }

    /// How this entry matches `word`; `None` if it doesn't.
    pub fn matches<'a>(&self, word: &'a str) -> Option<Match<'a>>
        ensures { option_map spec.matched_of result ≡ spec.matched (entry_of self.now) word.now }
    {
        let rest = rest_of(self.text(), word)?;
        match self {
            ArgInfo::TakeArg(_, _, disposition) => disposition.matches(rest),
            ArgInfo::Flag(_, _) if rest.is_empty() => Some(Match::Lone),
            ArgInfo::Flag(_, _) => None,
        }
    }
}

impl ArgDisposition {
    // How an option of this form matches a word, by what follows its text there.
    fn matches<'a>(self, rest: &'a str) -> Option<Match<'a>>
        ensures { option_map spec.matched_of result ≡ spec.matched_rest (Some self) rest.now }
    {
        match self {
            ArgDisposition::Separated if rest.is_empty() => Some(Match::Awaiting),
            ArgDisposition::Separated => None,
            ArgDisposition::Concatenated(delimiter) => {
                Some(Match::Joined(joined_value(delimiter, rest)?))
            }
            ArgDisposition::CanBeSeparated(delimiter)
            | ArgDisposition::CanBeConcatenated(delimiter) => {
                let value = joined_value(delimiter, rest)?;
                if rest.is_empty() {
                    Some(Match::Awaiting)
                } else {
                    Some(Match::Joined(value))
                }
            }
        }
    }
}

/// An option table that can be searched by word.
pub trait SearchableArgInfo<T: Copy> {
    /// The table's entries.
    ghost entries: { Self → List (Entry T) };

    /// The entry that a word chooses.
    ghost chosen: { Self → List ℕ → Option (Entry T) };

    /// The entry that `word` chooses: of those that match, one with the longest text. `None` if none
    /// matches.
    fn search(&self, word: &str) -> Option<&ArgInfo<T>>
        ensures { option_map entry_of (option_copied result) ≡ chosen self.now word.now };

    ghost longest: { (table : Self) (word : List ℕ) → spec.IsLongestMatch (entries table) word (chosen table word) };
}

/// A table whose entries are in a slice. If two entries that match are equally long, the first wins.
#[derive(Clone, Copy, Debug)]
pub struct Table<'a, T: Copy> {
    /// The entries, in any order.
    pub rows: &'a [ArgInfo<T>],
}

impl<'a, T: Copy> SearchableArgInfo<T> for Table<'a, T> {
    ghost entries = { λ t. map entry_of t.rows.now };

    ghost chosen = { λ t. spec.longest_match (map entry_of t.rows.now) };

    ghost longest = { λ t word. longest_match-longest word (map entry_of t.rows.now) };

    fn search(&self, word: &str) -> Option<&ArgInfo<T>> {
        let mut best = None;
        for row in self.rows {
            if may_begin(row.text(), word) && row.matches(word).is_some() && is_longer(row, best) {
                best = Some(row);
            }
        }
        best
    }
}

// Whether `row` has a longer text than the entry chosen so far.
fn is_longer<T: Copy>(row: &ArgInfo<T>, best: Option<&ArgInfo<T>>) -> bool
    ensures { result ≡ spec.is_longer (entry_of row.now) (option_map entry_of (option_copied best.entry)) }
{
    match best {
        None => true,
        Some(other) => other.text().len() < row.text().len(),
    }
}

// The longer of two choices; the second if both are equally long.
fn longer<'a, T: Copy>(
    first: Option<&'a ArgInfo<T>>,
    second: Option<&'a ArgInfo<T>>,
) -> Option<&'a ArgInfo<T>>
    ensures { option_map entry_of (option_copied result)
        ≡ spec.longer_choice (option_map entry_of (option_copied first.entry))
        (option_map entry_of (option_copied second.entry)) }
{
    match (first, second) {
        (Some(one), Some(other)) if other.text().len() < one.text().len() => Some(one),
        (first, None) => first,
        (_, second) => second,
    }
}

/// Two tables searched as one: the longer of their choices wins, and the second's if both are equally
/// long. An entry of the second table replaces one of the same text only for words that it matches.
impl<T: Copy, A: SearchableArgInfo<T>, B: SearchableArgInfo<T>> SearchableArgInfo<T> for (A, B) {
    ghost entries = { λ t. A.entries t.0 ++ B.entries t.1 };

    ghost chosen = { λ t word. spec.longer_choice (A.chosen t.0 word) (B.chosen t.1 word) };

    ghost longest = { λ t word. longer_choice-longest word _ _ _ _ (A.longest t.0 word) (B.longest t.1 word) };

    fn search(&self, word: &str) -> Option<&ArgInfo<T>> {
        longer(self.0.search(word), self.1.search(word))
    }
}

/// Two slices of entries, searched like a pair of tables. It has a single lifetime, so generic readers
/// can take it.
#[derive(Clone, Copy, Debug)]
pub struct Pair<'a, T: Copy> {
    /// The table that wins if both match equally long texts.
    pub first: Table<'a, T>,
    /// The other table.
    pub second: Table<'a, T>,
}

impl<'a, T: Copy> SearchableArgInfo<T> for Pair<'a, T> {
    ghost entries = { λ t. map entry_of t.first.rows.now ++ map entry_of t.second.rows.now };

    ghost chosen = { λ t. spec.longest_of_two (map entry_of t.first.rows.now) (map entry_of t.second.rows.now) };

    ghost longest = { λ t word. longer_choice-longest word _ _ _ _
        (longest_match-longest word (map entry_of t.first.rows.now)) (longest_match-longest word (map entry_of t.second.rows.now)) };

    fn search(&self, word: &str) -> Option<&ArgInfo<T>> {
        longer(self.first.search(word), self.second.search(word))
    }
}
