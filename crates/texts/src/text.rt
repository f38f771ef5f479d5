//! Texts, and the texts that are paths.

ghost use Rattle.std.specs.Prelude.{◌≡◌, ◌==◌, ◌↔◌, ◌<◌, List, ℕ, length, reverse, IsTrue, IfOk, OnOk, OnErr, Some, MatchOption, string_bytes, option_copied};
ghost use Rattle.std.specs.Str.{bytes_eq};
ghost use Rattle.std.specs.Str.Iter.{chars_rest};
ghost use Rattle.texts.specs.Equality.{bytes_law};
ghost use Rattle.texts.specs.Path as spec;
ghost use Rattle.texts.specs.Path.{is_absolute_path, joined, trimmed_backwards, folder_of, file_name_of, file_stem_of, JoinedKeepsFolder, JoinedHasName, FolderBegins, JoinedCancels, FoldersCancel};

use crate::extension::{last, split_last, stem};
use std::alloc::{AllocError, Global};
use std::fmt;
use std::marker::Model;
use std::str::Chars;

/// A text that a record holds: UTF-8, seen in contracts as its bytes.
///
/// `new` and `into_string` don't allocate.
#[derive(Debug, Drop)]
pub struct Text {
    string: String,
}

impl Model for Text {
    ghost Value = { List ℕ };

    ghost view = { λ t. string_bytes t.string };
}

impl Text {
    /// Holds the text of `string`.
    pub fn new(string: String) -> Text
        ensures { result ≡ string_bytes string }
    {
        Text { string }
    }

    /// A text equal to `text`.
    pub fn copy_of(alloc: Global, text: &str) -> Result<Text, AllocError>
        ensures { IfOk result (λ t. t ≡ text.now) }
    {
        Ok(Text {
            string: String::from_str(alloc, text)?,
        })
    }

    /// The text itself.
    pub fn as_str(&self) -> &str
        ensures { result.now ≡ self.now }
    {
        self.string.as_str()
    }

    /// Gives the `String` back.
    pub fn into_string(self) -> String
        ensures { string_bytes result ≡ self }
    {
        self.string
    }

    /// The text's bytes.
    pub fn as_bytes(&self) -> &[u8]
        ensures { result.now ≡ self.now }
    {
        self.string.as_bytes()
    }

    /// How many bytes the text has.
    pub fn len(&self) -> usize
        ensures { result ≡ length self.now }
    {
        self.string.len()
    }

    /// Whether the text is empty.
    pub fn is_empty(&self) -> bool
        ensures { result ≡ (length self.now == 0) }
    {
        self.string.is_empty()
    }

    /// Each character, in order.
    pub fn chars(&self) -> Chars<'_>
        ensures { chars_rest result ≡ self.now }
    {
        self.string.chars()
    }

    /// An equal text, in memory of its own.
    pub fn try_clone(&self, alloc: Global) -> Result<Text, AllocError>
        ensures { IfOk result (λ t. t ≡ self.now) }
    {
        Text::copy_of(alloc, self.as_str())
    }

    /// An equal text, in memory of its own, if there is one.
    pub fn clone_optional(alloc: Global, text: &Option<Text>) -> Result<Option<Text>, AllocError>
        ensures { IfOk result (λ t. t ≡ text.now) }
    {
        match text {
            None => Ok(None),
            Some(text) => Ok(Some(text.try_clone(alloc)?)),
        }
    }

    /// Puts a copy of `text` in place of an earlier text. On an error that one stays.
    pub fn put_copy(earlier: &mut Option<Text>, alloc: Global, text: &str) -> Result<(), AllocError>
        ensures ok { OnOk result (earlier.new ≡ Some text.now) }
        ensures err { OnErr result (earlier.new ≡ earlier.old) }
    {
        *earlier = Some(Text::copy_of(alloc, text)?);
        Ok(())
    }
}

impl fmt::Display for Text {
    ghost output = { λ t. Some t };

    fn fmt<W: fmt::Write>(&self, f: &mut fmt::Formatter<W>) -> fmt::Result {
        f.write_str(self.as_str())
    }
}

impl PartialEq for Text {
    ghost eq = { bytes_eq };

    ghost laws = { bytes_law };

    fn eq(&self, other: &Text) -> bool {
        self.as_str() == other.as_str()
    }
}

/// Whether a path text begins with `/`.
pub fn is_absolute(path: &str) -> bool
    ensures { IsTrue result ↔ IsTrue (is_absolute_path path.now) }
{
    path.starts_with('/')
}

/// Whether `name` contains no `/`.
pub fn is_bare(name: &str) -> bool
    ensures { result ≡ spec.is_bare name.now }
{
    !name.as_bytes().contains(&b'/')
}

/// The path that `path` names when it is looked up from the folder `base`.
///
/// An absolute `path` is itself. Any other is appended to `base`, with one `/` between them if `base`
/// is neither empty nor ends in one, as sccache 0.19.0 joins paths. So `join("/w", "")` is `/w/`.
pub fn join(alloc: Global, base: &str, path: &str) -> Result<String, AllocError>
    ensures { IfOk result (λ whole. string_bytes whole ≡ joined base.now path.now) }
{
    if is_absolute(path) {
        return String::from_str(alloc, path);
    }
    let room = base.len().saturating_add(path.len()).saturating_add(1);
    let mut whole = String::with_capacity(alloc, room)?;
    whole.push_str(base)?;
    if !base.is_empty() && !base.as_bytes().ends_with(b"/") {
        whole.push('/')?;
    }
    whole.push_str(path)?;
    Ok(whole)
}

// `text` without its last character, if that is a `/`, or a `.` right after a `/`. If `keeps_root`,
// a `/` that is the only character stays.
fn trim_once(text: &str, keeps_root: bool) -> Option<&str>
    ensures { MatchOption result
        (trimmed_backwards keeps_root text.now ≡ reverse text.now)
        (λ r. (trimmed_backwards keeps_root text.now ≡ trimmed_backwards keeps_root r.now) × (length r.now < length text.now)) }
{
    if let Some(front) = text.strip_suffix('/') {
        return if keeps_root && front.is_empty() {
            None
        } else {
            Some(front)
        };
    }
    let front = text.strip_suffix('.')?;
    if front.as_bytes().ends_with(b"/") {
        Some(front)
    } else {
        None
    }
}

// `text` without its last characters, as long as `trim_once` takes one off.
fn trim(text: &str, keeps_root: bool) -> &str
    ensures { result.now ≡ reverse (trimmed_backwards keeps_root text.now) }
{
    let mut rest = text;
    while let Some(front) = trim_once(rest, keeps_root) {
        rest = front;
    }
    rest
}

/// The folder of the name `path`: the text up to and including the last `/`, with trailing `/` and
/// `/.` removed (a lone `/` stays). Empty if there is no `/`.
///
/// A name that `join` puts into a folder has that folder again.
pub fn folder(path: &str) -> &str
    ensures { result.now ≡ folder_of path.now }
{
    let Some((front, _)) = split_last(path, '/') else {
        return "";
    };
    if front.is_empty() {
        "/"
    } else {
        trim(front, true)
    }
}

/// The file name of `path`: what follows the last `/`, after trailing `/` and `/.` are removed. `None`
/// if that is empty, `.` or `..`.
pub fn file_name(path: &str) -> Option<&str>
    ensures { option_copied result ≡ file_name_of path.now }
{
    match last(trim(path, false)) {
        "" | "." | ".." => None,
        name => Some(name),
    }
}

/// The file name of `path` before its last `.`; all of it if it has no `.`, or if its only `.` comes
/// first.
pub fn file_stem(path: &str) -> Option<&str>
    ensures { option_copied result ≡ file_stem_of path.now }
{
    Some(stem(file_name(path)?))
}

/// A law of path texts.
///
/// A bare name, one without `/`, that is joined to the folder of a name has that folder (`folder`),
/// and is the file name of the path that it is joined to, if it can be one (`name`). A folder is
/// a beginning of its name (`beginning`). Equal paths that were joined to one path come from equal
/// names (`cancel`), and those of bare names joined to folders from equal folders too (`folders`).
pub fn path_law()
    ensures folder { JoinedKeepsFolder }
    ensures name { JoinedHasName }
    ensures beginning { FolderBegins }
    ensures cancel { JoinedCancels }
    ensures folders { FoldersCancel }
{}
