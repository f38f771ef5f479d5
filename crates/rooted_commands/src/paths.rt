//! Paths below a checkout, as they are everywhere.

ghost use Rattle.std.specs.Prelude.{◌≡◌, ◌++◌, IfOk, map, string_bytes, option_copied};
ghost use Rattle.rooted_commands.specs.Paths as spec;
ghost use Rattle.texts.specs.Lists.{rest_after};

use std::alloc::{AllocError, Global};
use texts::text::{Text, is_absolute, join};
use texts::words::Words;

/// Where a checkout is, and what stands for it everywhere.
#[derive(Debug, Drop)]
pub struct Root {
    /// The checkout's folder, absolute, no `/` at its end: as the user names it and free of links. Of those that a path is below, the first counts.
    pub folders: Words,
    /// What stands in its place, absolute, no `/` at its end.
    pub root: Text,
    /// The call's working directory, absolute.
    pub cwd: Text,
    /// The folder of generated files.
    pub tmp: Text,
}

// What follows a text that a word begins with.
pub fn rest_of<'a>(word: &'a str, text: &str) -> Option<&'a str>
    ensures { option_copied result ≡ rest_after text.now word.now }
{
    word.strip_prefix(text)
}

// What is behind a folder in a path that is the folder or below it: nothing, or `/` and more.
fn behind<'a>(folder: &str, path: &'a str) -> Option<&'a str>
    ensures { option_copied result ≡ spec.behind folder.now path.now }
{
    let rest = rest_of(path, folder)?;
    if rest.is_empty() || is_absolute(rest) {
        Some(rest)
    } else {
        None
    }
}

// The same of the first folder that the path is or is below.
fn behind_first<'a>(folders: &[String], path: &'a str) -> Option<&'a str>
    ensures { option_copied result ≡ spec.behind_first (map string_bytes folders.now) path.now }
{
    for folder in folders {
        if let Some(rest) = behind(folder.as_str(), path) {
            return Some(rest);
        }
    }
    None
}

// What is behind the checkout's folder in a whole path. Generated files aren't in the checkout.
fn place<'a>(root: &Root, path: &'a str) -> Option<&'a str>
    ensures { option_copied result ≡ spec.place root.now path.now }
{
    match behind(root.tmp.as_str(), path) {
        Some(_) => None,
        None => behind_first(root.folders.as_slice(), path),
    }
}

// Two texts as one.
fn joined_texts(alloc: Global, front: &str, back: &str) -> Result<Text, AllocError>
    ensures { IfOk result (λ whole. whole ≡ front.now ++ back.now) }
{
    let mut whole = String::from_str(alloc, front)?;
    whole.push_str(back)?;
    Ok(Text::new(whole))
}

/// A path with the root in place of the checkout's folder.
///
/// The path is seen from `cwd`. If it is one of the folders, or below one, the root stands in place of the first such folder. Any other
/// path stays as it is, and so does that of a generated file.
pub fn rooted_path(alloc: Global, root: &Root, path: &str) -> Result<Text, AllocError>
    ensures { IfOk result (λ rooted. rooted ≡ spec.rooted_path root.now path.now) }
{
    let whole = join(alloc, root.cwd.as_str(), path)?;
    match place(root, whole.as_str()) {
        None => Text::copy_of(alloc, path),
        Some(rest) => joined_texts(alloc, root.root.as_str(), rest),
    }
}

// A path with a folder in place of the root.
fn with_folder(alloc: Global, root: &Root, folder: &str, rooted: &str) -> Result<Text, AllocError>
    ensures { IfOk result (λ own. own ≡ spec.put folder.now rooted.now (spec.behind root.now.root rooted.now)) }
{
    match behind(root.root.as_str(), rooted) {
        None => Text::copy_of(alloc, rooted),
        Some(rest) => joined_texts(alloc, folder, rest),
    }
}

/// A rooted path as it is in a checkout: the first folder takes the place of the root. A path that isn't the root, nor below it, stays.
pub fn own_path(alloc: Global, root: &Root, path: &str) -> Result<Text, AllocError>
    ensures { IfOk result (λ own. own ≡ spec.own_path root.now path.now) }
{
    match root.folders.as_slice() {
        [] => Text::copy_of(alloc, path),
        [folder, ..] => with_folder(alloc, root, folder.as_str(), path),
    }
}

// What is before a path in a word of nvcc's line.
fn front_of(word: &str) -> &'static str
    ensures { result.now ≡ spec.front_of word.now }
{
    if word.as_bytes().starts_with(b"-I") {
        "-I"
    } else if word.as_bytes().starts_with(b"-isystem=") {
        "-isystem="
    } else if word.as_bytes().starts_with(b"--include-path=") {
        "--include-path="
    } else if word.as_bytes().starts_with(b"--system-include=") {
        "--system-include="
    } else {
        ""
    }
}

// A path that is rooted if it is absolute.
fn whole_path(alloc: Global, root: &Root, path: &str) -> Result<Text, AllocError>
    ensures { IfOk result (λ rooted. rooted ≡ spec.whole_path root.now path.now) }
{
    if is_absolute(path) {
        rooted_path(alloc, root, path)
    } else {
        Text::copy_of(alloc, path)
    }
}

/// A word of nvcc's line as any checkout has it: an absolute path below the checkout's folder has the root in its place, if it's the whole
/// word or behind `-I`, `-isystem=`, `--include-path=` or `--system-include=`. Any other word stays: a path in it may reach a product.
pub fn line_word(alloc: Global, root: &Root, word: &str) -> Result<Text, AllocError>
    ensures { IfOk result (λ rooted. rooted ≡ spec.line_word root.now word.now) }
{
    let front = front_of(word);
    match rest_of(word, front) {
        None => Text::copy_of(alloc, word),
        Some(path) => {
            let whole = whole_path(alloc, root, path)?;
            joined_texts(alloc, front, whole.as_str())
        }
    }
}
