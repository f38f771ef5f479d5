//! The words of a command that count in its key.

ghost use Rattle.std.specs.Prelude.{◌≡◌, ◌++◌, map, IfOk, OnOk, option_map, option_copied, vec_items};
ghost use Rattle.std.specs.List.{list_all, list_any, flat_map, position_from};
ghost use Rattle.texts.specs.Path.{joined, lacks};
ghost use Rattle.command_keys.specs.CountedWords as spec;
ghost use Rattle.command_keys.specs.Keys.{key_of, shown, shown_variable};
ghost use Rattle.command_keys.specs.WordTable.{shows_own_name};

use crate::keys::command_key;
use crate::known_words::own_name_reaches;
use crate::reading::{ReadWord, Role, read_words};
use compilers::plans::Program;
use std::alloc::{AllocError, Global};
use std::marker::Model;
use texts::bytes::Bytes;

/// The files of a command, by its record, as paths joined to the directory where it runs.
#[derive(Clone, Copy, Debug)]
pub struct NamedFiles<'a> {
    /// The path of the directory where it runs.
    pub cwd: &'a [u8],
    /// The files that it reads.
    pub reads: &'a [&'a [u8]],
    /// The files that it writes whose names don't count, as those of the call's products.
    pub products: &'a [&'a [u8]],
}

/// A word of a command, as it counts.
#[derive(Debug, Drop)]
pub struct CountedWord<'a> {
    /// The word.
    pub read: ReadWord<'a>,
    /// If it ends in the name of a product: the product's number in the list of products.
    pub product: Option<usize>,
}

impl<'a> Model for CountedWord<'a> {
    ghost use Rattle.command_keys.specs.CountedWords.{Counted};

    ghost Value = { Counted };

    ghost view = { λ c. record { read = c.read; product = c.product } };
}

// The path of a name, seen from a directory.
fn path_of(alloc: Global, cwd: &[u8], name: &[u8]) -> Result<Bytes, AllocError>
    ensures { IfOk result (λ path. path ≡ joined cwd.now name.now) }
{
    if name.starts_with(b"/") {
        return Ok(Bytes::from_vec(Vec::from_slice(alloc, name)?));
    }
    let mut path = Vec::from_slice(alloc, cwd)?;
    if !cwd.is_empty() && !cwd.ends_with(b"/") {
        path.push(b'/')?;
    }
    path.extend_from_slice(name)?;
    Ok(Bytes::from_vec(path))
}

// The place of a path among files.
fn place_of(path: &[u8], files: &[&[u8]]) -> Option<usize>
    ensures { result ≡ spec.place_of path.now (map shown files.now) }
{
    for (place, file) in files.iter().enumerate() {
        if *file == path {
            return Some(place);
        }
    }
    None
}

// A word as it counts, unless it names a file that the command's record doesn't read.
fn counted<'a>(
    alloc: Global,
    cwd: &[u8],
    reads: &[&[u8]],
    products: &[&[u8]],
    read: ReadWord<'a>,
) -> Result<Option<CountedWord<'a>>, AllocError>
    ensures { IfOk result (λ counted. counted ≡ spec.counted cwd.now (map shown reads.now) (map shown products.now) read.entry) }
{
    let path = path_of(alloc, cwd, read.name)?;
    let product = match read.role {
        Role::Names => place_of(path.as_slice(), products),
        Role::Reads if place_of(path.as_slice(), reads).is_none() => return Ok(None),
        _ => None,
    };
    Ok(Some(CountedWord { read, product }))
}

// All words as they count.
fn all_counted<'a>(
    alloc: Global,
    cwd: &[u8],
    reads: &[&[u8]],
    products: &[&[u8]],
    words: Vec<ReadWord<'a>>,
) -> Result<Option<Vec<CountedWord<'a>>>, AllocError>
    ensures { IfOk result (λ counted. option_map vec_items counted ≡ spec.all_counted cwd.now (map shown reads.now) (map shown products.now) words.entry.items) }
{
    let mut all = Vec::with_capacity(alloc, words.len())?;
    for read in words {
        match counted(alloc, cwd, reads, products, read)? {
            None => return Ok(None),
            Some(word) => all.push(word)?,
        }
    }
    Ok(Some(all))
}

// Whether a word lacks the byte that stands for products' names.
fn lacks_mark(word: &[u8]) -> bool
    ensures { result ≡ lacks spec.mark word.now }
{
    !word.contains(&1)
}

// Whether all words do.
fn lack_mark(words: &[&[u8]]) -> bool
    ensures { result ≡ list_all (lacks spec.mark) (map shown words.now) }
{
    for word in words {
        if !lacks_mark(word) {
            return false;
        }
    }
    true
}

/// The words of a command, behind its program, as they count in its key: all of them, in order. `None` if no cache may serve the command: a
/// word isn't in the table of the tool's words, or it names a file that the command doesn't read by its record, or it contains the byte 1.
///
/// The name of a product doesn't count, unless it reaches the product itself ([`own_name_reaches`](crate::own_name_reaches)).
pub fn counted_words<'a>(
    alloc: Global,
    tool: Program,
    words: &[&'a [u8]],
    files: &NamedFiles<'_>,
) -> Result<Option<Vec<CountedWord<'a>>>, AllocError>
    ensures { IfOk result (λ counted. option_map vec_items counted ≡ spec.counted_words tool (map shown words.now) (spec.files_of files.now)) }
{
    if !lack_mark(words) {
        return Ok(None);
    }
    let Some(read) = read_words(alloc, tool, words)? else {
        return Ok(None);
    };
    if own_name_reaches(tool, words) {
        all_counted(alloc, files.cwd, files.reads, &[], read)
    } else {
        all_counted(alloc, files.cwd, files.reads, files.products, read)
    }
}

// Adds a mark for each of the products up to a number.
fn push_marks(text: &mut Vec<u8>, number: usize) -> Result<(), AllocError>
    ensures { OnOk result (text.new.items ≡ text.old.items ++ spec.marks number) }
{
    let mut left = number;
    while left > 0 {
        text.push(1)?;
        left -= 1;
    }
    Ok(())
}

// What stands in front of a file's name in a word that ends in it.
fn front_of<'a>(read: &ReadWord<'a>) -> &'a [u8]
    ensures { result.now ≡ spec.front_of read.now }
{
    let length = read.word.len().saturating_sub(read.name.len());
    read.word.get(..length).unwrap_or(read.word)
}

/// A word's text in a key. In place of a product's name it has a byte 1 more often than its number.
pub fn counted_text(alloc: Global, word: &CountedWord<'_>) -> Result<Bytes, AllocError>
    ensures { IfOk result (λ text. text ≡ spec.text_of word.now) }
{
    let Some(number) = word.product else {
        return Ok(Bytes::from_vec(Vec::from_slice(alloc, word.read.word)?));
    };
    let mut text = Vec::from_slice(alloc, front_of(&word.read))?;
    text.push(1)?;
    push_marks(&mut text, number)?;
    Ok(Bytes::from_vec(text))
}

// The texts of the words that count.
fn texts_seen(alloc: Global, all: bool, words: &[CountedWord<'_>]) -> Result<Vec<Bytes>, AllocError>
    ensures { IfOk result (λ texts. texts.items ≡ spec.texts_seen all words.now) }
{
    let mut texts = Vec::with_capacity(alloc, words.len())?;
    for word in words {
        if all || !matches!(word.read.role, Role::Preprocessor) {
            texts.push(counted_text(alloc, word)?)?;
        }
    }
    Ok(texts)
}

// The texts, borrowed.
fn lent(alloc: Global, texts: &[Bytes]) -> Result<Vec<&[u8]>, AllocError>
    ensures { IfOk result (λ lent. map shown lent.items ≡ texts.now) }
{
    let mut lent = Vec::with_capacity(alloc, texts.len())?;
    for text in texts {
        lent.push(text.as_slice())?;
    }
    Ok(lent)
}

/// The key of a command by its words as they count. If names of files reach the product ([`names_reach`](crate::names_reach)), `all` words
/// count, and there may be no root; else words that only a preprocessor reads don't count. `None` as of [`command_key`].
pub fn counted_key(
    alloc: Global,
    words: &[CountedWord<'_>],
    all: bool,
    variables: &[(&[u8], &[u8])],
    roots: &[&[u8]],
) -> Result<Option<Vec<u8>>, AllocError>
    ensures { IfOk result (λ key. option_map (λ key. key.items) key
        ≡ key_of (map shown roots.now) (spec.texts_seen all words.now, map shown_variable variables.now)) }
{
    let texts = texts_seen(alloc, all, words)?;
    let words = lent(alloc, texts.as_slice())?;
    command_key(alloc, words.as_slice(), variables, roots)
}
