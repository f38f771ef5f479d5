//! Texts in which marks replace roots.

ghost use Rattle.std.specs.Prelude.{◌≡◌, [], ◌∷◌, ◌++◌, ◌<◌, ◌≤◌, Some, None, true, false, map, length, OnOk, MatchOption};
ghost use Rattle.command_keys.specs.Keys.{key_of_text, shown};
ghost use Rattle.command_keys.specs.Marks as spec;

use std::alloc::AllocError;

/// A part of a text.
#[derive(Clone, Copy, Debug)]
pub enum Part {
    /// A byte that is of no root.
    Byte(u8),
    /// A root, by its number in the list of roots.
    Root(usize),
}

// Whether a root may end in front of a rest: an absolute path where its last name ends, another text anywhere.
fn may_end(root: &[u8], rest: &[u8]) -> bool
    ensures { result ≡ spec.may_end root.now rest.now }
{
    match root.first() {
        None => true,
        Some(byte) => *byte != b'/' || rest.is_empty() || rest.starts_with(b"/"),
    }
}

// What follows a root in a text that begins with it. None begins with an empty one.
fn behind<'a>(text: &'a [u8], root: &[u8]) -> Option<&'a [u8]>
    ensures { MatchOption result (spec.begins_with text.now root.now ≡ false)
        (λ rest. (spec.begins_with text.now root.now ≡ true) × (text.now ≡ root.now ++ rest.now)) }
{
    if root.is_empty() {
        return None;
    }
    let rest = text.strip_prefix(root)?;
    if may_end(root, rest) {
        Some(rest)
    } else {
        None
    }
}

// The length of the longest root that a text begins with, 0 if there is none.
fn longest(roots: &[&[u8]], text: &[u8]) -> usize
    ensures { result ≡ spec.longest text.now (map shown roots.now) }
{
    let mut most = 0;
    for root in roots {
        match behind(text, root) {
            Some(_) if most < root.len() => most = root.len(),
            _ => {}
        }
    }
    most
}

// The number of the innermost root that a text begins with, and what follows it.
fn root_at<'a>(roots: &[&[u8]], text: &'a [u8]) -> Option<(usize, &'a [u8])>
    ensures { MatchOption result (spec.root_at (map shown roots.now) text.now ≡ None) (λ found.
        (spec.root_at (map shown roots.now) text.now ≡ Some found.0)
        × (text.now ≡ spec.root_of (map shown roots.now) found.0 ++ found.1.now)) }
{
    let most = longest(roots, text);
    for (number, root) in roots.iter().enumerate() {
        match behind(text, root) {
            Some(rest) if root.len() == most => return Some((number, rest)),
            _ => {}
        }
    }
    None
}

// The first part of a text, and the rest of the text.
fn first_part<'a>(roots: &[&[u8]], text: &'a [u8]) -> Option<(Part, &'a [u8])>
    ensures { MatchOption result (text.now ≡ []) (λ next.
        (spec.parts (map shown roots.now) text.now ≡ next.0 ∷ spec.parts (map shown roots.now) next.1.now)
        × (length next.1.now < length text.now)
        × spec.fits (length roots.now) next.0) }
{
    if let Some((number, rest)) = root_at(roots, text) {
        return Some((Part::Root(number), rest));
    }
    let (byte, rest) = text.split_first()?;
    Some((Part::Byte(*byte), rest))
}

/// Adds a text to a key, and what ends it.
pub(crate) fn push_text(
    key: &mut Vec<u8>,
    roots: &[&[u8]],
    text: &[u8],
    end: u8,
) -> Result<(), AllocError>
    requires { length roots.now ≤ 26 }
    ensures { OnOk result (key.new.items ≡ key.old.items ++ key_of_text (map shown roots.now) (text.now, end)) }
{
    let mut rest = text;
    while let Some((part, behind)) = first_part(roots, rest) {
        match part {
            Part::Byte(byte) => key.push(byte)?,
            Part::Root(number) => {
                key.push(0)?;
                key.push(b'A' + number as u8)?;
            }
        }
        rest = behind;
    }
    key.push(0)?;
    key.push(end)?;
    Ok(())
}
