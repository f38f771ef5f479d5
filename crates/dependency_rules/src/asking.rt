//! Which rule the words of a command ask for.

ghost use Rattle.std.specs.Prelude.{◌≡◌, ◌≤◌, length, map, string_bytes, option_copied, option_map, slice_get};
ghost use Rattle.std.specs.List.{list_all};
ghost use Rattle.texts.specs.Lists.{last_of};
ghost use Rattle.dependency_rules.specs.Asking as spec;

/// What a rule lists beside the source.
#[derive(Clone, Copy, Debug, Drop)]
pub struct Listing {
    /// Whether it lists headers of the system too: `-M`, not `-MM`.
    pub of_system: bool,
    /// Whether each file that it lists is a target of its own, without files: `-MP`.
    pub targets: bool,
}

/// A rule of a dependency file.
#[derive(Clone, Copy, Debug, Drop)]
pub struct Rule<'a> {
    /// The source's path.
    pub source: &'a str,
    /// The path of the file that gets the rule.
    pub file: &'a str,
    /// The target's name.
    pub target: &'a str,
    /// What it lists.
    pub listing: Listing,
}

// Whether every nvcc writes a byte of a name as it is.
pub fn is_name_byte(byte: u8) -> bool
    ensures { result ≡ spec.is_name_byte byte }
{
    byte.is_ascii_alphanumeric() || matches!(byte, b'_' | b'.' | b'/' | b'+' | b'-')
}

fn are_name_bytes(bytes: &[u8]) -> bool
    ensures { result ≡ list_all spec.is_name_byte bytes.now }
{
    bytes.iter().all(|byte| is_name_byte(*byte))
}

// Whether every nvcc writes a name as it is.
fn is_plain(name: &str) -> bool
    ensures { result ≡ spec.is_plain name.now }
{
    !name.is_empty() && are_name_bytes(name.as_bytes())
}

// Whether a file is no plain file by its name.
fn is_device(file: &str) -> bool
    ensures { result ≡ spec.is_device file.now }
{
    file.as_bytes().starts_with(b"/dev/") || file.as_bytes().starts_with(b"/proc/")
}

// The rule of these names, if every nvcc writes them as they are.
fn rule_for<'a>(
    listing: Listing,
    source: &'a str,
    file: &'a str,
    target: &'a str,
) -> Option<Rule<'a>>
    ensures { option_map spec.rule_of result ≡ spec.rule_for listing source.now file.now target.now }
{
    if is_plain(source) && is_plain(file) && is_plain(target) && !is_device(file) {
        Some(Rule {
            source,
            file,
            target,
            listing,
        })
    } else {
        None
    }
}

// The rule that two options with their values ask for.
fn rule_by<'a>(
    listing: Listing,
    source: &'a str,
    one: &str,
    first: &'a str,
    other: &str,
    second: &'a str,
) -> Option<Rule<'a>>
    ensures { option_map spec.rule_of result ≡ spec.rule_by listing source.now one.now first.now other.now second.now }
{
    if one == "-MF" && other == "-MT" {
        rule_for(listing, source, first, second)
    } else if one == "-MT" && other == "-MF" {
        rule_for(listing, source, second, first)
    } else {
        None
    }
}

// What a flag lists.
fn listing_of(flag: &str, targets: bool) -> Option<Listing>
    ensures { result ≡ spec.listing_of flag.now targets }
{
    let of_system = match flag {
        "-M" => true,
        "-MM" => false,
        _ => return None,
    };
    Some(Listing { of_system, targets })
}

// What flags list. If there are two, one has to be `-MP`, which asks for targets.
fn listing_by(flags: &[String]) -> Option<Listing>
    ensures { result ≡ spec.listing_by (map string_bytes flags.now) }
{
    match flags {
        [flag] => listing_of(flag.as_str(), false),
        [one, other] if one.as_str() == "-MP" => listing_of(other.as_str(), true),
        [one, other] if other.as_str() == "-MP" => listing_of(one.as_str(), true),
        _ => None,
    }
}

// The word of a list at an index.
fn word_at(words: &[String], index: usize) -> Option<&str>
    ensures { option_copied result ≡ slice_get (map string_bytes words.now) index }
{
    Some(words.get(index)?.as_str())
}

// The rule that the last four words of a command ask for.
fn rule_at_end<'a>(listing: Listing, source: &'a str, words: &'a [String]) -> Option<Rule<'a>>
    ensures { option_map spec.rule_of result ≡ spec.rule_at_end listing source.now (map string_bytes words.now) }
{
    let one = word_at(words, 0)?;
    let first = word_at(words, 1)?;
    let other = word_at(words, 2)?;
    let second = word_at(words, 3)?;
    rule_by(listing, source, one, first, other, second)
}

// How many words are in front of the first that asks for dependencies.
fn before_flags(words: &[String]) -> usize
    ensures value { result ≡ spec.before_flags (map string_bytes words.now) }
    ensures within { result ≤ length words.now }
{
    for (place, word) in words.iter().enumerate() {
        if word.as_bytes().starts_with(b"-M") {
            return place;
        }
    }
    words.len()
}

// The last word of a list.
fn last_word(words: &[String]) -> Option<&str>
    ensures { option_copied result ≡ last_of (map string_bytes words.now) }
{
    Some(words.last()?.as_str())
}

/// The rule that a command's words ask for, which are `.. SOURCE -M -MF FILE -MT TARGET`, with the last two options in either order. `-MM` may stand for
/// `-M`, and `-MP` before or after it.
///
/// `None` if nvcc has to make it: for another form, for further options that begin with `-M`, for a file below `/dev` or `/proc`, and for a name with
/// other bytes than letters, digits and `_./+-`.
pub fn rule_asked<'a>(words: &'a [String]) -> Option<Rule<'a>>
    ensures { option_map spec.rule_of result ≡ spec.asked (map string_bytes words.now) }
{
    let (front, options) = words.split_at(words.len().saturating_sub(4));
    let (before, flags) = front.split_at(before_flags(front));
    let listing = listing_by(flags)?;
    rule_at_end(listing, last_word(before)?, options)
}
