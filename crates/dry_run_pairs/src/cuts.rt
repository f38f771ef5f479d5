//! What stands in front of a mark in a text, and what follows it.

ghost use Rattle.std.specs.Prelude.{◌≡◌, ◌<◌, ◌≤◌, length, IfSome, option_copied, option_map};
ghost use Rattle.texts.specs.Lists.{rest_after};
ghost use Rattle.dry_run_pairs.specs.Cuts as spec;
ghost use Rattle.dry_run_pairs.specs.Parts.{parts_of};

// What follows a mark that a text begins with.
pub fn behind<'a>(text: &'a [u8], mark: &[u8]) -> Option<&'a [u8]>
    ensures rest { option_copied result ≡ rest_after mark.now text.now }
    ensures less { IfSome result (λ rest. length rest.now ≤ length text.now) }
{
    text.strip_prefix(mark)
}

// The text in front of the first place of a mark, and the text that follows the mark there.
pub fn cut<'a>(text: &'a [u8], mark: &[u8]) -> Option<(&'a [u8], &'a [u8])>
    ensures { option_map parts_of result ≡ spec.cut mark.now text.now }
{
    for at in 0..text.len() {
        if let Some(rest) = behind(&text[at..], mark) {
            return Some((&text[..at], rest));
        }
    }
    None
}

// Whether a text holds a mark.
pub fn holds(text: &[u8], mark: &[u8]) -> bool
    ensures { result ≡ spec.holds mark.now text.now }
{
    cut(text, mark).is_some()
}
