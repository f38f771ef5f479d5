//! What Ninja prints while it runs a command.

ghost use Rattle.std.specs.Prelude.{◌≡◌, IfOk, map, string_bytes, option_copied};
ghost use Rattle.texts.specs.Lists.{rest_after};
ghost use Rattle.plan_texts.specs.Description as spec;

use compilers::plans::NvccGeneratedSubcommand;
use std::alloc::{AllocError, Global};
use texts::extension::last;

// What follows a text that a word begins with.
fn rest_of<'a>(word: &'a str, text: &str) -> Option<&'a str>
    ensures { option_copied result ≡ rest_after text.now word.now }
{
    word.strip_prefix(text)
}

// The target that a word names by itself.
fn target_in(word: &str) -> Option<&str>
    ensures { option_copied result ≡ spec.target_in word.now }
{
    if let Some(number) = rest_of(word, "-D__CUDA_ARCH__=") {
        return Some(number);
    }
    match rest_of(word, "-arch=") {
        Some(target) => Some(target),
        None => rest_of(word, "--arch="),
    }
}

// The same, or the one that `-arch` names with the first of the words behind it.
fn target_at<'a>(word: &'a str, behind: &'a [String]) -> Option<&'a str>
    ensures { option_copied result ≡ spec.target_at word.now (map string_bytes behind.now) }
{
    match (target_in(word), behind) {
        (Some(target), _) => Some(target),
        (None, [next, ..]) if word == "-arch" => Some(next.as_str()),
        (None, _) => None,
    }
}

// The first target that words name.
fn target_of(words: &[String]) -> Option<&str>
    ensures { option_copied result ≡ spec.target_of (map string_bytes words.now) }
{
    let mut rest = words;
    while let Some((word, behind)) = rest.split_first() {
        if let Some(target) = target_at(word.as_str(), behind) {
            return Some(target);
        }
        rest = behind;
    }
    None
}

/// A command's description: its program without the folder, and the target that a word names, if one does.
pub(crate) fn description(
    alloc: Global,
    command: &NvccGeneratedSubcommand,
) -> Result<String, AllocError>
    ensures { IfOk result (λ text. string_bytes text ≡ spec.description command.now) }
{
    let program = last(command.exe.as_str());
    match target_of(command.args.as_slice()) {
        Some(target) => format!(in alloc; "{program} {target}"),
        None => String::from_str(alloc, program),
    }
}
