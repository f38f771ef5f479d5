//! The names that the option `-x` has for languages.

ghost use Rattle.std.specs.Prelude.{◌≡◌, ◌++◌, OnOk, OnErr, option_copied};
ghost use Rattle.host_lines.specs.GccItems.{language_named, name_of_language};
ghost use Rattle.host_lines.specs.GccLine.{language_words};

use std::alloc::{AllocError, Global};
use texts::language::Language;
use texts::words::Words;

/// The name that the option `-x` has for a language; `None` for one that gcc doesn't compile.
pub fn language_to_gcc_arg(language: Language) -> Option<&'static str>
    ensures { option_copied result ≡ name_of_language language }
{
    match language {
        Language::C => Some("c"),
        Language::Cxx => Some("c++"),
        Language::ObjectiveC => Some("objective-c"),
        Language::ObjectiveCxx => Some("objective-c++"),
        Language::Cuda => Some("cu"),
        Language::CudaFE | Language::Ptx | Language::Cubin => None,
    }
}

/// The language that the option `-x` names.
pub fn language_from_gcc_arg(name: &str) -> Option<Language>
    ensures { result ≡ language_named name.now }
{
    match name {
        "c" => Some(Language::C),
        "c++" => Some(Language::Cxx),
        "objective-c" => Some(Language::ObjectiveC),
        "objective-c++" => Some(Language::ObjectiveCxx),
        "cu" | "cuda" => Some(Language::Cuda),
        _ => None,
    }
}

/// Puts the option `-x` and the language's name last, if it has a name. On an error the words stay as
/// they were.
pub fn push_language(alloc: Global, words: &mut Words, language: Language) -> Result<(), AllocError>
    ensures ok { OnOk result (words.new ≡ words.old ++ language_words language) }
    ensures err { OnErr result (words.new ≡ words.old) }
{
    let Some(name) = language_to_gcc_arg(language) else {
        return Ok(());
    };
    words.push_pair(alloc, "-x", name)
}
