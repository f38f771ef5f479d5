//! Clean runs: only generated words contain generated names.

ghost use Rattle.std.specs.Prelude.{◌≡◌, map, string_bytes};
ghost use Rattle.std.specs.List.{list_any, list_all, filter_map};
ghost use Rattle.compilers.specs.CommandLines.{line_seen};
ghost use Rattle.canonical_names.specs.Alike as spec;
ghost use Rattle.canonical_names.specs.Generated as generated;
ghost use Rattle.canonical_names.specs.Renaming.{names_of_run};
ghost use Rattle.canonical_names.specs.Appearances.{appearances};

use crate::references::holds;
use crate::suffixes::Suffixes;
use compilers::dry_run::DryRun;

// Whether a text contains a generated name of a command.
fn holds_name_of(text: &str, words: &[String], suffixes: &Suffixes) -> bool
    ensures { result
        ≡ list_any (λ n. spec.holds n text.now) (filter_map (generated.generated_name suffixes.now) (map string_bytes words.now)) }
{
    for word in words {
        match suffixes.generated_name(word.as_str()) {
            Some(name) if holds(text, name) => return true,
            _ => {}
        }
    }
    false
}

fn holds_name(text: &str, commands: &[(usize, String, Vec<String>)], suffixes: &Suffixes) -> bool
    ensures { result ≡ list_any (λ n. spec.holds n text.now) (appearances suffixes.now (map line_seen commands.now)) }
{
    for command in commands {
        if holds_name_of(text, command.2.as_slice(), suffixes) {
            return true;
        }
    }
    false
}

// Whether a word is generated, or contains no generated name of a run. Every name ends in a suffix, so a word without
// any suffix contains no name.
fn is_clean_word(word: &str, commands: &[(usize, String, Vec<String>)], suffixes: &Suffixes) -> bool
    ensures { result ≡ spec.is_clean_word suffixes.now (names_of_run suffixes.now (map line_seen commands.now)) word.now }
{
    if suffixes.generated_name(word).is_some() {
        return true;
    }
    if !suffixes.stand_in(word) {
        return true;
    }
    !holds_name(word, commands, suffixes)
}

fn are_clean_words(
    words: &[String],
    commands: &[(usize, String, Vec<String>)],
    suffixes: &Suffixes,
) -> bool
    ensures { result ≡ list_all (spec.is_clean_word suffixes.now (names_of_run suffixes.now (map line_seen commands.now))) (map string_bytes words.now) }
{
    words
        .iter()
        .all(|word| is_clean_word(word.as_str(), commands, suffixes))
}

fn are_clean(commands: &[(usize, String, Vec<String>)], suffixes: &Suffixes) -> bool
    ensures { result ≡ spec.is_clean suffixes.now (map line_seen commands.now) }
{
    commands.iter().all(|command| are_clean_words(command.2.as_slice(), commands, suffixes))
}

/// Whether a run is clean: each of its words is generated, or contains no generated name of any command of the
/// run. The laws of canonical names are about clean runs.
pub fn is_clean(run: &DryRun, suffixes: &Suffixes) -> bool
    ensures { result ≡ spec.is_clean suffixes.now run.now.commands }
{
    are_clean(run.commands.as_slice(), suffixes)
}
