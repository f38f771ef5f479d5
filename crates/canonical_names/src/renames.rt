//! The canonical names of generated files.

ghost use Rattle.std.specs.Prelude.{◌≡◌, ◌⊎◌, ◌<◌, ◌∷◌, [], ◌++◌, ⊤, map, length, codes, IfOk, OnOk, OnErr, MatchOption, Some, None, if◌then◌else◌, false, true, ◌^◌, ◌==◌, IsTrue, string_bytes, bytes_eq};
ghost use Rattle.std.specs.List.{list_any, slice_get};
ghost use Rattle.texts.specs.Lists.{with_name};
ghost use Rattle.texts.specs.Path.{joined, folder_of};
ghost use Rattle.texts.specs.Variables.{pair_of};
ghost use Rattle.canonical_names.specs.Generated as generated;
ghost use Rattle.canonical_names.specs.Counted.{decimal_file, with_canonical, IsCount};
ghost use Rattle.canonical_names.specs.Renaming as spec;

use crate::references::rewrite;
use crate::suffixes::Suffixes;
use crate::words::{begins_with_dash, is_marked};
use indexmap::IndexMap;
use indexmap::map::Iter;
use std::alloc::{AllocError, Global};
use std::marker::Model;
use texts::text::{folder, join};

/// The generated names of a run that were seen so far, and their canonical names.
///
/// Clauses see a pair: the list of suffixes, which no call changes, and the names in order of first appearance.
#[derive(Drop)]
pub struct Renames {
    suffixes: Suffixes,
    // Each name that was seen, with its canonical name.
    names: IndexMap<String, String>,
    // For each suffix the number of names that end in it.
    counts: Vec<usize>,
}

impl Model for Renames {
    ghost use Rattle.std.specs.Prelude.{List, ℕ, map};
    ghost use Rattle.texts.specs.Variables.{pair_of};
    ghost use Rattle.canonical_names.specs.Counted.{old_names, IsCounted};

    ghost Value = { List (List ℕ) × List (List ℕ) };

    ghost view = { λ r. (r.suffixes, old_names (map pair_of r.names.entries)) };

    ghost invariant = { λ r. IsCounted r.suffixes (old_names (map pair_of r.names.entries)) (map pair_of r.names.entries) r.counts.items };
}

// The canonical name of a name: in the same folder, `x_`, a number and the suffix.
fn canonical_name(
    alloc: Global,
    name: &str,
    number: usize,
    suffix: &str,
) -> Result<String, AllocError>
    ensures { IfOk result (λ t. string_bytes t ≡ joined (folder_of name.now) (decimal_file number suffix.now)) }
{
    // `x_`, at most twenty digits and the suffix.
    let mut file = String::with_capacity(alloc, suffix.len().saturating_add(22))?;
    write!(file, "x_{number}{suffix}")?;
    let folder = folder(name);
    if folder.is_empty() {
        return Ok(file);
    }
    join(alloc, folder, file.as_str())
}

impl Renames {
    /// No names, and a copy of the list of suffixes.
    pub fn new(alloc: Global, suffixes: &Suffixes) -> Result<Renames, AllocError>
        ensures { IfOk result (λ r. r ≡ (suffixes.now, [])) }
    {
        suffixes.keeps_the_rule();
        let counts = vec![in alloc; 0; suffixes.len()]?;
        let suffixes = suffixes.try_clone(alloc)?;
        let names = IndexMap::new(alloc);
        Ok(Renames {
            suffixes,
            names,
            counts,
        })
    }

    /// How many names were seen.
    pub fn len(&self) -> usize
        ensures { result ≡ length self.now.1 }
    {
        self.names.len()
    }

    /// Whether no name was seen.
    pub fn is_empty(&self) -> bool
        ensures { result ≡ (length self.now.1 == 0) }
    {
        self.len() == 0
    }

    /// Each name that was seen, with its canonical name, in order of first appearance.
    pub fn iter(&self) -> Iter<'_, String, String>
        ensures { map pair_of result ≡ map (with_canonical self.now.0 self.now.1) self.now.1 }
    {
        self.names.iter()
    }

    // Whether a word surely stays as it is: it doesn't begin with `-Fi`, and contains no suffix, so no name either.
    pub(crate) fn keep(&self, word: &str) -> bool
        ensures word { IsTrue result → spec.renamed_word self.now.0 self.now.1 word.now ≡ word.now }
        ensures names { IsTrue result → spec.seen_after_word self.now.0 self.now.1 word.now ≡ self.now.1 }
    {
        if is_marked(word) {
            return false;
        }
        if self.suffixes.stand_in(word) {
            return false;
        }
        true
    }

    // The index of the suffix of a word's core. The core is a name if it ends in a suffix and doesn't begin with `-`.
    pub(crate) fn class(&self, text: &str) -> Option<usize>
        ensures none { MatchOption result ((if generated.begins_with_dash text.now then None else generated.class_of_name self.now.0 text.now) ≡ None)
            (λ i. (if generated.begins_with_dash text.now then None else generated.class_of_name self.now.0 text.now) ≡ slice_get self.now.0 i) }
        ensures within { MatchOption result ⊤ (λ i. i < length self.now.0) }
        ensures name { MatchOption result ⊤ (λ i. generated.class_of_name self.now.0 text.now ≡ slice_get self.now.0 i) }
    {
        if begins_with_dash(text) {
            None
        } else {
            self.suffixes.class(text)
        }
    }

    // The canonical name of a name that ends in the suffix at the index `class`.
    pub(crate) fn canonical(
        &mut self,
        alloc: Global,
        name: &str,
        class: usize,
    ) -> Result<String, AllocError>
        requires within { class < length self.old.0 }
        requires class { generated.class_of_name self.old.0 name.now ≡ slice_get self.old.0 class }
        ensures name { IfOk result (λ t. string_bytes t ≡ spec.canonical_name self.old.0 self.old.1 name.now) }
        ensures names { OnOk result (self.new ≡ (self.old.0, with_name self.old.1 (Some name.now))) }
        ensures err { OnErr result (self.new ≡ self.old) }
    {
        if let Some(known) = self.names.get(name) {
            return String::from_str(alloc, known.as_str());
        }
        self.add(alloc, name, class)
    }

    // Adds a name that wasn't seen, and gives its canonical name. On an error the map and the counters are unchanged.
    fn add(&mut self, alloc: Global, name: &str, class: usize) -> Result<String, AllocError>
        requires within { class < length self.old.0 }
        requires class { generated.class_of_name self.old.0 name.now ≡ slice_get self.old.0 class }
        requires absent { list_any (bytes_eq name.now) self.old.1 ≡ false }
        ensures name { IfOk result (λ t. string_bytes t ≡ spec.canonical_name self.old.0 self.old.1 name.now) }
        ensures names { OnOk result (self.new ≡ (self.old.0, self.old.1 ++ name.now ∷ [])) }
        ensures err { OnErr result (self.new ≡ self.old) }
    {
        let number = self.count(class);
        let suffix = self.suffixes.get(class).unwrap_or("");
        let canonical = canonical_name(alloc, name, number, suffix)?;
        let answer = String::from_str(alloc, canonical.as_str())?;
        let key = String::from_str(alloc, name)?;
        self.put(key, canonical, class)?;
        Ok(answer)
    }

    fn count(&self, class: usize) -> usize
        requires { class < length self.now.0 }
        ensures value { IsCount self.now.0 self.now.1 class result }
        ensures small { result < 2 ^ 63 }
    {
        let count = self.counts[class];
        // A counter never exceeds the number of names.
        let fits = count <= self.names.len();
        prove!(fits);
        count
    }

    // Adds a new name. On an error the map and the counters are unchanged.
    fn put(&mut self, name: String, canonical: String, class: usize) -> Result<(), AllocError>
        requires within { class < length self.old.0 }
        requires class { generated.class_of_name self.old.0 (string_bytes name) ≡ slice_get self.old.0 class }
        requires absent { list_any (bytes_eq (string_bytes name)) self.old.1 ≡ false }
        requires canonical { string_bytes canonical ≡ spec.canonical_name self.old.0 self.old.1 (string_bytes name) }
        ensures names { OnOk result (self.new ≡ (self.old.0, self.old.1 ++ string_bytes name ∷ [])) }
        ensures err { OnErr result (self.new ≡ self.old) }
    {
        let count = self.count(class);
        self.names.insert(name, canonical)?;
        self.counts[class] = count + 1;
        Ok(())
    }

    // A text with each name that was seen replaced by its canonical name, the longest name first. Every name ends in
    // a suffix, so a text without any suffix contains no name.
    pub(crate) fn rewritten(&self, alloc: Global, text: &str) -> Result<String, AllocError>
        ensures { IfOk result (λ t. string_bytes t ≡ spec.rewritten self.now.0 self.now.1 text.now) }
    {
        if !self.suffixes.stand_in(text) {
            return String::from_str(alloc, text);
        }
        rewrite(alloc, &self.names, text)
    }
}
