//! The files that a command makes.

ghost use Rattle.std.specs.Prelude.{◌≡◌, ◌==◌, [], map, length, nat_eq, IfOk, OnOk, OnErr, option_copied};

use std::alloc::{AllocError, Global};
use std::collections::{BTreeMap, btree_map};
use std::marker::Model;
use texts::text::Text;

/// One file that a command makes: its path, and whether the command may leave it out.
#[derive(Debug, PartialEq, Drop)]
pub struct ArtifactDescriptor {
    /// The path, as the line gives it.
    pub path: Text,
    /// Whether the command may leave the file out.
    pub optional: bool,
}

impl ArtifactDescriptor {
    /// An equal descriptor, in memory of its own.
    pub fn try_clone(&self, alloc: Global) -> Result<ArtifactDescriptor, AllocError>
        ensures { IfOk result (λ d. d ≡ self.now) }
    {
        Ok(ArtifactDescriptor {
            path: self.path.try_clone(alloc)?,
            optional: self.optional,
        })
    }
}

/// The key of the file that a command is run for.
pub const OBJ: &str = "obj";

/// The files that a command makes, each by its key: `OBJ` for the one that it is run for, `d` for
/// the dependency file, else the option that names it. Contracts see the entries in the order of
/// their keys' bytes.
///
/// They are made of a `BTreeMap` and give it back without memory.
#[derive(Debug, Drop)]
pub struct Outputs {
    files: BTreeMap<&'static str, ArtifactDescriptor>,
}

impl Model for Outputs {
    ghost use Rattle.std.specs.Prelude.{List, ℕ, map};
    ghost use Rattle.compilers.specs.declared.outputs.ArtifactDescriptor.{ArtifactDescriptor};
    ghost use Rattle.compilers.specs.Outputs.{entry_of};

    ghost Value = { List (List ℕ × ArtifactDescriptor) };

    ghost view = { λ o. map entry_of o.files.entries };
}

impl Outputs {
    ghost use Rattle.compilers.specs.Outputs.{with_entry, entry_at, entry_of};

    /// No files.
    pub fn new(alloc: Global) -> Outputs
        ensures { result ≡ [] }
    {
        Outputs {
            files: BTreeMap::new(alloc),
        }
    }

    /// Holds the files of `files`, each by its key.
    pub fn from_map(files: BTreeMap<&'static str, ArtifactDescriptor>) -> Outputs
        ensures { result ≡ map entry_of files.entry.entries }
    {
        Outputs { files }
    }

    /// Gives the map back.
    pub fn into_map(self) -> BTreeMap<&'static str, ArtifactDescriptor>
        ensures { map entry_of result.entries ≡ self }
    {
        self.files
    }

    /// How many files there are.
    pub fn len(&self) -> usize
        ensures { result ≡ length self.now }
    {
        self.files.len()
    }

    /// Whether there are no files.
    pub fn is_empty(&self) -> bool
        ensures { result ≡ (length self.now == 0) }
    {
        self.files.is_empty()
    }

    /// Each file with its key, in the order of the keys' bytes.
    pub fn iter(&self) -> Iter<'_>
        ensures { result ≡ self.now }
    {
        Iter {
            files: self.files.iter(),
        }
    }

    /// Records `output` under `key`, in place of an earlier one. On an error the outputs are unchanged.
    pub fn insert(
        &mut self,
        key: &'static str,
        output: ArtifactDescriptor,
    ) -> Result<(), AllocError>
        ensures ok { OnOk result (self.new ≡ with_entry self.old (key.now, output)) }
        ensures err { OnErr result (self.new ≡ self.old) }
    {
        self.files.insert(key, output)?;
        Ok(())
    }

    /// The file under `key`.
    pub fn get(&self, key: &str) -> Option<&ArtifactDescriptor>
        ensures { option_copied result ≡ entry_at key.now self.now }
    {
        self.files.get(key)
    }

    /// Equal files, in memory of their own.
    pub fn try_clone(&self, alloc: Global) -> Result<Outputs, AllocError>
        ensures { IfOk result (λ o. o ≡ self.now) }
    {
        let mut copy = Outputs::new(alloc);
        for (key, output) in self.files.iter() {
            copy.insert(key, output.try_clone(alloc)?)?;
        }
        Ok(copy)
    }
}

impl<'a> IntoIterator for &'a Outputs {
    type Item = (&'a str, &'a ArtifactDescriptor);

    type IntoIter = Iter<'a>;

    ghost into_iter_gives = { λ outputs it. it ≡ outputs.now };

    fn into_iter(self) -> Self::IntoIter {
        self.iter()
    }
}

/// The files of `Outputs` that are still to come, each with its key. Contracts see the list of them.
#[derive(Drop)]
pub struct Iter<'a> {
    files: btree_map::Iter<'a, &'static str, ArtifactDescriptor>,
}

impl<'a> Model for Iter<'a> {
    ghost use Rattle.std.specs.Prelude.{List, ℕ, map};
    ghost use Rattle.compilers.specs.declared.outputs.ArtifactDescriptor.{ArtifactDescriptor};
    ghost use Rattle.compilers.specs.Outputs.{entry_of};

    ghost Value = { List (List ℕ × ArtifactDescriptor) };

    ghost view = { λ it. map entry_of it.files };
}

impl<'a> Iterator for Iter<'a> {
    ghost use Rattle.std.specs.Iterator.{YieldsFirstBy, item_count};

    type Item = (&'a str, &'a ArtifactDescriptor);

    ghost next_gives = { YieldsFirstBy (λ p. (p.0.now, p.1.now)) (λ it. it) };

    ghost remaining = { item_count (λ it. it) };

    fn next(&mut self) -> Option<(&'a str, &'a ArtifactDescriptor)> {
        let (key, output) = self.files.next()?;
        Some((*key, output))
    }
}

impl PartialEq for Outputs {
    ghost use Rattle.std.specs.Bool.{beq};
    ghost use Rattle.std.specs.Ordering.{on, eq_of_both};
    ghost use Rattle.std.specs.Cmp.Lexicographic.{pointwise};
    ghost use Rattle.std.specs.Cmp.Rules.{comparing};
    ghost use Rattle.std.proofs.Common.{rules};

    ghost eq = { pointwise (eq_of_both (on (λ e. e.0) (pointwise nat_eq))
        (on (λ e. e.1) (eq_of_both (on (λ d. d.path) (pointwise nat_eq)) (on (λ d. d.optional) beq)))) };

    ghost laws = { Prim.search (comparing, rules) depth 9 };

    fn eq(&self, other: &Outputs) -> bool {
        self.files == other.files
    }
}
