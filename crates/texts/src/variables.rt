//! The environment that a command runs in.

ghost use Rattle.std.specs.Prelude.{◌≡◌, ◌∷◌, [], ◌++◌, ◌==◌, List, ℕ, map, length, IfOk, OnOk, OnErr, string_bytes, option_copied};
ghost use Rattle.std.specs.Slice.Iter.{iter_rest};
ghost use Rattle.texts.specs.Variables as spec;
ghost use Rattle.texts.specs.Variables.{pair_of, held_pairs};

use std::alloc::{AllocError, Global};
use std::marker::Model;
use std::sync::Arc;
use std::{fmt, slice};

// The pairs of a list.
#[derive(Drop)]
enum Pairs {
    // Held by one list.
    Own(Vec<(String, String)>),
    // Held by a list and its copies together.
    Shared(Arc<Vec<(String, String)>>),
}

/// A list of environment variables that a record holds, each a name and its value, in order. A name
/// may occur twice. Contracts see the list of pairs of texts.
///
/// `from_vec` doesn't allocate. A list can share its pairs with its copies: see `share`.
#[derive(Drop)]
pub struct Variables {
    pairs: Pairs,
}

impl Model for Variables {
    ghost Value = { List (List ℕ × List ℕ) };

    ghost view = { λ v. map pair_of (held_pairs v.pairs) };
}

impl Variables {
    /// No variables.
    pub fn new(alloc: Global) -> Variables
        ensures { result ≡ [] }
    {
        Variables::from_vec(Vec::new(alloc))
    }

    /// Holds the pairs of `pairs`.
    pub fn from_vec(pairs: Vec<(String, String)>) -> Variables
        ensures { result ≡ map pair_of pairs.items }
    {
        Variables {
            pairs: Pairs::Own(pairs),
        }
    }

    /// The pairs of name and value as a slice.
    pub fn as_slice(&self) -> &[(String, String)]
        ensures { map pair_of result.now ≡ self.now }
    {
        match &self.pairs {
            Pairs::Own(pairs) => pairs.as_slice(),
            Pairs::Shared(pairs) => pairs.as_slice(),
        }
    }

    /// The pairs as a `Vec`. It copies pairs that another list shares, which may fail. Otherwise it doesn't allocate and
    /// never fails; no clause says so.
    pub fn into_vec(self) -> Result<Vec<(String, String)>, AllocError>
        ensures { IfOk result (λ pairs. map pair_of pairs.items ≡ self) }
    {
        match self.pairs {
            Pairs::Own(pairs) => Ok(pairs),
            Pairs::Shared(pairs) => {
                let own = Arc::unwrap_or_clone(pairs)?;
                Ok(own)
            }
        }
    }

    /// An equal list that shares its pairs with its copies, so that `try_clone` doesn't allocate. `push` and `into_vec`
    /// copy the pairs first if another list still shares them.
    pub fn share(self, alloc: Global) -> Result<Variables, AllocError>
        ensures { IfOk result (λ v. v ≡ self) }
    {
        let pairs = match self.pairs {
            Pairs::Own(pairs) => Arc::new(alloc, pairs)?,
            Pairs::Shared(pairs) => pairs,
        };
        Ok(Variables {
            pairs: Pairs::Shared(pairs),
        })
    }

    /// How many variables there are.
    pub fn len(&self) -> usize
        ensures { result ≡ length self.now }
    {
        self.as_slice().len()
    }

    /// Whether there are no variables.
    pub fn is_empty(&self) -> bool
        ensures { result ≡ (length self.now == 0) }
    {
        self.as_slice().is_empty()
    }

    /// Each pair of name and value, in order.
    pub fn iter(&self) -> slice::Iter<'_, (String, String)>
        ensures { map pair_of (iter_rest result) ≡ self.now }
    {
        self.as_slice().iter()
    }

    /// Appends the pair of `name` and `value`. On an error the pairs are unchanged.
    pub fn push(&mut self, name: String, value: String) -> Result<(), AllocError>
        ensures ok { OnOk result (self.new ≡ self.old ++ (string_bytes name, string_bytes value) ∷ []) }
        ensures err { OnErr result (self.new ≡ self.old) }
    {
        let pair = (name, value);
        match &mut self.pairs {
            Pairs::Own(pairs) => pairs.push(pair)?,
            // The other lists keep their pairs.
            Pairs::Shared(pairs) => Arc::make_mut(pairs)?.push(pair)?,
        }
        Ok(())
    }

    /// A list equal to `pairs`, in memory of its own.
    pub fn copy_of(alloc: Global, pairs: &[(String, String)]) -> Result<Variables, AllocError>
        ensures { IfOk result (λ v. v ≡ map pair_of pairs.now) }
    {
        let mut copy = Vec::with_capacity(alloc, pairs.len())?;
        for pair in pairs {
            let name = String::from_str(alloc, pair.0.as_str())?;
            let value = String::from_str(alloc, pair.1.as_str())?;
            copy.push((name, value))?;
        }
        Ok(Variables::from_vec(copy))
    }

    /// An equal list, in memory of its own, or of pairs that both share if this one shares its pairs.
    pub fn try_clone(&self, alloc: Global) -> Result<Variables, AllocError>
        ensures { IfOk result (λ v. v ≡ self.now) }
    {
        match &self.pairs {
            Pairs::Own(pairs) => Variables::copy_of(alloc, pairs.as_slice()),
            Pairs::Shared(pairs) => Ok(Variables {
                pairs: Pairs::Shared(Arc::try_clone(pairs)?),
            }),
        }
    }
}

/// The value of the first of `pairs` whose name is `name`. `None` if no pair has that name.
pub fn first_value<'a>(pairs: &'a [(String, String)], name: &str) -> Option<&'a str>
    ensures { option_copied result ≡ spec.first_value name.now (map pair_of pairs.now) }
{
    for pair in pairs {
        if name == pair.0.as_str() {
            return Some(pair.1.as_str());
        }
    }
    None
}

impl fmt::Debug for Variables {
    fn fmt<W: fmt::Write>(&self, f: &mut fmt::Formatter<W>) -> fmt::Result {
        f.debug_struct("Variables")
            .field("pairs", &self.as_slice())
            .finish()
    }
}

impl<'a> IntoIterator for &'a Variables {
    type Item = &'a (String, String);

    type IntoIter = slice::Iter<'a, (String, String)>;

    ghost into_iter_gives = { λ variables it. map pair_of (iter_rest it) ≡ variables.now };

    fn into_iter(self) -> Self::IntoIter {
        self.iter()
    }
}

impl PartialEq for Variables {
    ghost use Rattle.std.specs.Prelude.{nat_eq};
    ghost use Rattle.std.specs.Cmp.Lexicographic.{pointwise};
    ghost use Rattle.std.specs.Cmp.Rules.{comparing};
    ghost use Rattle.std.specs.Ordering.{on, eq_of_both};
    ghost use Rattle.std.proofs.Common.{rules};

    ghost eq = { pointwise (eq_of_both (on (λ p. p.0) (pointwise nat_eq)) (on (λ p. p.1) (pointwise nat_eq))) };

    ghost laws = { Prim.search (comparing, rules) };

    fn eq(&self, other: &Variables) -> bool {
        self.as_slice() == other.as_slice()
    }
}
