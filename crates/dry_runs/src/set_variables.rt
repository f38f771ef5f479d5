//! The variables that environment lines set, found by their names.

ghost use Rattle.std.specs.Prelude.{◌≡◌, ◌∷◌, [], ◌++◌, ◌&&◌, ◌<◌, ◌≤◌, ℕ, Some, fold, drop, length, map, codes, IfSome, MatchOption, OnErr, OnOk, string_bytes};
ghost use Rattle.texts.specs.Variables.{pair_of};
ghost use Rattle.std.specs.List.{list_all};
ghost use Rattle.dry_runs.specs.Environment.{is_name_byte};
ghost use Rattle.dry_runs.specs.Limit as limit;
ghost use Rattle.dry_runs.specs.Places as spec;
ghost use Rattle.compilers.specs.Replacing as replacing;

use crate::environment::{begins_otherwise, behind_name, is_of_name_bytes, parted};
use crate::places::{NamePlaces, ends_a_name};
use std::alloc::{AllocError, Global};
use std::marker::Model;
use texts::variables::Variables;

/// The variables that the lines of a dry run set so far, each a name and its value, in order. A name may occur twice.
/// Contracts see the list of pairs of texts, as for `Variables`.
///
/// It also knows where each name stands, so that expanding a text doesn't pass over all variables.
#[derive(Drop)]
pub struct SetVariables {
    pairs: Vec<(String, String)>,
    places: NamePlaces,
    // Whether all names are made of the bytes of a name alone, as those of environment lines are.
    is_plain: bool,
}

impl Model for SetVariables {
    ghost use Rattle.std.specs.Prelude.{◌≡◌, List, ℕ, map};
    ghost use Rattle.texts.specs.Variables.{pair_of};
    ghost use Rattle.dry_runs.specs.Places.{are_plain, places_from, places_seen};

    ghost Value = { List (List ℕ × List ℕ) };

    ghost view = { λ s. map pair_of s.pairs.items };

    ghost invariant = { λ s. (places_seen s.places ≡ places_from 0 (map pair_of s.pairs.items)) × (s.is_plain ≡ are_plain (map pair_of s.pairs.items)) };
}

// Whether all names are plain, with one more.
fn stays_plain(is_plain: bool, name: &str) -> bool
    ensures { result ≡ (is_plain && list_all is_name_byte name.now) }
{
    is_plain && is_of_name_bytes(name.as_bytes())
}

// A variable that a text refers to, and the place behind it.
#[derive(Clone, Copy)]
pub(crate) struct Reference<'a> {
    pub(crate) name: &'a str,
    pub(crate) value: &'a str,
    pub(crate) next: usize,
}

impl SetVariables {
    /// No variables.
    pub fn new(alloc: Global) -> SetVariables
        ensures { result ≡ [] }
    {
        SetVariables {
            pairs: Vec::new(alloc),
            places: NamePlaces::new(alloc),
            is_plain: true,
        }
    }

    /// The pairs of name and value as a slice.
    pub fn as_slice(&self) -> &[(String, String)]
        ensures { map pair_of result.now ≡ self.now }
    {
        self.pairs.as_slice()
    }

    /// The pairs as a list that a record holds. It doesn't allocate.
    pub fn into_variables(self) -> Variables
        ensures { result ≡ self }
    {
        Variables::from_vec(self.pairs)
    }

    /// Appends the pair of `name` and `value`. On an error the pairs are unchanged.
    pub fn push(&mut self, alloc: Global, name: String, value: String) -> Result<(), AllocError>
        ensures ok { OnOk result (self.new ≡ self.old ++ (string_bytes name, string_bytes value) ∷ []) }
        ensures err { OnErr result (self.new ≡ self.old) }
    {
        let place = self.pairs.as_slice().len();
        self.pairs.reserve(1)?;
        self.places.add(alloc, name.as_str(), place)?;
        let is_plain = stays_plain(self.is_plain, name.as_str());
        self.pairs.push_reserved((name, value));
        self.is_plain = is_plain;
        Ok(())
    }

    // Whether the text behind a `$` refers to the variable at a place: its name ends there.
    fn follows_at(&self, after: &str, place: usize) -> bool
        ensures { result ≡ spec.follows_at self.now after.now place }
    {
        match self.pairs.as_slice().get(place) {
            None => false,
            Some(pair) => match behind_name(after, pair.0.as_str()) {
                None => false,
                Some(behind) => begins_otherwise(behind),
            },
        }
    }

    // The first of some places, which rise, of a variable from `from` on that the text behind a `$` refers to. If that
    // isn't below `bound`, it is `bound`.
    fn first_of(&self, places: &[usize], from: usize, after: &str, bound: usize) -> usize
        ensures { result ≡ spec.first_below (spec.follows_from from self.now after.now) bound places.now }
    {
        for place in places {
            if bound <= *place {
                return bound;
            }
            if from <= *place && self.follows_at(after, *place) {
                return *place;
            }
        }
        bound
    }

    // The same, of the places of all variables. If their names are plain, the text has to end a name: else none of them is
    // tried, however often a name was set.
    fn first_place(&self, from: usize, after: &str, bound: usize) -> usize
        ensures { result ≡ spec.first_below (spec.follows_from from self.now after.now) bound (spec.places_from 0 self.now (spec.beginning after.now)) }
    {
        if self.is_plain && !ends_a_name(after) {
            return bound;
        }
        self.first_of(self.places.of(after), from, after, bound)
    }

    // The place of the first variable from `from` on that a text refers to, or the number of variables. A `$` that refers
    // to the variable at `from` ends the search, since no place before it counts.
    fn first_referred(&self, from: usize, text: &str) -> usize
        ensures { spec.IsFirstReferred self.now from text.now result }
    {
        let mut place = self.pairs.len();
        let mut rest = text;
        while let Some((_, after)) = parted(rest, '$') {
            place = self.first_place(from, after, place);
            if place <= from {
                return place;
            }
            rest = after;
        }
        place
    }

    // The first variable from `from` on that a text refers to.
    pub(crate) fn first_reference(&self, from: usize, text: &str) -> Option<Reference<'_>>
        ensures found { MatchOption result
            ((left : ℕ) → fold limit.expanded_fitting (Some (left, text.now)) (drop from self.now) ≡ Some (left, text.now))
            (λ r. (left : ℕ) → fold limit.expanded_fitting (Some (left, text.now)) (drop from self.now)
            ≡ fold limit.expanded_fitting (limit.made left (replacing.replaced (codes "$" ++ r.name.now) r.value.now text.now)) (drop r.next self.now)) }
        ensures later { IfSome result (λ r. from < r.next) }
        ensures within { IfSome result (λ r. r.next ≤ length self.now) }
    {
        let place = self.first_referred(from, text);
        match self.pairs.as_slice().get(place) {
            None => None,
            Some(pair) => Some(Reference {
                name: pair.0.as_str(),
                value: pair.1.as_str(),
                next: place + 1,
            }),
        }
    }
}
