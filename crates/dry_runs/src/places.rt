//! The places of variables in an environment, found by the beginnings of their names.

ghost use Rattle.std.specs.Prelude.{◌≡◌, OnErr, OnOk, chars};
ghost use Rattle.std.specs.List.{prefix_len};
ghost use Rattle.dry_runs.specs.Environment as environment;
ghost use Rattle.dry_runs.specs.Places as spec;
ghost use Rattle.dry_runs.specs.Places.{places_seen};

use crate::environment::{begins_otherwise, is_name_byte};
use std::alloc::{AllocError, Global};
use std::collections::HashMap;

// How many bytes of a name a text begins with.
fn name_len(text: &[u8]) -> usize
    ensures { result ≡ prefix_len environment.is_name_byte text.now }
{
    let mut len = 0;
    for byte in text {
        if !is_name_byte(*byte) {
            return len;
        }
        len += 1;
    }
    len
}

// The bytes of a name that a text begins with, and what follows them.
pub(crate) fn name_cut(text: &str) -> (&str, &str)
    ensures front { result.0.now ≡ spec.beginning text.now }
    ensures behind { result.1.now ≡ spec.behind_beginning text.now }
{
    text.split_at(name_len(text.as_bytes()))
}

// Whether a reference to a name of such bytes alone can begin a text: no word character follows them.
pub(crate) fn ends_a_name(text: &str) -> bool
    ensures { result ≡ environment.begins_otherwise (chars (spec.behind_beginning text.now)) }
{
    begins_otherwise(name_cut(text).1)
}

/// The places of variables, in ascending order for each beginning of their names. Contracts see the function from a
/// beginning to its places.
#[derive(Drop)]
pub struct NamePlaces {
    places: HashMap<String, Vec<usize>>,
}

impl NamePlaces {
    /// No places.
    pub fn new(alloc: Global) -> NamePlaces
        ensures { places_seen result ≡ spec.no_places }
    {
        NamePlaces {
            places: HashMap::new(alloc),
        }
    }

    /// Notes that the variable of a name stands at `place`. On an error nothing is noted.
    pub fn add(&mut self, alloc: Global, name: &str, place: usize) -> Result<(), AllocError>
        ensures ok { OnOk result (places_seen self.new ≡ spec.with_place (places_seen self.old) (spec.beginning name.now) place) }
        ensures err { OnErr result (places_seen self.new ≡ places_seen self.old) }
    {
        let start = String::from_str(alloc, name_cut(name).0)?;
        self.places.entry(start)?.or_default().push(place)?;
        Ok(())
    }

    /// The places of the variables whose names begin with the same bytes of a name as `text`.
    pub fn of(&self, text: &str) -> &[usize]
        ensures { result.now ≡ places_seen self.now (spec.beginning text.now) }
    {
        match self.places.get(name_cut(text).0) {
            None => &[],
            Some(places) => places.as_slice(),
        }
    }
}
