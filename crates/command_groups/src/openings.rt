//! The device groups that preprocess steps opened, and the files that the commands in them make.

ghost use Rattle.std.specs.Prelude.{◌≡◌, ◌<◌, ◌^◌, ℕ, List, [], length, IfOk, OnOk, bytes_eq};
ghost use Rattle.indexmap.specs.IndexMap.{insert_entry};
ghost use Rattle.command_groups.specs.Openings.{opening_at, opening_of, number_of, is_live as is_live_at, first_live as first_live_of, with_file};
ghost use Rattle.command_groups.specs.Views.{made_seen};

use indexmap::IndexMap;
use std::alloc::{AllocError, Global};
use std::collections::HashMap;
use std::marker::Model;

/// An opening of a device group. A group that is opened again has a new opening, and its number stays.
#[derive(Clone, Copy)]
pub struct Opening {
    /// The group's number, from 0 by first appearance of the names.
    pub number: usize,
    /// The place, in the list of labelled commands, of the step that opened it.
    pub step: usize,
}

/// The names that device groups were opened by, in order of first appearance, each with the place of the step that
/// opened it last. Contracts see the list of names and places.
#[derive(Drop)]
pub struct OpenedNames {
    steps: IndexMap<String, usize>,
}

impl Model for OpenedNames {
    ghost use Rattle.std.specs.Prelude.{List, ℕ, map};
    ghost use Rattle.command_groups.specs.Openings.{entry_seen};

    ghost Value = { List (List ℕ × ℕ) };

    ghost view = { λ o. map entry_seen o.steps.entries };
}

impl OpenedNames {
    /// No names.
    pub fn new(alloc: Global) -> OpenedNames
        ensures { result ≡ [] }
    {
        OpenedNames {
            steps: IndexMap::new(alloc),
        }
    }

    /// How many names there are.
    pub fn len(&self) -> usize
        ensures len { result ≡ length self.now }
        ensures small { result < 2 ^ 63 }
    {
        self.steps.len()
    }

    /// Notes that the step at place `step` opens the group of `name`, for the first time or again.
    pub fn open(&mut self, alloc: Global, name: &str, step: usize) -> Result<Opening, AllocError>
        ensures opened { OnOk result (self.new ≡ insert_entry bytes_eq self.old name.now step) }
        ensures opening { IfOk result (λ o. o ≡ opening_at (number_of self.old name.now) step) }
    {
        let name = String::from_str(alloc, name)?;
        let (number, _) = self.steps.insert_full(name, step)?;
        Ok(Opening { number, step })
    }

    /// The last opening of the group of a name, if it was ever opened.
    pub fn opening(&self, name: &str) -> Option<Opening>
        ensures { result ≡ opening_of self.now name.now }
    {
        let (number, _, step) = self.steps.get_full(name)?;
        Some(Opening {
            number,
            step: *step,
        })
    }

    /// Whether an opening is the last one of its group.
    pub fn is_live(&self, opening: Opening) -> bool
        ensures { result ≡ is_live_at self.now opening }
    {
        matches!(self.steps.get_index(opening.number), Some((_, step)) if *step == opening.step)
    }

    /// Of the openings that are the last ones of their groups, that of the lowest number.
    pub fn first_live(&self, openings: &[Opening]) -> Option<Opening>
        ensures { result ≡ first_live_of self.now openings.now }
    {
        let mut first: Option<Opening> = None;
        for opening in openings {
            if self.is_live(*opening) {
                first = match first {
                    Some(lower) if lower.number <= opening.number => Some(lower),
                    _ => Some(*opening),
                };
            }
        }
        first
    }
}

/// The files that cicc commands make, each with the openings of the groups of these commands. Contracts see the function
/// from a path to its openings, in order.
#[derive(Drop)]
pub struct MadeFiles {
    openings: HashMap<String, Vec<Opening>>,
}

impl MadeFiles {
    /// No files.
    pub fn new(alloc: Global) -> MadeFiles
        ensures { (path : List ℕ) → made_seen result path ≡ [] }
    {
        MadeFiles {
            openings: HashMap::new(alloc),
        }
    }

    /// Notes that a command in a group's opening makes `path`.
    pub fn add(&mut self, alloc: Global, path: &str, opening: Opening) -> Result<(), AllocError>
        ensures { OnOk result (made_seen self.new ≡ with_file (made_seen self.old) path.now opening) }
    {
        let path = String::from_str(alloc, path)?;
        self.openings.entry(path)?.or_default().push(opening)?;
        Ok(())
    }

    /// The openings of the groups in which a command makes `path`, in order.
    pub fn of(&self, path: &str) -> &[Opening]
        ensures { result.now ≡ made_seen self.now path.now }
    {
        match self.openings.get(path) {
            None => &[],
            Some(openings) => openings.as_slice(),
        }
    }
}
