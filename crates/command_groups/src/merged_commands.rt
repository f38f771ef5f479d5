//! The commands of two dry runs that are planned, in the order of the lines they come from.

ghost use Rattle.std.specs.Prelude.{◌≡◌, map, IfOk, IsPermutation, IsSorted};
ghost use Rattle.std.specs.Vec.Iter.{into_iter_items};
ghost use Rattle.compilers.specs.CommandLines.{line_of};
ghost use Rattle.command_groups.specs.Merge as spec;
ghost use Rattle.command_groups.specs.MergeLaws.{Rises, RisesInOrder};
ghost use Rattle.command_groups.specs.Views.{command_seen, takes_stem};

use compilers::dry_run::Commands;
use itertools::Itertools;
use std::alloc::{AllocError, Global};
use std::vec::IntoIter;
use texts::text::file_stem;

/// A command of a dry run that is planned. Commands are compared by line and run first.
#[derive(PartialEq, Eq, PartialOrd, Ord, Drop)]
pub struct SelectedCommand {
    /// The number of its line in the dry run, from 0.
    pub line: usize,
    /// The dry run that it is of: 1 or 2.
    pub run: usize,
    /// The program's path.
    pub program: String,
    /// The words after the program's name.
    pub words: Vec<String>,
}

// Whether a run gives a program: `own` says that it gives nvcc's own tools, else it gives all others.
fn takes(own: bool, program: &str) -> bool
    ensures { result ≡ spec.is_taken (takes_stem own) program.now }
{
    match file_stem(program) {
        None => false,
        Some(stem) => {
            matches!(stem, "cicc" | "ptxas" | "cudafe++" | "nvlink" | "fatbinary") == own
        }
    }
}

// The commands of run `run` that are planned, in order: those of nvcc's own tools, or all others.
fn selected(
    alloc: Global,
    run: usize,
    own: bool,
    commands: Commands,
) -> Result<Vec<SelectedCommand>, AllocError>
    ensures { IfOk result (λ taken. map command_seen taken.items ≡ map (spec.of_run run) (spec.selected (takes_stem own) commands)) }
{
    let commands = commands.into_vec();
    let mut taken = Vec::with_capacity(alloc, commands.len())?;
    for (line, program, words) in commands {
        if takes(own, program.as_str()) {
            taken.push(SelectedCommand {
                line,
                run,
                program,
                words,
            })?;
        }
    }
    Ok(taken)
}

fn in_order(
    alloc: Global,
    commands: Vec<SelectedCommand>,
) -> Result<IntoIter<SelectedCommand>, AllocError>
    ensures same { IfOk result (λ sorted. IsPermutation commands.items (into_iter_items sorted)) }
    ensures sorted { IfOk result (λ sorted. IsSorted ⟦<SelectedCommand as Ord>⟧.cmp (into_iter_items sorted)) }
{
    commands.into_iter().sorted(alloc)
}

/// The planned commands of two runs: nvcc's own tools of the first run, and all other programs of the
/// second, in order of line and run.
///
/// The commands of each run have to have rising lines, so no two merged commands share line and run.
pub fn merge(
    alloc: Global,
    first: Commands,
    second: Commands,
) -> Result<IntoIter<SelectedCommand>, AllocError>
    requires first_rises { Rises (map line_of first) }
    requires second_rises { Rises (map line_of second) }
    ensures commands { IfOk result (λ merged. map command_seen (into_iter_items merged) ≡ spec.merged first second) }
    ensures rises { IfOk result (λ merged. RisesInOrder (map command_seen (into_iter_items merged))) }
{
    let mut commands = selected(alloc, 1, true, first)?;
    let mut others = selected(alloc, 2, false, second)?;
    commands.append(&mut others)?;
    in_order(alloc, commands)
}
