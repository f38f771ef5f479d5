//! Whether a plan can be run, and why not.

ghost use Rattle.std.specs.Prelude.{◌≡◌, IfOk, option_copied};
ghost use Rattle.plan_fitness.specs.Fitness as spec;

use crate::files::{first_unwritten, is_read, is_written};
use crate::reasons::{Directory, Fitness};
use canonical_names::is_plain;
use command_files::CommandFiles;
use std::alloc::{AllocError, Global};

/// A plan, and what its call requires of it.
#[derive(Drop)]
pub struct PlanToRun<'a> {
    /// The path of the call's working directory.
    pub cwd: &'a str,
    /// The path of the directory for temporary files.
    pub tmp: &'a str,
    /// The files of each command, in plan order.
    pub records: &'a [CommandFiles],
    /// How many commands the plan dropped. If it won't be run, but only read, 0.
    pub dropped: usize,
    /// The absolute path of the call's source, if a command has to read it.
    pub source: Option<&'a str>,
    /// The absolute path of the call's product, if a command has to write it.
    pub product: Option<&'a str>,
}

// The first directory that isn't absolute and plain.
fn odd_directory(plan: &PlanToRun<'_>) -> Option<Directory>
    ensures { result ≡ spec.odd_directory plan.now.cwd.now plan.now.tmp.now }
{
    if !is_plain(plan.cwd) {
        Some(Directory::Working)
    } else if !is_plain(plan.tmp) {
        Some(Directory::Temporary)
    } else {
        None
    }
}

// Whether the commands are those of the call.
fn fitness_for_call(plan: &PlanToRun<'_>) -> Fitness
    ensures { result ≡ spec.fitness_for_call (spec.asked_of plan.now) }
{
    match (plan.source, plan.product) {
        (Some(source), _) if !is_read(source, plan.records) => Fitness::SourceUnread,
        (_, Some(product)) if !is_written(product, plan.records) => Fitness::ProductUnwritten,
        _ => Fitness::Fit,
    }
}

/// Whether a plan can be run, or why it can't. Of several reasons it is the first in the order of [`Fitness`].
pub fn fitness(alloc: Global, plan: &PlanToRun<'_>) -> Result<Fitness, AllocError>
    ensures { IfOk result (λ fitness. fitness ≡ spec.fitness (spec.asked_of plan.now)) }
{
    if let Some(directory) = odd_directory(plan) {
        return Ok(Fitness::OddDirectory(directory));
    }
    if plan.records.is_empty() {
        return Ok(Fitness::NoCommand);
    }
    if plan.dropped > 0 {
        return Ok(Fitness::Dropped);
    }
    match first_unwritten(alloc, plan.tmp, plan.source, plan.records)? {
        Some((number, place)) => Ok(Fitness::Unwritten(number, place)),
        None => Ok(fitness_for_call(plan)),
    }
}
