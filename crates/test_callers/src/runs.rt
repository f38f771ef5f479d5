//! The commands that an nvcc call would start.

ghost use Rattle.std.specs.Prelude.{◌≡◌, map};
ghost use Rattle.cuda_plans.specs.Fault.{UnlessMemory};
ghost use Rattle.cuda_plans.specs.Generated.{standard_suffixes};
ghost use Rattle.cuda_plans.specs.NvccPlan.{planned};
ghost use Rattle.cuda_plans.specs.Outcome.{empty_success};
ghost use Rattle.test_callers.specs.Runs as spec;

use cuda_plans::bytes::Bytes;
use cuda_plans::dry_run::{Suffixes, Which};
use cuda_plans::execution::execute;
use cuda_plans::fault::Fault;
use cuda_plans::nvcc::NvccCompileCommand;
use cuda_plans::plan::NvccGeneratedSubcommand;
use cuda_plans::runner::{Answer, Place, Runner};
use cuda_plans::status::{ExitStatus, Output};
use std::alloc::{AllocError, Global};

/// A runner that starts nothing. It records each command and reports success.
#[derive(Drop)]
pub struct Recorder {
    pub started: Vec<Started>,
}

/// A command to start, and its place.
#[derive(Drop)]
pub struct Started {
    pub place: Place,
    pub command: NvccGeneratedSubcommand,
}

// The output of a process that succeeds and writes nothing.
fn success(alloc: Global) -> Output
    ensures { result ≡ empty_success }
{
    Output {
        status: ExitStatus::from_code(0),
        stdout: Bytes::new(alloc),
        stderr: Bytes::new(alloc),
    }
}

impl Runner for Recorder {
    ghost use Rattle.test_callers.specs.Runs.{entry_of};

    ghost log = { λ r. map entry_of r.started.items };

    fn run(
        &mut self,
        alloc: Global,
        place: Place,
        command: NvccGeneratedSubcommand,
    ) -> Result<Answer, AllocError> {
        self.started.push(Started { place, command })?;
        Ok(Answer::Ran(success(alloc)))
    }
}

/// The commands that an nvcc call starts if none fails: its whole plan, in order, with places. The errors are those of
/// planning.
pub fn commands_to_start<W: Which>(
    alloc: Global,
    call: &NvccCompileCommand,
    dry1: &[u8],
    dry2: &[u8],
    which: &W,
) -> Result<Recorder, Fault>
    ensures { UnlessMemory (spec.steps_seen result) (spec.steps_of (planned call.now standard_suffixes (W.answer which.now) dry1.now dry2.now)) }
{
    let mut recorder = Recorder {
        started: Vec::new(alloc),
    };
    let suffixes = Suffixes::standard();
    execute(alloc, call, dry1, dry2, which, &mut recorder, &suffixes)?;
    Ok(recorder)
}
