//! The place of a command in a plan, who runs it, and the answer.

ghost use Rattle.std.specs.Prelude.{◌≡◌, ◌++◌, ◌∷◌, [], List, IfOk, MatchResult};
ghost use Rattle.cuda_plans.specs.Schedule.{AccountEntry, answered};

use compilers::plans::NvccGeneratedSubcommand;
use std::alloc::{AllocError, Global};
use texts::fault::Fault;
use texts::status::{CompileFinished, Output};

/// The place of a command in a plan.
#[derive(Clone, Copy, Debug, PartialEq)]
pub struct Place {
    /// The number of its group, from 0.
    pub group: usize,
    /// Its number in the group, from 0.
    pub index: usize,
}

/// What a runner answers to a command.
#[derive(Debug, PartialEq, Drop)]
pub enum Answer {
    /// It ran as a process, with this output.
    Ran(Output),
    /// It was compiled, perhaps from a cache, with this result.
    Finished(CompileFinished),
    /// It couldn't be run, or failed.
    Failed(Fault),
}

impl Answer {
    /// An equal answer, in memory of its own.
    pub fn try_clone(&self, alloc: Global) -> Result<Answer, AllocError>
        ensures { IfOk result (λ a. a ≡ self.now) }
    {
        Ok(match self {
            Answer::Ran(output) => Answer::Ran(output.try_clone(alloc)?),
            Answer::Finished(finished) => Answer::Finished(finished.try_clone(alloc)?),
            Answer::Failed(fault) => Answer::Failed(fault.try_clone(alloc)?),
        })
    }
}

/// Runs the commands of a plan. A cache server can run them as its own compilations; an auditor can just
/// record them.
pub trait Runner {
    /// The commands that it received so far, each with its place and the answer, in order.
    ghost log: { Self → List AccountEntry };

    /// Runs `command`, whose place is `place`, and appends both and the answer to the account. The only error is a
    /// failed allocation: then the account is unchanged, and the command may or may not have run.
    fn run(
        &mut self,
        alloc: Global,
        place: Place,
        command: NvccGeneratedSubcommand,
    ) -> Result<Answer, AllocError>
        ensures { MatchResult result (λ answer. log self.new ≡ log self.old ++ answered place command answer ∷ []) (λ _. log self.new ≡ log self.old) };
}
