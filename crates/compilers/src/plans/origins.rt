//! The lines of the dry runs that the commands of a plan come from.

ghost use Rattle.std.specs.Prelude.{◌≡◌};

use crate::plans::Plan;
use std::marker::Model;

/// The line of a dry run that a command of a plan comes from.
#[derive(Clone, Copy, Debug, PartialEq)]
pub struct Origin {
    /// The number of the line in the dry run, from 0.
    pub line: usize,
    /// The dry run: 1 or 2.
    pub run: usize,
}

/// The origins of a plan's commands, in plan order: group after group, as they are run. Contracts see their list.
#[derive(Debug, Drop)]
pub struct Origins {
    origins: Vec<Origin>,
}

impl Model for Origins {
    ghost use Rattle.std.specs.Prelude.{List};
    ghost use Rattle.compilers.specs.declared.plans.origins.Origin.{Origin};

    ghost Value = { List Origin };

    ghost view = { λ o. o.origins.items };
}

impl Origins {
    /// Holds the origins of `origins`, without allocating.
    pub fn from_vec(origins: Vec<Origin>) -> Origins
        ensures { result ≡ origins.items }
    {
        Origins { origins }
    }

    /// The origins as a slice.
    pub fn as_slice(&self) -> &[Origin]
        ensures { result.now ≡ self.now }
    {
        self.origins.as_slice()
    }
}

/// A plan, and the lines that its commands come from.
#[derive(Debug, Drop)]
pub struct PlanWithOrigins {
    /// The plan.
    pub plan: Plan,
    /// The origin of each command in the plan's groups, in plan order.
    pub origins: Origins,
}
