//! A plan: the commands that one `nvcc` call runs, in groups, and those that it doesn't run.

ghost use Rattle.std.specs.Prelude.{◌≡◌, map, vec_items, IfOk};
ghost use Rattle.std.specs.Cmp.Lexicographic.{pointwise, lists_per};
ghost use Rattle.compilers.specs.Reasons.{reason_name};

use crate::command::Cacheable;
use std::alloc::{AllocError, Global};
use std::marker::Model;
use texts::text::Text;
use texts::variables::Variables;
use texts::words::Words;

/// A command that nvcc generated, as a plan runs it.
#[derive(Debug, PartialEq, Drop)]
pub struct NvccGeneratedSubcommand {
    /// The program's path.
    pub exe: Text,
    /// The words after the program's name.
    pub args: Words,
    /// The working directory's path.
    pub cwd: Text,
    /// The environment.
    pub env_vars: Variables,
    /// Whether the command's outputs may come from a cache.
    pub cacheable: Cacheable,
}

impl NvccGeneratedSubcommand {
    /// An equal command, in memory of its own.
    pub fn try_clone(&self, alloc: Global) -> Result<NvccGeneratedSubcommand, AllocError>
        ensures { IfOk result (λ c. c ≡ self.now) }
    {
        Ok(NvccGeneratedSubcommand {
            exe: self.exe.try_clone(alloc)?,
            args: self.args.try_clone(alloc)?,
            cwd: self.cwd.try_clone(alloc)?,
            env_vars: self.env_vars.try_clone(alloc)?,
            cacheable: self.cacheable,
        })
    }
}

/// Why a command of a dry run is in no group.
#[derive(Clone, Copy, Debug, PartialEq)]
pub enum Reason {
    /// A program other than nvcc's own tools, without a word that defines a CUDA macro, such as `rm x_dlink.reg.c`.
    NotCuda,
    /// A cicc command whose input no preprocess step before it makes.
    NoCiccGroup,
    /// A ptxas command whose input no cicc command of a device group makes.
    NoPtxasGroup,
    /// A command of a device group that a later preprocess step opened again.
    Superseded,
}

impl Reason {
    /// The reason's name, as the programs print it: `NotCuda`, `NoCiccGroup`, `NoPtxasGroup` or `Superseded`.
    pub fn name(self) -> &'static str
        ensures { result.now ≡ reason_name self }
    {
        match self {
            Reason::NotCuda => "NotCuda",
            Reason::NoCiccGroup => "NoCiccGroup",
            Reason::NoPtxasGroup => "NoPtxasGroup",
            Reason::Superseded => "Superseded",
        }
    }
}

/// A command that is in no group.
#[derive(Debug, PartialEq, Drop)]
pub struct Dropped {
    /// The number of its line in the dry run, from 0.
    pub line: usize,
    /// The dry run that it is of: 1 or 2.
    pub run: usize,
    /// The program's path.
    pub exe: Text,
    /// The words after the program's name.
    pub args: Words,
    /// Why it is in no group.
    pub reason: Reason,
}

/// The groups of a plan, each a list of commands in order, seen in contracts as the list of these lists.
///
/// `from_vec` and `into_vec` don't allocate.
#[derive(Debug, Drop)]
pub struct Groups {
    groups: Vec<Vec<NvccGeneratedSubcommand>>,
}

impl Model for Groups {
    ghost use Rattle.std.specs.Prelude.{List, map, vec_items};
    ghost use Rattle.compilers.specs.declared.plans.plan.NvccGeneratedSubcommand.{NvccGeneratedSubcommand};

    ghost Value = { List (List NvccGeneratedSubcommand) };

    ghost view = { λ g. map vec_items g.groups.items };
}

impl Groups {
    /// Holds the groups of `groups`.
    pub fn from_vec(groups: Vec<Vec<NvccGeneratedSubcommand>>) -> Groups
        ensures { result ≡ map vec_items groups.items }
    {
        Groups { groups }
    }

    /// The groups as a slice.
    pub fn as_slice(&self) -> &[Vec<NvccGeneratedSubcommand>]
        ensures { map vec_items result.now ≡ self.now }
    {
        self.groups.as_slice()
    }

    /// Gives the `Vec` back.
    pub fn into_vec(self) -> Vec<Vec<NvccGeneratedSubcommand>>
        ensures { map vec_items result.items ≡ self }
    {
        self.groups
    }
}

impl PartialEq for Groups {
    ghost use Rattle.compilers.specs.contracts.plans.plan.NvccGeneratedSubcommandPartialEq.TheImpl.Laws.{laws-law};

    ghost eq = { pointwise (pointwise ⟦<NvccGeneratedSubcommand as PartialEq>⟧.eq) };

    ghost laws = { lists_per (lists_per laws-law) };

    fn eq(&self, other: &Groups) -> bool {
        self.as_slice() == other.as_slice()
    }
}

/// The dropped commands of a plan, in order, seen in contracts as their list.
///
/// `from_vec` and `into_vec` don't allocate.
#[derive(Debug, Drop)]
pub struct DroppedCommands {
    commands: Vec<Dropped>,
}

impl Model for DroppedCommands {
    ghost use Rattle.std.specs.Prelude.{List};
    ghost use Rattle.compilers.specs.declared.plans.plan.Dropped.{Dropped};

    ghost Value = { List Dropped };

    ghost view = { λ d. d.commands.items };
}

impl DroppedCommands {
    /// Holds the commands of `commands`.
    pub fn from_vec(commands: Vec<Dropped>) -> DroppedCommands
        ensures { result ≡ commands.items }
    {
        DroppedCommands { commands }
    }

    /// The commands as a slice.
    pub fn as_slice(&self) -> &[Dropped]
        ensures { result.now ≡ self.now }
    {
        self.commands.as_slice()
    }

    /// Gives the `Vec` back.
    pub fn into_vec(self) -> Vec<Dropped>
        ensures { result.items ≡ self }
    {
        self.commands
    }
}

impl PartialEq for DroppedCommands {
    ghost use Rattle.compilers.specs.contracts.plans.plan.DroppedPartialEq.TheImpl.Laws.{laws-law};

    ghost eq = { pointwise ⟦<Dropped as PartialEq>⟧.eq };

    ghost laws = { lists_per laws-law };

    fn eq(&self, other: &DroppedCommands) -> bool {
        self.as_slice() == other.as_slice()
    }
}

/// What one `nvcc` call runs: groups of commands, and the commands that are in no group.
#[derive(Debug, PartialEq, Drop)]
pub struct Plan {
    /// The front group, the device groups by first appearance of their names, and the final group.
    pub groups: Groups,
    /// The commands that are in no group, in order of line and run.
    pub dropped: DroppedCommands,
}
