//! The commands of a plan as one list.

ghost use Rattle.std.specs.Prelude.{◌≡◌, ◌++◌, IfOk, OnOk};
ghost use Rattle.compilers.specs.Listed as spec;

use crate::plans::{Groups, NvccGeneratedSubcommand};
use std::alloc::{AllocError, Global};
use std::marker::Model;

/// A command of a plan, and where it is.
#[derive(Drop)]
pub struct ListedCommand<'a> {
    /// The number of its group, from 0.
    pub group: usize,
    /// Its place in the group, from 0.
    pub place: usize,
    /// The command.
    pub command: &'a NvccGeneratedSubcommand,
}

impl<'a> Model for ListedCommand<'a> {
    ghost use Rattle.compilers.specs.Listed.{Listed};

    ghost Value = { Listed };

    ghost view = { λ l. record { group = l.group; place = l.place; command = l.command.now } };
}

// Adds the commands of a group.
fn push_group<'a>(
    listed: &mut Vec<ListedCommand<'a>>,
    group: usize,
    commands: &'a [NvccGeneratedSubcommand],
) -> Result<(), AllocError>
    ensures { OnOk result (listed.new.items ≡ listed.old.items ++ spec.listed_group group 0 commands.entry.now) }
{
    for (place, command) in commands.iter().enumerate() {
        listed.push(ListedCommand {
            group,
            place,
            command,
        })?;
    }
    Ok(())
}

impl Groups {
    /// The commands of all groups in plan order: group after group, as they are run.
    pub fn listed(&self, alloc: Global) -> Result<Vec<ListedCommand<'_>>, AllocError>
        ensures { IfOk result (λ listed. listed.items ≡ spec.listed self.now) }
    {
        let groups = self.as_slice();
        let mut listed = Vec::new(alloc);
        for (group, commands) in groups.iter().enumerate() {
            push_group(&mut listed, group, commands.as_slice())?;
        }
        Ok(listed)
    }
}
