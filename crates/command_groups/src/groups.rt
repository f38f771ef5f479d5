//! The groups that labelled commands are cut into.

ghost use Rattle.std.specs.Prelude.{◌≡◌, ℕ, ◌+◌, ◌<◌, ◌^◌, List, [], ◌∷◌, ◌++◌, map, fold, length, IfOk, OnOk, string_bytes, vec_items, flat_map};
ghost use Rattle.std.specs.Vec.Iter.{into_iter_items};
ghost use Rattle.command_groups.specs.Groups as spec;
ghost use Rattle.command_groups.specs.Origins.{planned_of_staged};
ghost use Rattle.command_groups.specs.Stage.{staged};
ghost use Rattle.command_groups.specs.Views.{cut_seen, labelled_seen, command_seen, setting_seen};
ghost use Rattle.command_groups.specs.Plan.{dropped_for, subcommand_of};

use crate::labels::{Grouping, Label, LabelledCommand, label_all};
use crate::merged_commands::SelectedCommand;
use crate::openings::OpenedNames;
use crate::setting::Setting;
use crate::stage::cacheable_mark;
use compilers::plans::{
    Dropped, DroppedCommands, Groups, NvccGeneratedSubcommand, Origin, Origins, Plan,
    PlanWithOrigins, Reason,
};
use std::alloc::{AllocError, Global};
use std::vec::IntoIter;
use texts::text::Text;
use texts::words::Words;

fn subcommand(
    alloc: Global,
    setting: &Setting<'_>,
    labelled: LabelledCommand,
) -> Result<NvccGeneratedSubcommand, AllocError>
    ensures { IfOk result (λ c. c ≡ subcommand_of (setting_seen setting.now) (labelled_seen labelled).staged) }
{
    let LabelledCommand { command, stage, .. } = labelled;
    let call = setting.call;
    let folder = if command.run == 1 { call.tmp } else { call.cwd };
    Ok(NvccGeneratedSubcommand {
        cwd: Text::copy_of(alloc, folder)?,
        env_vars: setting.environments.of_stage(alloc, stage)?,
        exe: Text::new(command.program),
        args: Words::from_vec(command.words),
        cacheable: cacheable_mark(stage),
    })
}

fn dropped(command: SelectedCommand, reason: Reason) -> Dropped
    ensures { result ≡ dropped_for reason (command_seen command) }
{
    Dropped {
        line: command.line,
        run: command.run,
        exe: Text::new(command.program),
        args: Words::from_vec(command.words),
        reason,
    }
}

// The place of a label's group among all groups, or why it has none: the front group is the first, the final group the
// last, and a device group that was opened again has lost what it had.
fn group_of(opened: &OpenedNames, label: Label) -> Result<usize, Reason>
    ensures place { result ≡ spec.group_of_label opened.now label }
    ensures within { IfOk result (λ place. place < length opened.now + 2) }
{
    let count = opened.len();
    match label {
        Label::Front => Ok(0),
        Label::Device(opening) if opened.is_live(opening) => Ok(opening.number + 1),
        Label::Device(_) => Err(Reason::Superseded),
        Label::Final => Ok(count + 1),
        Label::Ungrouped(reason) => Err(reason),
    }
}

// Groups for so many names, all of them empty.
fn empty_groups<T: Drop>(alloc: Global, names: usize) -> Result<Vec<Vec<T>>, AllocError>
    requires { names < 2 ^ 63 }
    ensures { IfOk result (λ groups. map vec_items groups.items ≡ spec.no_groups names) }
{
    let mut groups = Vec::with_capacity(alloc, names + 2)?;
    for _ in 0..names + 2 {
        groups.push(Vec::new(alloc))?;
    }
    Ok(groups)
}

fn push_at<T: Drop>(groups: &mut Vec<Vec<T>>, place: usize, element: T) -> Result<(), AllocError>
    requires { place < length groups.old.items }
    ensures groups { OnOk result (map vec_items groups.new.items ≡ spec.put_at place element (map vec_items groups.old.items)) }
    ensures length { OnOk result (length groups.new.items ≡ length groups.old.items) }
{
    groups[place].push(element)?;
    Ok(())
}

// The groups, the origins of their commands, and the dropped commands so far.
#[derive(Drop)]
struct Cut {
    groups: Vec<Vec<NvccGeneratedSubcommand>>,
    origins: Vec<Vec<Origin>>,
    dropped: Vec<Dropped>,
}

impl Cut {
    fn take(
        &mut self,
        alloc: Global,
        setting: &Setting<'_>,
        opened: &OpenedNames,
        labelled: LabelledCommand,
    ) -> Result<(), AllocError>
        requires groups { length self.old.groups.items ≡ length opened.now + 2 }
        requires origins { length self.old.origins.items ≡ length opened.now + 2 }
        ensures cut { OnOk result (cut_seen self.new ≡ spec.with_labelled (setting_seen setting.now) opened.now (cut_seen self.old) (labelled_seen labelled)) }
        ensures groups { OnOk result (length self.new.groups.items ≡ length self.old.groups.items) }
        ensures origins { OnOk result (length self.new.origins.items ≡ length self.old.origins.items) }
    {
        match group_of(opened, labelled.label) {
            Ok(place) => {
                let (line, run) = (labelled.command.line, labelled.command.run);
                push_at(&mut self.origins, place, Origin { line, run })?;
                let command = subcommand(alloc, setting, labelled)?;
                push_at(&mut self.groups, place, command)?;
            }
            Err(reason) => {
                self.dropped.push(dropped(labelled.command, reason))?;
            }
        }
        Ok(())
    }
}

fn in_plan_order(alloc: Global, groups: Vec<Vec<Origin>>) -> Result<Origins, AllocError>
    ensures { IfOk result (λ origins. origins ≡ flat_map (λ group. group) (map vec_items groups.items)) }
{
    let mut origins = Vec::new(alloc);
    for group in groups {
        let mut group = group;
        origins.append(&mut group)?;
    }
    Ok(Origins::from_vec(origins))
}

fn cut_of(
    alloc: Global,
    setting: &Setting<'_>,
    opened: &OpenedNames,
    labelled: Vec<LabelledCommand>,
) -> Result<Cut, AllocError>
    ensures { IfOk result (λ cut. cut_seen cut ≡ fold (spec.with_labelled (setting_seen setting.now) opened.now) (spec.nothing_cut (length opened.now)) (map labelled_seen labelled.items)) }
{
    let mut cut = Cut {
        groups: empty_groups(alloc, opened.len())?,
        origins: empty_groups(alloc, opened.len())?,
        dropped: Vec::new(alloc),
    };
    for command in labelled {
        cut.take(alloc, setting, opened, command)?;
    }
    Ok(cut)
}

// The plan of labelled commands, each group with its commands in order, and the origins of these.
fn plan_by_labels(
    alloc: Global,
    setting: &Setting<'_>,
    opened: &OpenedNames,
    labelled: Vec<LabelledCommand>,
) -> Result<PlanWithOrigins, AllocError>
    ensures { IfOk result (λ planned. planned ≡ spec.planned_of_cut (fold (spec.with_labelled (setting_seen setting.now) opened.now) (spec.nothing_cut (length opened.now)) (map labelled_seen labelled.items))) }
{
    let cut = cut_of(alloc, setting, opened, labelled)?;
    let origins = in_plan_order(alloc, cut.origins)?;
    let plan = Plan {
        groups: Groups::from_vec(cut.groups),
        dropped: DroppedCommands::from_vec(cut.dropped),
    };
    Ok(PlanWithOrigins { plan, origins })
}

/// The plan of merged commands, with their origins: each gets a label, and then they are cut into groups.
pub fn plan_of_commands(
    alloc: Global,
    setting: &Setting<'_>,
    commands: IntoIter<SelectedCommand>,
) -> Result<PlanWithOrigins, AllocError>
    ensures { IfOk result (λ planned. planned ≡ planned_of_staged (setting_seen setting.now)
        (map (staged setting.now.call.now.host_compiler (setting_seen setting.now).flag) (map command_seen (into_iter_items commands)))) }
{
    let Grouping {
        opened,
        labelled,
        ..
    } = label_all(alloc, setting.call, commands)?;
    let planned = plan_by_labels(alloc, setting, &opened, labelled);
    // Dropped by a call: see "Explicit drops" in docs/ARCHITECTURE.md.
    drop(opened);
    let planned = planned?;
    Ok(planned)
}
