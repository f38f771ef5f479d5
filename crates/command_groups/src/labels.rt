//! The labels of merged commands: where each goes.

ghost use Rattle.std.specs.Prelude.{◌≡◌, ◌∷◌, [], ◌++◌, map, length, IfOk, OnOk, string_bytes};
ghost use Rattle.std.specs.Vec.Iter.{into_iter_items};
ghost use Rattle.command_groups.specs.Groups as spec;
ghost use Rattle.command_groups.specs.Views.{grouping_seen, made_seen, command_seen, named_stage};
ghost use Rattle.command_groups.specs.Stage.{staged};

use crate::merged_commands::SelectedCommand;
use crate::openings::{MadeFiles, OpenedNames, Opening};
use crate::setting::CallToPlan;
use crate::stage::{
    Stage, cicc_input, edited_words, last_word, opened_name, program_at, ptxas_input, stage_of,
};
use compilers::compiler::NvccHostCompiler;
use compilers::plans::Reason;
use std::alloc::{AllocError, Global};
use std::vec::IntoIter;

/// Where a command goes.
#[derive(Clone, Copy)]
pub enum Label {
    /// The front group.
    Front,
    /// A device group, at one of its openings. A later opening of the group supersedes the command.
    Device(Opening),
    /// The final group.
    Final,
    /// None, for a reason.
    Ungrouped(Reason),
}

// The label of an opening; without one there is a reason.
fn device_label(opening: Option<Opening>, reason: Reason) -> Label
    ensures { result ≡ spec.device_label opening reason }
{
    match opening {
        None => Label::Ungrouped(reason),
        Some(opening) => Label::Device(opening),
    }
}

/// A command with its edited words, its stage and its label.
#[derive(Drop)]
pub struct LabelledCommand {
    pub command: SelectedCommand,
    pub stage: Stage,
    pub label: Label,
}

/// The commands so far, in merged order, each with its label, beside what later labels depend on: the names that device
/// groups were opened by, and the files that cicc commands make.
///
/// A step that opens a group again changes no label. Cutting drops the commands whose labels hold an earlier opening.
#[derive(Drop)]
pub struct Grouping {
    pub opened: OpenedNames,
    pub made: MadeFiles,
    pub labelled: Vec<LabelledCommand>,
}

impl Grouping {
    /// No commands, with room for `count` of them.
    pub fn with_capacity(alloc: Global, count: usize) -> Result<Grouping, AllocError>
        ensures { IfOk result (λ grouping. grouping_seen grouping ≡ spec.no_commands) }
    {
        Ok(Grouping {
            opened: OpenedNames::new(alloc),
            made: MadeFiles::new(alloc),
            labelled: Vec::with_capacity(alloc, count)?,
        })
    }

    // The label of a command. A preprocess step opens a group if its words name one, and cicc's output is noted as made in its group.
    fn label(&mut self, alloc: Global, stage: Stage, words: &[String]) -> Result<Label, AllocError>
        ensures label { IfOk result (λ label. label ≡ spec.label_of self.old.opened (made_seen self.old.made) (length self.old.labelled.items) (named_stage stage (map string_bytes words.now))) }
        ensures opened { OnOk result (self.new.opened ≡ spec.opened_after self.old.opened (length self.old.labelled.items) (named_stage stage (map string_bytes words.now))) }
        ensures made { OnOk result (made_seen self.new.made ≡ spec.made_after self.old.opened (made_seen self.old.made) (map string_bytes words.now) (named_stage stage (map string_bytes words.now))) }
        ensures labelled { OnOk result (self.new.labelled ≡ self.old.labelled) }
    {
        match stage {
            Stage::Splitting => Ok(Label::Front),
            Stage::Linking | Stage::HostCompiling => Ok(Label::Final),
            Stage::Foreign => Ok(Label::Ungrouped(Reason::NotCuda)),
            Stage::DeviceCompiling => {
                let opening = match cicc_input(words) {
                    None => None,
                    Some(name) => self.opened.opening(name),
                };
                if let (Some(opening), Some(path)) = (opening, last_word(words)) {
                    self.made.add(alloc, path, opening)?;
                }
                Ok(device_label(opening, Reason::NoCiccGroup))
            }
            Stage::Assembling => {
                let opening = match ptxas_input(words) {
                    None => None,
                    Some(path) => self.opened.first_live(self.made.of(path)),
                };
                Ok(device_label(opening, Reason::NoPtxasGroup))
            }
            Stage::Preprocessing => {
                let Some(name) = opened_name(words) else {
                    return Ok(Label::Front);
                };
                let opening = self.opened.open(alloc, name, self.labelled.len())?;
                Ok(Label::Device(opening))
            }
        }
    }

    /// Takes the next command, of which the words are edited here, under a host compiler and a compilation flag.
    pub fn take(
        &mut self,
        alloc: Global,
        host_compiler: NvccHostCompiler,
        flag: &str,
        command: SelectedCommand,
    ) -> Result<(), AllocError>
        ensures { OnOk result (grouping_seen self.new ≡ spec.with_command (grouping_seen self.old) (staged host_compiler flag.now (command_seen command))) }
    {
        let program = program_at(command.program.as_str());
        let words = edited_words(alloc, program, flag, command.words)?;
        let stage = stage_of(program, host_compiler, words.as_slice());
        let label = self.label(alloc, stage, words.as_slice())?;
        self.labelled.push(LabelledCommand {
            command: SelectedCommand { words, ..command },
            stage,
            label,
        })?;
        Ok(())
    }
}

/// The commands of a plan, each with its label.
pub fn label_all(
    alloc: Global,
    call: &CallToPlan<'_>,
    commands: IntoIter<SelectedCommand>,
) -> Result<Grouping, AllocError>
    ensures { IfOk result (λ grouping. grouping_seen grouping ≡ spec.grouped (map (staged call.now.host_compiler call.now.compilation_flag.now) (map command_seen (into_iter_items commands)))) }
{
    let mut grouping = Grouping::with_capacity(alloc, commands.len())?;
    for command in commands {
        grouping.take(alloc, call.host_compiler, call.compilation_flag, command)?;
    }
    Ok(grouping)
}
