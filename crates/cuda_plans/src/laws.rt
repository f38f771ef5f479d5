//! Laws of whole calls, of shadow runs and of outputs, and examples worked out by hand, which the definitions compute. The laws of
//! the crates below are exported here too.

ghost use Rattle.command_groups.specs.PlanLaws.{AlikeTextsHaveOnePlan, ReadableRunsArePlanned, PlannedRunsAreReadable, FirstRunIsRefused, SecondRunIsRefused, PlannedCommandsHaveOneFate};
ghost use Rattle.cuda_plans.specs.Outcome.{AggregationIsAssociative, EmptySuccessIsNeutralFirst, EmptySuccessIsNeutralLast};
ghost use Rattle.cuda_plans.specs.ScheduleExamples as examples;
ghost use Rattle.cuda_plans.specs.SelectionExamples as selections;
ghost use Rattle.cuda_plans.specs.ShadowExamples as shadows;
ghost use Rattle.cuda_plans.specs.ShadowLaws.{ShadowIsStepShadow, StepNamesKeepRank, PlainOutputsStayApart, ShadowsStandTogether, StepShadowsStandTogether};
ghost use Rattle.device_lines.specs.Reread.{CiccLinesReread, PtxasLinesReread, CudaFELinesReread};
ghost use Rattle.texts.specs.Equality.{TellsEqual};

use crate::runner::{Answer, Place};
pub use canonical_names::laws::{
    canonical_names, renaming, renaming_needs, worked_likeness, worked_renamings,
};
pub use command_groups::laws::{
    equality as plan_equality, fates, merge, planning, plans, plans_need, worked_plans,
    worked_plans_from_bytes,
};
pub use device_lines::laws::{
    equality as device_equality, reread, rereading_needs, worked_lines, worked_rereadings,
};
pub use dry_runs::laws::{equality as dry_run_equality, worked_runs};
pub use host_lines::laws::equality as host_equality;
pub use texts::laws::equality as text_equality;

/// The planning theorem: two dry runs yield a plan exactly when both can be read; each selected command
/// has the one fate of its rule, and each group is its fate's commands in line order; without a keep
/// directory, pairs of clean runs that differ only by a one-to-one renaming of generated names give
/// equal plans; and a cicc, ptxas or cudafe++ line that is written back is read again as the same
/// arguments.
///
/// Memory plays no part: this is about the plans that are defined. The first clause has four parts:
/// runs that can be read are planned (`readable_are_planned`) and no others are
/// (`planned_are_readable`); else the first run is refused with the fault of its first bad line
/// (`first_is_refused`), or if it can be read, the second one is (`second_is_refused`). The second
/// clause is `one_fate`. In the third (`alike_are_planned_alike`) the renaming keeps folders and
/// suffixes and is one map for each pair of runs, the first runs set the same variables, all else
/// that the plans are made for is equal, and the suffixes are any that may be handed in. In the
/// fourth (`cicc_rereads`, `ptxas_rereads`, `cudafe_rereads`) the working directory is absolute, at
/// most one word of a cicc or ptxas line has the input's suffix, and no ptxas option has an empty
/// value joined to it.
pub fn planning_theorem()
    ensures readable_are_planned { ReadableRunsArePlanned }
    ensures planned_are_readable { PlannedRunsAreReadable }
    ensures first_is_refused { FirstRunIsRefused }
    ensures second_is_refused { SecondRunIsRefused }
    ensures one_fate { PlannedCommandsHaveOneFate }
    ensures alike_are_planned_alike { AlikeTextsHaveOnePlan }
    ensures cicc_rereads { CiccLinesReread }
    ensures ptxas_rereads { PtxasLinesReread }
    ensures cudafe_rereads { CudaFELinesReread }
{}

/// Which commands of three kernels run, and what comes of it, by the definitions.
pub fn worked_schedules()
    ensures three_kernels_are_planned { examples.ThreeKernelsPlan }
    ensures chunks_of_two { examples.ChunksOfTwo }
    ensures failure_ends_its_group { examples.FailureEndsItsGroup }
    ensures chunk_is_finished { examples.ChunkIsFinished }
    ensures one_at_a_time { examples.OneAtATime }
    ensures none_at_a_time { examples.NoneAtATime }
    ensures many_at_a_time { examples.ManyAtATime }
    ensures first_failure_is_kept { examples.FirstFailureIsKept }
    ensures all_succeed { examples.AllSucceed }
    ensures failure_of_a_success { examples.FailureOfASuccess }
{}

/// `==` on places and on answers compares all that they hold: it says whether two values are equal.
pub fn equality()
    ensures place { TellsEqual ⟦<Place as PartialEq>⟧.eq }
    ensures answer { TellsEqual ⟦<Answer as PartialEq>⟧.eq }
{
    texts::laws::equality();
}

/// How outputs are joined doesn't depend on brackets, and an empty success changes nothing.
pub fn joined_outputs()
    ensures associative { AggregationIsAssociative }
    ensures empty_success_first { EmptySuccessIsNeutralFirst }
    ensures empty_success_last { EmptySuccessIsNeutralLast }
{}

/// A run that passes `is_shadow` passes `is_step_shadow` (`implied`), and not the other way round (`worked`, and `one_kernel`).
/// If a run passes, an input of cicc and the same one in the folder have the same rank (`ranks`), and of the
/// second run's plain outputs only such an input gets a canonical file name of that suffix (`outputs`).
pub fn step_shadows()
    ensures implied { ShadowIsStepShadow }
    ensures ranks { StepNamesKeepRank }
    ensures outputs { PlainOutputsStayApart }
    ensures worked { shadows.OneKernelHasStepShadows }
    ensures one_kernel { shadows.OneKernelHasAShadow }
{}

/// A law of shadow runs, for every list of suffixes that may be handed in: if the second of two clean
/// runs shadows the first in the folder of temporary files, which is absolute, then a cicc command of
/// the first run and the step that makes its input are both in the device group of that input's
/// canonical name (`stand_together`).
///
/// The input is the first of cicc's words that ends as an input does. It contains no `/` and doesn't
/// begin with `-`. Exactly one preprocess step of the second run writes it in that folder, and that
/// step has an earlier line.
pub fn shadow()
    ensures stand_together { ShadowsStandTogether }
{}

/// The law of `shadow`, of runs of which the second shadows the first as far as the inputs of cicc
/// go: it asks less, and `shadow` follows from it.
pub fn step_shadow()
    ensures stand_together { StepShadowsStandTogether }
{}

/// Shadow runs worked out by hand. In two of them cicc and its step share a group: the one-kernel dry
/// run with cudafe++'s stub file bare in the second run (`one_kernel`), and a cicc and its step alone
/// (`earlier_step`), which meet all premises of `shadow` (`feeds`). In the others they don't: the step
/// has a later line (`later_step`), two steps make the input (`two_steps`), or the input has a folder
/// (`folder`).
pub fn worked_shadows()
    ensures one_kernel { shadows.OneKernelStandsTogether }
    ensures earlier_step { shadows.EarlierStepStandsTogether }
    ensures feeds { shadows.EarlierStepFeedsCicc }
    ensures later_step { shadows.LaterStepStandsApart }
    ensures two_steps { shadows.TwoStepsStandApart }
    ensures folder { shadows.FolderStandsApart }
{}

/// What is selected of dry runs, and the environment behind them, by the definitions.
pub fn worked_selections()
    ensures one_of_one_kernel { selections.OneOfOneKernel }
    ensures folded_behind_one_kernel { selections.FoldedBehindOneKernel }
    ensures all_names_count { selections.AllNamesCount }
    ensures names_stay { selections.NamesStay }
    ensures nothing_is_selected { selections.NothingIsSelected }
    ensures later_line_sets_too { selections.LaterLineSetsToo }
    ensures bad_run_is_refused { selections.BadRunIsRefused }
{}
