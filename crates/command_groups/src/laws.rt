//! Laws of plans, and plans worked out by hand, which the definitions compute.

ghost use Rattle.std.specs.Prelude.{◌≡◌, ℕ, ◌+◌, List, [], ◌∷◌, Some, None, Ok, Err, length, codes};
ghost use Rattle.texts.specs.declared.fault.Fault.TheVariants.{NoPath, BadShell};
ghost use Rattle.compilers.specs.CommandLines.{CommandLine};
ghost use Rattle.compilers.specs.OneKernel as bytes;
ghost use Rattle.compilers.specs.declared.plans.plan.Reason.TheVariants.{NotCuda, NoCiccGroup};
ghost use Rattle.dry_runs.specs.declared.limit.LimitedFault.TheVariants as limited;
ghost use Rattle.canonical_names.specs.Generated.{standard_suffixes};
ghost use Rattle.dry_runs.specs.FirstDir.{first_dir};
ghost use Rattle.canonical_names.specs.RenamingNeeds.{AreAlikeFirstUnclean, AreAlikeSecondUnclean, AreCleanByAnyMap, AreCleanInOtherFolders};
ghost use Rattle.command_groups.specs.FateLaws.{EachHasOneFate, DeviceGroupsBeginWithTheirStep};
ghost use Rattle.command_groups.specs.Fate.{opened_names};
ghost use Rattle.command_groups.specs.Merge.{merged};
ghost use Rattle.command_groups.specs.MergeLaws.{InOrder, MergedAreTheSelected};
ghost use Rattle.command_groups.specs.Origins.{ParsedRunsArePlanned};
ghost use Rattle.command_groups.specs.Plan.{PlanSetting, plan_of_staged};
ghost use Rattle.command_groups.specs.PlanLaws.{AreCleanAndAlike, AreAlikeTexts, AlikePairsHaveOnePlan, AlikeTextsHaveOnePlan, ReadableRunsArePlanned, PlannedRunsAreReadable, FirstRunIsRefused, SecondRunIsRefused, PlannedCommandsHaveOneFate};
ghost use Rattle.command_groups.specs.PlanNeeds.{PlansAgree, PlansAgreeWithAnyVariables};
ghost use Rattle.command_groups.specs.PlanOfBytesExamples.{planned_with, planned, planned_twice, planned_within, host_run, host_plan};
ghost use Rattle.command_groups.specs.PlanExamples.{one_kernel_plan, plan_with, plan_of_step, compiles, drops, ReopenedGroup, SecondPtxas, SupersededCicc, StepMakesNoPtx, SharedPtx, PreprocessesForMsvc, CompilesForGcc, CiccLosesOneWord, CiccKeepsItsWords, ProgramWithoutAStem, StepWithoutAnOutput, StepWithoutAFileName, SecondGroupIsJoined, MergedByLineAndRun, FoldedEnvironment, MarkedTwice};
ghost use Rattle.command_groups.specs.Stage.{StagedCommand};

pub use compilers::plan_laws::equality;

/// Laws of the merged list: it is in order of line and run (`in_order`), and has the selected commands of both
/// runs, each once (`selected`).
pub fn merge()
    ensures in_order { (first second : List CommandLine) → InOrder (merged first second) }
    ensures selected { MergedAreTheSelected }
{}

/// Laws of the groups of plans.
///
/// The commands of all groups and the dropped ones are together all merged commands, each once (`one_fate`). Each
/// device group begins with the step that last opened its name, and so is never empty (`steps`). There are a group for
/// each opened name and the outer two, which are always there (`outer`).
pub fn fates()
    ensures one_fate { EachHasOneFate }
    ensures steps { DeviceGroupsBeginWithTheirStep }
    ensures outer { (s : PlanSetting) (commands : List StagedCommand) → length (plan_of_staged s commands).groups ≡ length (opened_names commands) + 2 }
{}

/// Laws of the plans of two dry runs whose words are renamed, as they are without a keep directory,
/// for every list of suffixes that may be handed in.
///
/// Pairs of clean runs that are alike, with one list of the first runs' variables, have equal plans:
/// groups and dropped commands (`alike_pairs`). So are two pairs of texts planned as one plan if all
/// four can be read and their commands are clean and alike (`alike_texts`).
pub fn plans()
    ensures alike_pairs { AlikePairsHaveOnePlan }
    ensures alike_texts { AlikeTextsHaveOnePlan }
{}

/// What two dry runs are planned as, with a keep directory or without.
///
/// They have a plan if both can be read (`readable_are_planned`), and only then
/// (`planned_are_readable`). A first run that can't be read is refused with the fault of its first
/// bad line (`first_is_refused`), and so is a second one if the first can be read
/// (`second_is_refused`). In a plan each selected command has the one fate of its rule, and each
/// group and the dropped list are their fate's commands in order of line and run (`one_fate`). Two runs
/// that were parsed have the plan of their bytes (`parsed_are_planned`).
pub fn planning()
    ensures readable_are_planned { ReadableRunsArePlanned }
    ensures planned_are_readable { PlannedRunsAreReadable }
    ensures first_is_refused { FirstRunIsRefused }
    ensures second_is_refused { SecondRunIsRefused }
    ensures one_fate { PlannedCommandsHaveOneFate }
    ensures parsed_are_planned { ParsedRunsArePlanned }
{}

/// What dry runs are planned as, by the definitions.
pub fn worked_plans()
    ensures reopened_group { ReopenedGroup }
    ensures second_ptxas { SecondPtxas }
    ensures superseded_cicc { SupersededCicc }
    ensures step_makes_no_ptx { StepMakesNoPtx }
    ensures shared_ptx { SharedPtx }
    ensures preprocesses_for_msvc { PreprocessesForMsvc }
    ensures compiles_for_gcc { CompilesForGcc }
    ensures cicc_loses_one_word { CiccLosesOneWord }
    ensures cicc_keeps_its_words { CiccKeepsItsWords }
    ensures program_without_a_stem { ProgramWithoutAStem }
    ensures step_without_an_output { StepWithoutAnOutput }
    ensures step_without_a_file_name { StepWithoutAFileName }
    ensures second_group_is_joined { SecondGroupIsJoined }
    ensures merged_by_line_and_run { MergedByLineAndRun }
    ensures folded_environment { FoldedEnvironment }
    ensures marked_twice { MarkedTwice }
{}

/// What dry runs are planned as, from their bytes on, by the definitions.
///
/// With other names of the generated files the plan is the same. Host commands name the files of the second run in its folder, and no
/// word is renamed if files are kept. Lines may end in two ways. An output with a `/` at its end is no generated name and stays, but its
/// file name opens a group, which cicc, whose word gets its canonical name, misses. A program without a name is its folder.
pub fn worked_plans_from_bytes()
    ensures one_kernel_from_bytes { planned_twice bytes.one_kernel ≡ Ok (one_kernel_plan (codes "x_0") (codes "x_0")) }
    ensures other_names_from_bytes { planned_twice bytes.one_kernel_elsewhere ≡ Ok (one_kernel_plan (codes "x_0") (codes "x_0")) }
    ensures other_names_are_alike { AreAlikeTexts standard_suffixes first_dir (codes "/w") 1 bytes.one_kernel bytes.one_kernel_elsewhere }
    ensures temporary_names_from_bytes { planned bytes.one_kernel bytes.one_kernel_in_temporary ≡ Ok (one_kernel_plan (codes "x_0") (codes "/t/x_0")) }
    ensures kept_names_from_bytes { planned_with (Some (codes "/w/keep")) bytes.one_kernel bytes.one_kernel ≡ Ok (one_kernel_plan (codes "kernel") (codes "kernel")) }
    ensures nothing_from_bytes { planned_twice [] ≡ Ok (plan_with ([] ∷ [] ∷ []) []) }
    ensures host_code_from_bytes { planned_twice (codes "kernel.cu\r\n#$ PATH=/b\r\n#$ gcc -D__NVCC__ -c x.cpp") ≡ Ok (plan_with ([] ∷ (compiles (codes "/b/gcc") (codes "-D__NVCC__ -c x.cpp") ∷ []) ∷ []) []) }
    ensures second_run_is_bad { planned [] (codes "#$ gcc\n") ≡ Err (NoPath 2 0) }
    ensures first_run_is_bad { planned (codes "#$ gcc \"a\n") (codes "#$ gcc\n") ≡ Err (BadShell 1 0) }
    ensures output_with_a_slash_from_bytes { planned_twice (codes "#$ PATH=/b\n#$ gcc -D__NVCC__ -E k.cu -o k.cpp1.ii/\n#$ cicc k.cpp1.ii -o k.ptx\n")
        ≡ Ok (plan_of_step (codes "k.cpp1.ii/") (drops NoCiccGroup 2 1 (codes "/b/cicc") (codes "x_0.cpp1.ii -o k.ptx") ∷ [])) }
    ensures nameless_from_bytes { planned_twice (codes "#$ PATH=/b\n#$ \"\" x\n") ≡ Ok (plan_with ([] ∷ [] ∷ []) (drops NotCuda 1 2 (codes "/b/") (codes "x") ∷ [])) }
{}

/// What some dry runs are planned as within a limit, by the definitions: each run has the whole limit, and a fault of the first comes
/// before a second that is too long.
pub fn worked_limits()
    ensures each_run_has_the_limit { planned_within 8222 host_run host_run ≡ Ok host_plan }
    ensures first_run_is_too_long { planned_within 8221 host_run [] ≡ Err (limited.TooLong 1 1) }
    ensures second_run_is_too_long { planned_within 8221 [] host_run ≡ Err (limited.TooLong 2 1) }
    ensures first_run_decides { planned_within 8221 (codes "#$ gcc\n") host_run ≡ Err (limited.Fault (NoPath 1 0)) }
{}

/// None of the premises of `plans` can be left out. Pairs of runs that are alike don't all have equal
/// plans if one run of a pair isn't clean (`first_clean`, `second_clean`), if the map of their names
/// isn't one-to-one (`one_to_one`) or changes a folder (`folder`), with a keep directory
/// (`no_keep_directory`), or if the first runs set other variables (`variables`).
pub fn plans_need()
    ensures first_clean { PlansAgree AreAlikeFirstUnclean None → ⊥ }
    ensures second_clean { PlansAgree AreAlikeSecondUnclean None → ⊥ }
    ensures one_to_one { PlansAgree AreCleanByAnyMap None → ⊥ }
    ensures folder { PlansAgree AreCleanInOtherFolders None → ⊥ }
    ensures no_keep_directory { ((keep_dir : List ℕ) → PlansAgree AreCleanAndAlike (Some keep_dir)) → ⊥ }
    ensures variables { PlansAgreeWithAnyVariables → ⊥ }
{}
