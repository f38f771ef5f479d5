//! Texts of plans, worked out by hand from the commands of dry runs on.

ghost use Rattle.programs.specs.PlanTextExamples.{OneKernelShown, EmptyRunsShown, DroppedShown, PtxasWithoutAGroupShown, OutputWithASlashShown, NotForCudaShown};

/// The definitions give these texts for these plans.
pub fn worked_texts()
    ensures one_kernel_shown { OneKernelShown }
    ensures empty_runs_shown { EmptyRunsShown }
    ensures dropped_shown { DroppedShown }
    ensures ptxas_without_a_group_shown { PtxasWithoutAGroupShown }
    ensures output_with_a_slash_shown { OutputWithASlashShown }
    ensures not_for_cuda_shown { NotForCudaShown }
{}
