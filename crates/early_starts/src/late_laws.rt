//! Laws of plans whose last host compile begins before its fatbin is there.

ghost use Rattle.early_starts.specs.LatePlans.{EndsPlan, CompilersWords, AssemblersWords, HalvesTouch, OthersNeedTheSame, AssemblerNeedsAll, LateNeedsHold, LateOrdersAgree, LateRunsAgree, LateProducts};

/// A plan has nvcc's commands but for the split.
///
/// A half has the compile's words, one by one, but for its phase or language, and the assembler text in place of a file (`compiler`,
/// `assembler`). Both halves together touch what the compile touches, the files that a split adds, and the two that no words name
/// (`files`). All commands but the halves need what they need in the plan (`others`), and the assembler all (`all`). So the last commands
/// of a plan may be such (`plans`).
pub fn splits()
    ensures plans { EndsPlan }
    ensures compiler { CompilersWords }
    ensures assembler { AssemblersWords }
    ensures files { HalvesTouch }
    ensures others { OthersNeedTheSame }
    ensures all { AssemblerNeedsAll }
{}

/// Every order by the needs of a split leaves the same in every file as its own order, and every command reads the same, if the commands
/// stay within their records (`agree`). So do runs that stop early (`runs`). The needs hold those of files (`hold`), as the laws of
/// commands that overlap, and of schedules, ask.
///
/// In every file but those of the split, that is what the plan's own order leaves (`products`). Three premises: the commands in front
/// ignore these files; fatbinary does the same with another name for one of its files; and the two halves, one after the other, do what
/// the compile does (`HalvesDoTheSame`). Tests show the last one, for the words that [`split_compile`](crate::split_compile) accepts.
pub fn late_orders()
    ensures hold { LateNeedsHold }
    ensures agree { LateOrdersAgree }
    ensures runs { LateRunsAgree }
    ensures products { LateProducts }
{}
