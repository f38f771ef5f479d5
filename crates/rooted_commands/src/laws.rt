//! Laws of rooted names.

ghost use Rattle.rooted_commands.specs.Laws.{CheckoutsAgree, PathsStayDistinct, OneFolderIsExact, RootKeepsSteps, OwnPathsComeBack, RootedPathsLeadHome};
ghost use Rattle.rooted_commands.specs.Checkouts.{AlikePlansRunAlike, EqualPathsAreOnePlace, RootedWordsAgree};
ghost use Rattle.rooted_commands.specs.WrittenNames.{HostsWriteGeneratedPaths, HostsWriteRootedPaths};
ghost use Rattle.rooted_commands.specs.MarkerExamples.{NamesAreRooted, RawStringsStay, DoubtfulLinesStay};

/// What the root does for all paths and commands.
///
/// What is below one checkout and below another has one rooted path (`same`). Two paths that aren't below the root themselves have
/// different ones, unless the same is behind the checkout's folders in both (`distinct`); where it has one folder, they are one path as
/// seen from the call's directory (`exact`). A command's record, its role in any group, and whether it preprocesses stay (`steps`).
/// In what a tool says, a plain name's path below the first folder comes back from its rooted path (`back`). By its rooted path, what is
/// below one checkout's folder is the same below another one's (`home`), and paths of two calls that have one are one place (`places`).
pub fn roots()
    ensures same { CheckoutsAgree }
    ensures distinct { PathsStayDistinct }
    ensures exact { OneFolderIsExact }
    ensures steps { RootKeepsSteps }
    ensures back { OwnPathsComeBack }
    ensures home { RootedPathsLeadHome }
    ensures places { EqualPathsAreOnePlace }
{}

/// What runs in two checkouts of a project, by the plans of two calls.
///
/// What a host compiler writes for a path that is clear to its prefix maps is the rooted path (`hosts`), and for a generated file a path
/// below `/tmp` (`generated`). Words of a tool of nvcc that are alike but for the checkouts' folders are equal with rooted names (`words`).
/// If the commands of two plans are alike, place by place, whatever the calls' folders of generated files are called, each tool has one
/// program, folder and variables in both, and the same words, but for ends that name generated files in these folders; and each host
/// compiler writes the same for clear paths of one place, its own folder among them, and for generated files of one name (`checkouts`).
pub fn plans()
    ensures hosts { HostsWriteRootedPaths }
    ensures generated { HostsWriteGeneratedPaths }
    ensures words { RootedWordsAgree }
    ensures checkouts { AlikePlansRunAlike }
{}

/// What comes of some preprocessed texts.
pub fn worked_texts()
    ensures names { NamesAreRooted }
    ensures raw_strings { RawStringsStay }
    ensures doubtful { DoubtfulLinesStay }
{}
