//! Laws of canonical names, and examples worked out by hand.

ghost use Rattle.texts.specs.Equality.{TellsEqual};
ghost use Rattle.canonical_names.specs.AlikeExamples.{OneKernelIsClean, ReferenceIsNotClean, OneKernelIsAlike, OtherPatternIsNotAlike};
ghost use Rattle.canonical_names.specs.CanonicalNames.{StandardAreSuffixes, DifferentNames, FolderAndClassStay, OtherWordsStay, RankCountsNames, CleanRunIsAMap, AlikeRunsAgree, OneCanonicalRun, RenamedOnceForAll};
ghost use Rattle.canonical_names.specs.RenamingNeeds.{Agree, AreAlikeFirstUnclean, AreAlikeSecondUnclean, AreCleanByAnyMap, AreCleanInOtherFolders, OneRunIsAlikeFirstUnclean, OneRunIsAlikeSecondUnclean, EveryRunIsRenamedOnce};
ghost use Rattle.canonical_names.specs.RenamingExamples.{LongestReferenceFirst, EarlyReferenceStays, OneMarkIsLeft, FolderStaysAsAPath, FolderLosesItsDot, FirstNameComesAgain, SecondNameComesAgain, OneKernelIsRenamed, EveryCommandCounts, BeginningIsTakenForTheName, SourceFileIsRenamed};
ghost use Rattle.canonical_names.specs.SuffixRule.{AcceptedAreSuffixes};

use crate::suffixes::Suffixes;

/// `==` on lists of suffixes says whether they are equal.
pub fn equality()
    ensures suffixes { TellsEqual ⟦<Suffixes as PartialEq>⟧.eq }
{}

/// Every list of suffixes that `Suffixes::new` accepts has what the laws of canonical names ask for.
pub fn accepted_suffixes()
    ensures { AcceptedAreSuffixes }
{}

/// Examples: what the words of some commands are renamed to, by the definitions.
pub fn worked_renamings()
    ensures longest_reference_first { LongestReferenceFirst }
    ensures early_reference_stays { EarlyReferenceStays }
    ensures one_mark_is_left { OneMarkIsLeft }
    ensures folder_stays_as_a_path { FolderStaysAsAPath }
    ensures folder_loses_its_dot { FolderLosesItsDot }
    ensures first_name_comes_again { FirstNameComesAgain }
    ensures second_name_comes_again { SecondNameComesAgain }
    ensures one_kernel_is_renamed { OneKernelIsRenamed }
    ensures every_command_counts { EveryCommandCounts }
    ensures beginning_is_taken_for_the_name { BeginningIsTakenForTheName }
    ensures source_file_is_renamed { SourceFileIsRenamed }
{}

/// Examples: which runs are clean or alike, by the definitions.
pub fn worked_likeness()
    ensures one_kernel_is_clean { OneKernelIsClean }
    ensures reference_is_not_clean { ReferenceIsNotClean }
    ensures one_kernel_is_alike { OneKernelIsAlike }
    ensures other_pattern_is_not_alike { OtherPatternIsNotAlike }
{}

/// Laws of the canonical names of every run, for every list of suffixes of which none is an end of another
/// and none contains `/`. nvcc's own suffixes are such a list (`standard`).
///
/// A canonical name keeps its folder, as a path, and its suffix (`kept`). A word that isn't generated and
/// contains no name seen so far keeps its text, except that of several leading `-Fi` only one is left
/// (`others`). A name's rank is the number of different names of its suffix that appear before it in the run
/// (`ranks`). In a clean run each word is renamed on its own, by all names of the run (`clean`).
pub fn canonical_names()
    ensures standard { StandardAreSuffixes }
    ensures kept { FolderAndClassStay }
    ensures others { OtherWordsStay }
    ensures ranks { RankCountsNames }
    ensures clean { CleanRunIsAMap }
{}

/// Two clean runs have the same canonical run if (`agree`) and only if (`alike`) they are alike. This holds for
/// every list of suffixes of which none is an end of another and none contains `/`. Different generated names of
/// a run get different canonical names (`different`). Renaming a clean run twice is the same as renaming it
/// once, even if its canonical run isn't clean (`once`).
pub fn renaming()
    ensures agree { AlikeRunsAgree }
    ensures alike { OneCanonicalRun }
    ensures different { DifferentNames }
    ensures once { RenamedOnceForAll }
{}

/// None of the premises of `renaming` can be dropped. Runs that are alike may have different canonical runs if
/// one of them isn't clean (`agree_first_clean`, `agree_second_clean`), or if the map of their names isn't
/// one-to-one (`agree_one_to_one`) or changes a folder (`agree_folder`). Runs with the same canonical run may
/// differ otherwise if one of them isn't clean (`alike_first_clean`, `alike_second_clean`). And renaming an
/// unclean run twice may change it again: with a suffix of the caller's own, a reference to a name can become a
/// generated name (`once_clean`).
pub fn renaming_needs()
    ensures agree_first_clean { Agree AreAlikeFirstUnclean → ⊥ }
    ensures agree_second_clean { Agree AreAlikeSecondUnclean → ⊥ }
    ensures agree_one_to_one { Agree AreCleanByAnyMap → ⊥ }
    ensures agree_folder { Agree AreCleanInOtherFolders → ⊥ }
    ensures alike_first_clean { OneRunIsAlikeFirstUnclean → ⊥ }
    ensures alike_second_clean { OneRunIsAlikeSecondUnclean → ⊥ }
    ensures once_clean { EveryRunIsRenamedOnce → ⊥ }
{}
