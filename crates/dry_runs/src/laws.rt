//! Laws of dry runs, and runs worked out by hand, which the definitions compute.

ghost use Rattle.dry_runs.specs.DryRunExamples.{OneKernelIsRead, LastLineNeedsNoNewline, NothingIsRead, UnmarkedLineIsNotText, QuoteIsOpen, CommentIsNoCommand, NoPathIsSet, DigitMakesACommand, PathIsEmpty, FirstBadLineDecides, ProgramsAreMissing, EmptyProgramIsLookedUp, ReferenceAtTheEndStays, OneReferenceExpandsAll, LetterFollowsAReference, FirstValueIsExpanded, ValuesAreExpandedInOrder, FirstPathCounts, OtherNamesAreRead, LastLineKeepsItsReturn, ByteOrderMarkUnmarks, ValuesAreKeptAsTheyStand, FirstFolderIsEmpty, FolderNeedsAPathToo, NameIsSetTwice, OtherCharactersEndAName, WordCharactersGoOn, AllThatIsHeldCounts, TextsOnTheWayCount, FirstOfBothDecides, UnmarkedLinesAreFree, CommandsBeforeABadLine, EachRunHasTheLimit, MissingProgramIsFirst, PathCounts};
ghost use Rattle.dry_runs.specs.Parsed.{ParsesThenResolves};

pub use compilers::dry_run_laws::equality;

/// What some dry runs say, by the definitions.
pub fn worked_runs()
    ensures one_kernel_is_read { OneKernelIsRead }
    ensures last_line_needs_no_newline { LastLineNeedsNoNewline }
    ensures nothing_is_read { NothingIsRead }
    ensures unmarked_line_is_not_text { UnmarkedLineIsNotText }
    ensures quote_is_open { QuoteIsOpen }
    ensures comment_is_no_command { CommentIsNoCommand }
    ensures no_path_is_set { NoPathIsSet }
    ensures digit_makes_a_command { DigitMakesACommand }
    ensures path_is_empty { PathIsEmpty }
    ensures first_bad_line_decides { FirstBadLineDecides }
    ensures programs_are_missing { ProgramsAreMissing }
    ensures empty_program_is_looked_up { EmptyProgramIsLookedUp }
    ensures reference_at_the_end_stays { ReferenceAtTheEndStays }
    ensures one_reference_expands_all { OneReferenceExpandsAll }
    ensures letter_follows_a_reference { LetterFollowsAReference }
    ensures first_value_is_expanded { FirstValueIsExpanded }
    ensures values_are_expanded_in_order { ValuesAreExpandedInOrder }
    ensures first_path_counts { FirstPathCounts }
    ensures other_names_are_read { OtherNamesAreRead }
    ensures last_line_keeps_its_return { LastLineKeepsItsReturn }
    ensures byte_order_mark_unmarks { ByteOrderMarkUnmarks }
    ensures values_are_kept_as_they_stand { ValuesAreKeptAsTheyStand }
    ensures first_folder_is_empty { FirstFolderIsEmpty }
    ensures folder_needs_a_path_too { FolderNeedsAPathToo }
    ensures name_is_set_twice { NameIsSetTwice }
    ensures other_characters_end_a_name { OtherCharactersEndAName }
    ensures word_characters_go_on { WordCharactersGoOn }
{}

/// What some dry runs say that are read within a limit, by the definitions.
pub fn worked_limits()
    ensures all_that_is_held_counts { AllThatIsHeldCounts }
    ensures texts_on_the_way_count { TextsOnTheWayCount }
    ensures first_of_both_decides { FirstOfBothDecides }
    ensures unmarked_lines_are_free { UnmarkedLinesAreFree }
{}

/// Parsing a dry run and then looking up its programs says what reading it with the look-up says; and runs that are parsed,
/// by the definitions.
pub fn parsing()
    ensures composed { ParsesThenResolves }
    ensures commands_before_a_bad_line { CommandsBeforeABadLine }
    ensures missing_program_is_first { MissingProgramIsFirst }
    ensures path_counts { PathCounts }
    ensures each_run_has_the_limit { EachRunHasTheLimit }
{}
