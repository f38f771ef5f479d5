//! Laws of the records and of what lines are read as, and lines worked out by hand, which the definitions compute.

ghost use Rattle.texts.specs.Equality.{TellsEqual, TellsEqualBy};
ghost use Rattle.compilers.specs.Items.{item_of};
ghost use Rattle.host_lines.specs.GccExamples.{LinesRead, LinesWritten, LinesParted};
ghost use Rattle.host_lines.specs.LineExamples as lines;

use crate::gcc::ArgData;
use crate::nvcc::{Nvcc, NvccCompileCommand};
use crate::nvhpc::Nvhpc;
use compilers::arguments::ColorMode;
use compilers::command::Cacheable;
use compilers::compiler::{CCompilerKind, NvccHostCompiler};
use compilers::items::{ArgParseError, Argument, NormalizedDisposition};
use compilers::table::ArgDisposition;
use texts::language::Language;

/// `==` compares all fields: it is true exactly for equal values.
pub fn equality()
    ensures { TellsEqual ⟦<Nvhpc as PartialEq>⟧.eq }
{}

/// `==` on nvcc's records says whether two values are equal.
pub fn nvcc_equality()
    ensures compiler { TellsEqual ⟦<Nvcc as PartialEq>⟧.eq }
    ensures command { TellsEqual ⟦<NvccCompileCommand as PartialEq>⟧.eq }
{}

/// `==` on the enums of a word or a flag says whether two values are equal.
pub fn enum_equality()
    ensures language { TellsEqual ⟦<Language as PartialEq>⟧.eq }
    ensures color_mode { TellsEqual ⟦<ColorMode as PartialEq>⟧.eq }
    ensures cacheable { TellsEqual ⟦<Cacheable as PartialEq>⟧.eq }
    ensures compiler_kind { TellsEqual ⟦<CCompilerKind as PartialEq>⟧.eq }
    ensures host_compiler { TellsEqual ⟦<NvccHostCompiler as PartialEq>⟧.eq }
    ensures gcc_kind { TellsEqual ⟦<ArgData as PartialEq>⟧.eq }
    ensures disposition { TellsEqual ⟦<ArgDisposition as PartialEq>⟧.eq }
    ensures normalized { TellsEqual ⟦<NormalizedDisposition as PartialEq>⟧.eq }
    ensures parse_error { TellsEqual ⟦<ArgParseError as PartialEq>⟧.eq }
{}

/// `==` on items says whether two items are equal, if `==` does so for the kinds of their options.
pub fn item_equality<T: Copy + PartialEq>()
    requires { TellsEqual T.eq }
    ensures { TellsEqualBy item_of ⟦<Argument<T> as PartialEq>⟧.eq }
{}

/// Worked lines, by the definitions: what gcc's are read and written as, and which words each item is read from (`parted`);
/// the words for kept files and for threads; the commands that preprocess inputs; and what nvhpc's and nvcc's are read as.
pub fn worked_lines()
    ensures read { LinesRead }
    ensures written { LinesWritten }
    ensures parted { LinesParted }
    ensures keep { lines.KeepWordsTaken }
    ensures threads { lines.ThreadWordsTaken }
    ensures preprocessed { lines.LinesPreprocessed }
    ensures read_by_nvhpc { lines.NvhpcLinesRead }
    ensures environment_adds_words { lines.EnvironmentAddsWords }
    ensures lines_are_read { lines.LinesAreRead }
    ensures words_are_written { lines.WordsAreWritten }
    ensures refusals_have_an_order { lines.RefusalsHaveAnOrder }
    ensures versions_are_joined { lines.VersionsAreJoined }
{}
