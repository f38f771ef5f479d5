//! What holds of every call.

ghost use Rattle.nvcc_calls.specs.Directory.{IdentitiesDiffer};
ghost use Rattle.nvcc_calls.specs.Laws as law;

/// Calls that differ in a part differ in the text that names their directory.
pub fn identities()
    ensures { IdentitiesDiffer }
{}

/// Laws of all lines and environments.
///
/// If a line is split, sccache's reader accepts its normal form, at every working directory, and its arguments have the
/// input, the output and the compilation flag of nvcc's own reading of the line (`reading`). A normal form is its own
/// (`normal`).
pub fn split_lines()
    ensures reading { law.SplitLinesReadAlike }
    ensures normal { law.NormalFormsAreKept }
{}

/// If a line is split, nvcc reads in the words of its dry runs what it reads in the line, with the words of both variables and of options
/// files: the same phase, the same words for the host compiler, and for each of nvcc's options the same values in the same order. Options
/// of outputs, languages, kept files, dependency files and threads don't count.
pub fn split_options()
    ensures { law.SplitLinesKeepOptions }
{}
