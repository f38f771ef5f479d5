//! Why a call goes to nvcc unchanged.

ghost use Rattle.std.specs.Prelude.{◌≡◌, Some};
ghost use Rattle.nvcc_calls.specs.Reasons.{text_of};

use std::fmt;

/// Why a call goes to nvcc unchanged. Its text says so in a few words.
#[derive(Clone, Copy, Debug, PartialEq)]
pub enum Reason {
    /// The call links, makes a library or runs a program; so does a call that names no phase.
    Links,
    /// It names a phase that isn't split: it preprocesses, lists dependencies, or makes `.cu.cpp.ii` or `.ltoir`.
    OtherPhase,
    /// It names more than one phase.
    SeveralPhases,
    /// It names no input.
    NoInput,
    /// It names several inputs.
    SeveralInputs,
    /// Its input is no CUDA, C or C++ source.
    NotSource,
    /// It asks for device code of a C or C++ source.
    HostSource,
    /// nvcc prints something: its commands, a list, a help text.
    Prints,
    /// nvcc removes files.
    Cleans,
    /// nvcc measures times.
    Measures,
    /// A file that it reads options from isn't there, or nvcc reads it in a way of its own.
    OptionsFile,
    /// It keeps temporary files beside the object.
    TemporaryFiles,
    /// It uses make's jobserver.
    Jobserver,
    /// It names a prefix of drives, which only Windows has.
    DrivePrefix,
    /// It reads standard input.
    StandardInput,
    /// It writes standard output, or its output has no name.
    StandardOutput,
    /// nvcc's rule for the output's name doesn't say which one: the source's name begins with a `.`.
    HiddenName,
    /// A word looks like an option and isn't one of nvcc's, and nvcc doesn't forward it, or a normal form can't hold it.
    UnknownOption,
    /// An option lacks its value.
    MissingValue,
    /// A value that nvcc refuses, or that a normal form can't express.
    BadValue,
    /// It asks for a dependency file whose name or target isn't a usual one, or that has one name for both, or it names a
    /// file without asking for it.
    DependencyWords,
    /// A character that nvcc's shell may read as its own: an expansion, an operator or a line's end.
    ShellCharacter,
    /// `NVCC_PREPEND_FLAGS` or `NVCC_APPEND_FLAGS` has a quote, a backslash or a control character.
    VariableQuotes,
    /// Sccache's reader reads the normal form in another way than nvcc.
    OtherReading,
    /// A word or a directory contains what ends the name of a generated file. A plan renames such files, wherever their names are.
    GeneratedName,
    /// A shell may expand the name of the working directory or of the temporary one.
    DirectoryName,
    /// A word for a tool, such as ptxas, may name a file: commands of a plan may write it side by side, or seek it at another place.
    ToolFile,
    /// Several preprocessors may write one dependency file at once.
    HostFile,
    /// The output may have the name of a file that is kept.
    KeptName,
    /// It reads a file that was open when nvcc began, as standard input is, or makes its product there.
    OpenFile,
}

impl Reason {
    /// What it says.
    pub fn text(&self) -> &'static str
        ensures { result.now ≡ text_of self.now }
    {
        match self {
            Reason::Links => "it links",
            Reason::OtherPhase => "its phase isn't split",
            Reason::SeveralPhases => "it names several phases",
            Reason::NoInput => "it names no input",
            Reason::SeveralInputs => "it names several inputs",
            Reason::NotSource => "its input is no CUDA, C or C++ source",
            Reason::HostSource => "its input has no device code",
            Reason::Prints => "it prints something",
            Reason::Cleans => "it removes files",
            Reason::Measures => "it measures times",
            Reason::OptionsFile => "an options file is missing or odd",
            Reason::TemporaryFiles => "its temporary files go beside the object",
            Reason::Jobserver => "it uses make's jobserver",
            Reason::DrivePrefix => "it names a prefix of drives",
            Reason::StandardInput => "it reads standard input",
            Reason::StandardOutput => "its output is no file",
            Reason::HiddenName => "its output's name isn't certain",
            Reason::UnknownOption => "an option is unknown",
            Reason::MissingValue => "an option lacks its value",
            Reason::BadValue => "an option has an odd value",
            Reason::DependencyWords => "its dependency file is an odd one",
            Reason::ShellCharacter => "nvcc's shell may expand a word",
            Reason::VariableQuotes => "NVCC_PREPEND_FLAGS or NVCC_APPEND_FLAGS has quotes",
            Reason::OtherReading => "its words can be read in two ways",
            Reason::GeneratedName => "a name looks like that of a generated file",
            Reason::DirectoryName => "nvcc's shell may expand its directory's name",
            Reason::ToolFile => "a word for a tool may name a file",
            Reason::HostFile => "several preprocessors may write one file",
            Reason::KeptName => "its output may have the name of a kept file",
            Reason::OpenFile => "it uses an open file",
        }
    }
}

impl fmt::Display for Reason {
    ghost output = { λ r. Some (text_of r) };

    fn fmt<W: fmt::Write>(&self, f: &mut fmt::Formatter<W>) -> fmt::Result {
        f.write_str(self.text())
    }
}
