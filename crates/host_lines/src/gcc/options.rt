//! The options that the gcc reader knows: this project's profile of gcc's options.

ghost use Rattle.std.specs.Prelude.{◌≡◌, true, map};
ghost use Rattle.compilers.specs.Table.{entry_of};
ghost use Rattle.host_lines.specs.GccOptions.{gcc_entries, differ};

use compilers::entries;
use compilers::table::{ArgInfo, EITHER_WAY, JOINED, JOINED_BY_EQUALS, SEPARATED, Table};

/// What an option of a gcc-like compiler is for.
#[derive(Clone, Copy, Debug, PartialEq)]
pub enum ArgData {
    /// An option with a value that no cache can serve.
    TooHard,
    /// A flag that no cache can serve.
    TooHardFlag,
    /// An option with a value, for the compiler.
    PassThrough,
    /// A flag for the compiler.
    PassThroughFlag,
    /// An option with a value, for the preprocessor.
    PreprocessorArgument,
    /// A flag for the preprocessor.
    PreprocessorArgumentFlag,
    /// An option whose value is a path, for the preprocessor.
    PreprocessorArgumentPath,
    /// The option that names the dependency file.
    DepArgumentPath,
    /// An option that names the target in the dependency file.
    DepTarget,
    /// A flag that asks for a dependency file, which needs a target.
    NeedDepTarget,
    /// A flag that asks for a compilation.
    DoCompilation,
    /// The option that names the file that is made.
    Output,
    /// The option that names the input's language.
    Language,
    /// An option that names an architecture.
    Arch,
    /// The option that names the language's standard.
    Standard,
    /// An option that names a file whose contents are part of a cache key.
    ExtraHashFile,
    /// An option with a value that is no part of a cache key.
    Unhashed,
    /// A flag that is no part of a cache key.
    UnhashedFlag,
}

/// The options of the profile. No two have one text.
pub const ARGS: [ArgInfo<ArgData>; 47] = entries![
    flag TooHardFlag: "-" "-E" "-M" "-MM" "-P" "--save-temps" "-save-temps" "-fsyntax-only";
    JOINED TooHard: "@";
    flag NeedDepTarget: "-MD" "-MMD" "-MP";
    SEPARATED DepArgumentPath: "-MF";
    SEPARATED DepTarget: "-MQ" "-MT";
    EITHER_WAY PreprocessorArgument: "-D" "-U";
    EITHER_WAY PreprocessorArgumentPath:
        "-I" "-idirafter" "-imacros" "-include" "-iprefix" "-iquote" "-isysroot" "-isystem"
        "-iwithprefix" "-iwithprefixbefore";
    SEPARATED PreprocessorArgument: "-Xpreprocessor";
    JOINED_BY_EQUALS PreprocessorArgument: "-stdlib";
    flag PreprocessorArgumentFlag: "-nostdinc" "-nostdinc++" "-trigraphs" "-remap";
    SEPARATED PassThrough: "--param" "--sysroot" "-Xassembler" "-Xlinker" "-aux-info";
    EITHER_WAY PassThrough: "-B" "-L" "-u" "-z";
    JOINED_BY_EQUALS Standard: "-std";
    SEPARATED Arch: "-arch";
    flag DoCompilation: "-c";
    EITHER_WAY Output: "-o";
    EITHER_WAY Language: "-x";
];

/// The table of the profile's options.
pub fn table() -> Table<'static, ArgData>
    ensures entries { map entry_of result.rows.now ≡ gcc_entries }
    ensures differ { differ (map entry_of result.rows.now) ≡ true }
{
    Table { rows: &ARGS }
}
