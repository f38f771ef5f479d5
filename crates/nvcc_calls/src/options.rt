//! nvcc's options, and what each is for.

ghost use Rattle.std.specs.Prelude.{◌≡◌, map};
ghost use Rattle.compilers.specs.Table.{entry_of};
ghost use Rattle.nvcc_calls.specs.Options as spec;

use crate::reason::Reason;
use compilers::table::{ArgInfo, EITHER_WAY, EITHER_WAY_OR_EQUALS, JOINED, Table};

/// What an option is for, as far as the normal form of a line depends on it.
#[derive(Clone, Copy, Debug)]
pub enum Purpose {
    /// A flag that stays as it is.
    Plain,
    /// A flag that has nvcc forward words that it doesn't know to the host compiler, or to its linker.
    Forward,
    /// An option whose value nvcc's shell sees without quotes.
    Unquoted,
    /// An option whose value nvcc puts in quotes, or reads itself.
    Quoted,
    /// The option that defines macros: `-D`.
    Define,
    /// The option that removes macros: `-U`.
    Undefine,
    /// The short name of the option for include folders: `-I`.
    Include,
    /// The option that names files to include first: `-include`.
    PreInclude,
    /// `--optimization-info`. Its short name begins with `-o`, which sccache's reader takes for the output.
    OptimizationInfo,
    /// `--target-directory`. Its short name begins with `-t`, which sccache's reader takes for a number of threads.
    TargetDirectory,
    /// A flag for the phase that the call ends with.
    Phase,
    /// The option that names the output.
    Output,
    /// The option that names the folder of an output without a name.
    OutputDirectory,
    /// The option that names the input's language.
    Language,
    /// The option that says how many threads nvcc may use.
    Threads,
    /// A flag that has nvcc keep intermediate files.
    Keep,
    /// The option that names the folder for intermediate files.
    KeepDirectory,
    /// A flag that asks for a dependency file: `-MD` or `-MMD`.
    Dependencies,
    /// The flag that adds a target for each dependency: `-MP`.
    DependencyPhonies,
    /// The option that names the dependency file: `-MF`.
    DependencyFile,
    /// The option that names the target in the dependency file: `-MT`.
    DependencyTarget,
    /// The option that names a file with further words.
    File,
    /// An option that leaves the call to nvcc, and why.
    Passes(Reason),
}

// The entries of a table, in groups of a form, a purpose and the texts: `flag PURPOSE => "TEXT" ..;` for options without a
// value, and `FORM PURPOSE => "TEXT" ..;` for options with one. `FORM` is a constant such as `JOINED`.
macro_rules! entries {
    ($($form:ident $purpose:expr => $($text:literal)+;)+) => {
        [$($(entry!($form, $purpose, $text)),+),+]
    };
}

// One entry of `entries`.
macro_rules! entry {
    (flag, $purpose:expr, $text:literal) => {
        ArgInfo::Flag($text, $purpose)
    };
    ($form:ident, $purpose:expr, $text:literal) => {
        ArgInfo::TakeArg($text, $purpose, $form)
    };
}

// nvcc 13's options: the names in `nvcc --help`, long and short, and `-Xcudafe`, `-Xcicc` and `-Xfatbin`, which nvcc takes
// without listing them. No two entries have one text.
//
// nvcc takes a value after `=` or as the next word, whatever that is. `-D`, `-I`, `-L`, `-O`, `-U`, `-l` and `-t` take it
// right behind them too. No other word that begins with a name is that option.
const OPTIONS: [ArgInfo<Purpose>; 299] = entries![
    // Flags that nvcc keeps to itself or passes on.
    flag Purpose::Plain =>
        "--allow-unsupported-compiler" "-allow-unsupported-compiler" "--compile-as-tools-patch"
        "-astoolspatch" "--debug" "-g" "--device-debug" "-G" "--disable-warnings" "-w"
        "--display-error-number" "-err-no" "--dlink-time-opt" "-dlto" "--dont-use-profile" "-noprof"
        "--expt-extended-lambda" "-expt-extended-lambda" "--expt-relaxed-constexpr"
        "-expt-relaxed-constexpr" "--extended-lambda" "-extended-lambda"
        "--extensible-whole-program" "-ewp" "--extra-device-vectorization"
        "-extra-device-vectorization" "--fdevice-syntax-only" "-fdevice-syntax-only"
        "--force-cl-env-setup" "-force-cl-env-setup" "--gen-opt-lto" "-gen-opt-lto"
        "--generate-line-info" "-lineinfo" "--keep-device-functions" "-keep-device-functions"
        "--lto" "-lto" "--m64" "-m64" "--no-align-double" "--no-compress" "-no-compress"
        "--no-device-link" "-nodlink" "--no-display-error-number" "-no-err-no" "--no-exceptions"
        "-noeh" "--no-host-device-initializer-list" "-nohdinitlist" "--no-host-device-move-forward"
        "-nohdmoveforward" "--profile" "-pg" "--relocatable-ptx" "-reloc-ptx" "--resource-usage"
        "-res-usage" "--restrict" "-restrict" "--shared" "-shared" "--source-in-ptx" "-src-in-ptx"
        "--use-local-env" "-use-local-env" "--use_fast_math" "-use_fast_math"
        "--Wdefault-stream-launch" "-Wdefault-stream-launch" "--Wext-lambda-captures-this"
        "-Wext-lambda-captures-this" "--Wmissing-launch-bounds" "-Wmissing-launch-bounds"
        "--Wno-deprecated-declarations" "-Wno-deprecated-declarations"
        "--Wno-deprecated-gpu-targets" "-Wno-deprecated-gpu-targets" "--Wreorder" "-Wreorder";
    flag Purpose::Forward =>
        "--forward-unknown-opts" "-forward-unknown-opts" "--forward-unknown-to-host-compiler"
        "-forward-unknown-to-host-compiler" "--forward-unknown-to-host-linker"
        "-forward-unknown-to-host-linker";
    // Options whose values nvcc's shell sees without quotes.
    EITHER_WAY_OR_EQUALS Purpose::Unquoted =>
        "--archive-options" "-Xarchive" "--archiver-binary" "-arbin" "--brief-diagnostics"
        "-brief-diag" "--cicc-options" "-Xcicc" "--compiler-bindir" "-ccbin" "--compiler-options"
        "-Xcompiler" "--compress-mode" "-compress-mode" "--cudadevrt" "-cudadevrt"
        "--cudafe-options" "-Xcudafe" "--cudart" "-cudart" "--default-stream" "-default-stream"
        "--device-entity-has-hidden-visibility" "-device-entity-has-hidden-visibility"
        "--device-stack-protector" "-device-stack-protector" "--diag-error" "-diag-error"
        "--diag-suppress" "-diag-suppress" "--diag-warn" "-diag-warn" "--dopt" "-dopt" "--entries"
        "-e" "--fatbin-options" "-Xfatbin" "--fmad" "-fmad" "--frandom-seed" "-frandom-seed"
        "--ftemplate-backtrace-limit" "-ftemplate-backtrace-limit" "--ftemplate-depth"
        "-ftemplate-depth" "--ftz" "-ftz" "--jump-table-density" "-jtd" "--libdevice-directory"
        "-ldir" "--library" "--linker-options" "-Xlinker" "--machine" "-m" "--maxrregcount"
        "-maxrregcount" "--nvlink-options" "-Xnvlink" "--Ofast-compile" "-Ofc" "--optimize"
        "--prec-div" "-prec-div" "--prec-sqrt" "-prec-sqrt" "--ptxas-options" "-Xptxas"
        "--qpp-config" "-qpp-config" "--relocatable-device-code" "-rdc" "--run-args" "-run-args"
        "--sanitize" "-sanitize" "--split-compile" "-split-compile" "--split-compile-extended"
        "-split-compile-extended" "--static-global-template-stub" "-static-global-template-stub"
        "--std" "-std" "--Werror" "-Werror";
    EITHER_WAY Purpose::Unquoted => "-l" "-O";
    JOINED Purpose::Unquoted => "-l=" "-O=";
    // Options whose values nvcc quotes, and those that a normal form spells in its own way.
    EITHER_WAY_OR_EQUALS Purpose::Quoted =>
        "--generate-code" "-gencode" "--gpu-architecture" "-arch" "--gpu-code" "-code"
        "--include-path" "--library-path" "--system-include" "-isystem";
    EITHER_WAY Purpose::Quoted => "-L";
    JOINED Purpose::Quoted => "-L=";
    EITHER_WAY_OR_EQUALS Purpose::Define => "--define-macro";
    EITHER_WAY Purpose::Define => "-D";
    JOINED Purpose::Define => "-D=";
    EITHER_WAY_OR_EQUALS Purpose::Undefine => "--undefine-macro";
    EITHER_WAY Purpose::Undefine => "-U";
    JOINED Purpose::Undefine => "-U=";
    EITHER_WAY Purpose::Include => "-I";
    JOINED Purpose::Include => "-I=";
    EITHER_WAY_OR_EQUALS Purpose::PreInclude => "--pre-include" "-include";
    EITHER_WAY_OR_EQUALS Purpose::OptimizationInfo => "--optimization-info" "-opt-info";
    EITHER_WAY_OR_EQUALS Purpose::TargetDirectory => "--target-directory" "-target-dir";
    flag Purpose::Phase =>
        "--compile" "-c" "--cubin" "-cubin" "--device-c" "-dc" "--device-w" "-dw" "--fatbin"
        "-fatbin" "--optix-ir" "-optix-ir" "--ptx" "-ptx";
    EITHER_WAY_OR_EQUALS Purpose::Output => "--output-file" "-o";
    EITHER_WAY_OR_EQUALS Purpose::OutputDirectory => "--output-directory" "-odir";
    EITHER_WAY_OR_EQUALS Purpose::Language => "--x" "-x";
    flag Purpose::Keep => "--keep" "-keep" "--save-temps" "-save-temps";
    EITHER_WAY_OR_EQUALS Purpose::KeepDirectory => "--keep-dir" "-keep-dir";
    EITHER_WAY_OR_EQUALS Purpose::Threads => "--threads";
    EITHER_WAY Purpose::Threads => "-t";
    JOINED Purpose::Threads => "-t=";
    flag Purpose::Dependencies =>
        "--generate-dependencies-with-compile" "-MD"
        "--generate-nonsystem-dependencies-with-compile" "-MMD";
    flag Purpose::DependencyPhonies => "--generate-dependency-targets" "-MP";
    EITHER_WAY_OR_EQUALS Purpose::DependencyFile => "--dependency-output" "-MF";
    EITHER_WAY_OR_EQUALS Purpose::DependencyTarget => "--dependency-target-name" "-MT";
    EITHER_WAY_OR_EQUALS Purpose::File => "--options-file" "-optf";
    // Options that leave the call to nvcc, and why.
    flag Purpose::Passes(Reason::Prints) =>
        "--dryrun" "-dryrun" "--help" "-h" "--list-gpu-arch" "-arch-ls" "--list-gpu-code" "-code-ls"
        "--verbose" "-v" "--version" "-V";
    flag Purpose::Passes(Reason::Cleans) => "--clean-targets" "-clean";
    flag Purpose::Passes(Reason::Links) =>
        "--augment-host-linker-script" "-aug-hls" "--device-link" "-dlink" "--lib" "-lib" "--link"
        "-link" "--relocatable-link" "-r" "--run" "-run";
    EITHER_WAY_OR_EQUALS Purpose::Passes(Reason::Links) => "--host-linker-script" "-hls";
    flag Purpose::Passes(Reason::OtherPhase) =>
        "--cuda" "-cuda" "--generate-dependencies" "-M" "--generate-nonsystem-dependencies" "-MM"
        "--ltoir" "-ltoir" "--preprocess" "-E";
    EITHER_WAY_OR_EQUALS Purpose::Passes(Reason::Measures) =>
        "--fdevice-time-trace" "-fdevice-time-trace" "--time" "-time";
    flag Purpose::Passes(Reason::TemporaryFiles) => "--objdir-as-tempdir" "-objtemp";
    flag Purpose::Passes(Reason::Jobserver) => "--jobserver" "-jobserver";
    EITHER_WAY_OR_EQUALS Purpose::Passes(Reason::DrivePrefix) =>
        "--dependency-drive-prefix" "-ddp" "--drive-prefix" "-dp" "--input-drive-prefix" "-idp";
    flag Purpose::Passes(Reason::StandardInput) => "-";
];

/// nvcc's option table.
pub fn table() -> Table<'static, Purpose>
    ensures { map entry_of result.rows.now ≡ spec.nvcc_entries }
{
    Table { rows: &OPTIONS }
}
