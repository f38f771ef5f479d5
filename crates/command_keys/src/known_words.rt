//! The words that a cache knows of each tool: the one table of what is safe to cache, and of what a word is to a key.
//!
//! A command with any other word has no key. The word may make the tool read or write a file that the command's record doesn't
//! name, or say something else each time.

ghost use Rattle.std.specs.Prelude.{◌≡◌, map, option_map};
ghost use Rattle.std.specs.List.{find, list_any};
ghost use Rattle.std.specs.Option.{option_or};
ghost use Rattle.command_keys.specs.Keys.{shown};
ghost use Rattle.command_keys.specs.KnownWords as spec;
ghost use Rattle.command_keys.specs.WordTable as table;

use compilers::plans::Program;

/// Which words a row fits.
#[derive(Clone, Copy, Debug)]
pub enum Form {
    /// The row's text itself.
    Whole,
    /// Each word that begins with the row's text and goes on.
    Beginning,
    /// The row's text itself. The next word is its value.
    Valued,
}

/// What a word is to a key.
#[derive(Clone, Copy, Debug)]
pub enum Meaning {
    /// It may change what the command makes or says.
    Counts,
    /// It counts, and by it names of files and directories reach the product: all of them count, and so does the working directory.
    Names,
    /// The same, and the product's own name reaches it.
    OwnName,
    /// Only a preprocessor reads it, whose text counts by itself.
    Preprocessor,
    /// It names a file, in the value or behind the beginning. The name of a product doesn't count.
    File,
    /// It's an image for fatbinary: one of its parts names a file that is read.
    Image,
    /// No cache may serve a command with it, whatever row fits it too.
    Refused,
}

/// A row of the table.
#[derive(Clone, Copy, Debug)]
pub struct KnownWord {
    /// The word, or what it begins with.
    pub text: &'static str,
    /// Which words the row fits.
    pub form: Form,
    /// What such a word is to a key.
    pub meaning: Meaning,
    /// What the tool does by it.
    pub does: &'static str,
}

// Rows without commas, which `rt fmt` leaves as they are, in place of six lines for each.
macro_rules! rows {
    ($($form:ident $meaning:ident $text:literal $does:literal)+) => {
        &[$(KnownWord { text: $text, form: Form::$form, meaning: Meaning::$meaning, does: $does }),+]
    };
}

fn of_front_ends() -> &'static [KnownWord]
    ensures { map spec.row_of result.now ≡ table.of_front_ends }
{
    rows![
        Whole Counts "--allow_managed" "takes managed variables"
        Whole Counts "--c++03" "reads C++03"
        Whole Counts "--c++11" "reads C++11"
        Whole Counts "--c++14" "reads C++14"
        Whole Counts "--c++17" "reads C++17"
        Whole Counts "--c++20" "reads C++20"
        Whole Names "--debug_mode" "keeps what a debugger asks for, with paths"
        Whole Counts "--device-c" "makes device code that can be linked"
        Whole Counts "--device-hidden-visibility" "hides the stubs of kernels from other objects"
        Whole Counts "--display_error_number" "numbers its messages"
        Whole Counts "--extended-lambda" "takes lambdas with __device__"
        Whole Counts "--gen_module_id_file" "writes the module id, whose file another word names"
        Whole Counts "--keep-device-functions" "keeps device functions that nothing calls"
        Whole Counts "--m64" "takes pointers for 64 bits"
        Whole Counts "--no-device-int128" "has no __int128 in device code"
        Whole Counts "--no_warnings" "says no warnings"
        Whole Counts "--parse_templates" "parses templates that nothing uses"
        Whole Counts "--promote_warnings" "fails by a warning"
        Whole Counts "--relaxed_constexpr" "lets device code call constexpr functions of the host"
        Whole Counts "--simt-only" "compiles no tile code; from nvcc 13.1 on"
        Whole Counts "--static-host-stub" "makes stubs of kernels static"
        Beginning Counts "--diag_error=" "makes a message an error"
        Beginning Counts "--diag_suppress=" "leaves a message out"
        Beginning Counts "--diag_warn=" "makes a message a warning"
        Beginning Counts "--gnu_version=" "reads the dialect of this version of gcc"
        Beginning Counts "--unicode_source_kind=" "says how the text is encoded"
        Valued Counts "--diag_error" "makes a message an error"
        Valued Counts "--diag_suppress" "leaves a message out"
        Valued Counts "--diag_warn" "makes a message a warning"
        Valued File "--gen_c_file_name" "writes the host code there"
        Valued File "--module_id_file_name" "cudafe++ writes the module id there, and cicc reads it"
        Valued Counts "--orig_src_file_name" "puts the source's name into the host code"
        Valued Counts "--orig_src_path_name" "makes the module id of the source's path"
        Valued Counts "--stub_file_name" "cicc writes the stubs there, with this name in them, and cudafe++ includes them by it"
    ]
}

fn of_cicc() -> &'static [KnownWord]
    ensures { map spec.row_of result.now ≡ table.of_cicc }
{
    rows![
        Whole Counts "--gen_div_approx_ftz" "divides approximately"
        Whole Counts "--no-version-ident" "leaves its version out of its text"
        Whole Counts "-O0" "doesn't optimize"
        Whole Counts "-extra-device-vectorization" "vectorizes more loops"
        Whole Counts "-fast-math" "calculates approximately"
        Whole Names "-g" "writes what a debugger asks for, with paths"
        Whole Names "-generate-line-info" "writes lines, with the paths of their files"
        Whole Names "-inline-info" "writes which calls were inlined, with paths"
        Whole Counts "-kernel-params-are-restrict" "takes it that no two pointers of a kernel overlap"
        Whole Counts "-m64" "makes code for 64 bits"
        Whole Counts "-tused" "keeps what a texture uses"
        Beginning Counts "-fmad=" "joins multiplications and additions, or doesn't"
        Beginning Counts "-ftz=" "takes denormal numbers as zero, or doesn't"
        Beginning Counts "-prec_div=" "divides exactly, or doesn't"
        Beginning Counts "-prec_sqrt=" "takes roots exactly, or doesn't"
        Valued File "--gen_device_file_name" "writes the device code as C there"
        Valued Counts "--include_file_name" "puts the fatbin's name into the stubs"
        Valued Counts "-arch" "makes code for this architecture"
        Valued Counts "-maxreg" "uses this many registers at most"
        Valued File "-o" "writes the PTX there"
        Valued Counts "-split-compile" "runs this many threads"
    ]
}

fn of_ptxas() -> &'static [KnownWord]
    ensures { map spec.row_of result.now ≡ table.of_ptxas }
{
    rows![
        Whole Counts "--compile-only" "makes code that can be linked"
        Whole Counts "--dont-merge-basicblocks" "keeps basic blocks apart, for debuggers; no name reaches the cubin by it"
        Whole Names "--generate-line-info" "writes lines; of each file that the PTX names, its size and when it was changed"
        Whole Counts "--return-at-end" "keeps the return at a function's end, for debuggers; no name reaches the cubin by it"
        Whole Counts "--warning-as-error" "fails by a warning"
        Whole Counts "-O0" "doesn't optimize"
        Whole Counts "-O1" "optimizes a little"
        Whole Counts "-O2" "optimizes"
        Whole Counts "-O3" "optimizes most"
        Whole OwnName "-g" "writes what a debugger asks for, with the names of the PTX and of the cubin"
        Whole Names "-lineinfo" "is --generate-line-info"
        Whole Counts "-m64" "makes code for 64 bits"
        Whole Counts "-suppress-stack-size-warning" "doesn't warn of stacks of unknown size"
        Whole Counts "-v" "says what each kernel uses"
        Whole Counts "-warn-lmem-usage" "warns of local memory"
        Whole Counts "-warn-spills" "warns of spilled registers"
        Beginning Counts "--allow-expensive-optimizations=" "optimizes for longer, or doesn't"
        Beginning Counts "--maxrregcount=" "uses this many registers at most"
        Beginning Counts "-arch=sm_" "makes code for this architecture"
        Beginning Counts "-dlcm=" "says how loads are cached"
        Beginning Counts "-maxrregcount=" "is --maxrregcount="
        Beginning Counts "-split-compile=" "runs this many threads"
        Valued File "-o" "writes the cubin there"
    ]
}

fn of_fatbinary() -> &'static [KnownWord]
    ensures { map spec.row_of result.now ≡ table.of_fatbinary }
{
    rows![
        Whole Counts "--device-c" "says that the code can be linked"
        Whole Counts "-64" "says that the code is for 64 bits"
        Whole Counts "-compress-all" "compresses all images"
        Whole Counts "-g" "says that the code is for debuggers; no name reaches the fatbin by it"
        Beginning Counts "--cicc-cmdline=" "writes cicc's words into the fatbin"
        Beginning Counts "--cmdline=" "writes ptxas's words into the fatbin"
        Beginning Counts "--compress-mode=" "says how to compress"
        Beginning File "--create=" "writes the fatbin there"
        Beginning File "--embedded-fatbin=" "writes the fatbin as C there"
        Beginning Counts "--ident=" "writes this name into the fatbin"
        Beginning Image "--image3=" "packs a file, with its kind and architecture"
        Beginning Counts "-compress=" "compresses the images, or doesn't"
    ]
}

// gcc's
fn of_hosts() -> &'static [KnownWord]
    ensures { map spec.row_of result.now ≡ table.of_hosts }
{
    rows![
        Beginning Refused "-Wa," "has the assembler take further words"
        Beginning Refused "-Wl," "has the linker take further words"
        Beginning Refused "-Wp," "has the preprocessor take further words"
        Whole Refused "-march=native" "makes code for this machine's processor"
        Whole Refused "-mtune=native" "makes code that suits this machine's processor"
        Valued Preprocessor "-D" "defines a name"
        Valued Preprocessor "-I" "looks for headers there"
        Valued Preprocessor "-U" "forgets a name"
        Valued Preprocessor "-isystem" "looks for headers there, whose warnings it doesn't say"
        Beginning Preprocessor "-D" "defines a name"
        Beginning Preprocessor "-I" "looks for headers there"
        Beginning Preprocessor "-U" "forgets a name"
        Valued File "-o" "writes its product there"
        Valued Counts "-x" "reads this language"
        Whole Counts "-O" "is -O1"
        Whole Counts "-O0" "doesn't optimize"
        Whole Counts "-O1" "optimizes a little"
        Whole Counts "-O2" "optimizes"
        Whole Counts "-O3" "optimizes most"
        Whole Counts "-Ofast" "optimizes most, and calculates approximately"
        Whole Counts "-Og" "optimizes as far as debuggers can follow"
        Whole Counts "-Os" "optimizes for size"
        Whole Counts "-S" "makes assembler text"
        Whole Counts "-c" "makes an object"
        Whole Counts "-fPIC" "makes code for shared libraries"
        Whole Counts "-fPIE" "makes code for programs at any address"
        Whole Counts "-fcf-protection" "marks where jumps may go"
        Whole Counts "-fdata-sections" "gives each variable a section"
        Whole Counts "-ffast-math" "calculates approximately"
        Whole Counts "-ffunction-sections" "gives each function a section"
        Whole Counts "-fno-asynchronous-unwind-tables" "writes no tables for each instruction"
        Whole Counts "-fno-common" "keeps variables of one name apart"
        Whole Counts "-fno-exceptions" "has no exceptions"
        Whole Counts "-fno-gnu-unique" "lets libraries have their own variables"
        Whole Counts "-fno-math-errno" "sets no errno in mathematical functions"
        Whole Counts "-fno-omit-frame-pointer" "keeps frame pointers"
        Whole Counts "-fno-plt" "calls functions of libraries without a table"
        Whole Counts "-fno-rtti" "has no types at run time"
        Whole Counts "-fno-semantic-interposition" "takes it that no library replaces a function"
        Whole Counts "-fno-strict-aliasing" "takes it that pointers of any types can be equal"
        Whole Counts "-fno-trapping-math" "takes it that calculations raise no signal"
        Whole Counts "-fomit-frame-pointer" "keeps no frame pointers"
        Whole Counts "-fopenmp" "reads OpenMP"
        Whole Counts "-fpermissive" "takes some errors as warnings"
        Whole Counts "-fpic" "is -fPIC, for small libraries"
        Whole Counts "-fpie" "is -fPIE, for small programs"
        Whole Counts "-fsigned-char" "has signed char"
        Whole Counts "-funroll-loops" "unrolls loops"
        Whole Counts "-funsigned-char" "has unsigned char"
        Whole Counts "-fvisibility-inlines-hidden" "hides inline functions from other objects"
        Whole Counts "-fwrapv" "lets sums wrap"
        Whole Names "-g" "writes what a debugger asks for, with paths"
        Whole Counts "-g0" "writes nothing for debuggers"
        Whole Names "-g1" "writes a little for debuggers, with paths"
        Whole Names "-g2" "is -g"
        Whole Names "-ggdb" "is -g, for gdb"
        Whole Counts "-m64" "makes code for 64 bits"
        Whole Counts "-pedantic" "warns of what the standard doesn't have"
        Whole Counts "-pthread" "defines a name, for threads"
        Whole Counts "-w" "says no warnings"
        Beginning Counts "-W" "warns of something, or doesn't"
        Beginning Counts "-fdiagnostics-color" "colours its messages"
        Beginning Counts "-fmax-errors=" "stops after some errors"
        Beginning Counts "-fmessage-length=" "breaks its messages"
        Beginning Counts "-frandom-seed=" "makes names of this text that are random otherwise"
        Beginning Counts "-fstack-protector" "guards stacks"
        Beginning Counts "-ftemplate-depth=" "limits templates in templates"
        Beginning Counts "-fvisibility=" "says which objects see a function"
        Beginning Names "-gdwarf-" "is -g, in a version of DWARF"
        Beginning Counts "-march=" "makes code for these processors"
        Beginning Counts "-mavx" "uses AVX"
        Beginning Counts "-mbmi" "uses BMI"
        Beginning Counts "-mf16c" "uses F16C"
        Beginning Counts "-mfma" "uses FMA"
        Beginning Counts "-mpopcnt" "uses POPCNT"
        Beginning Counts "-msse" "uses SSE"
        Beginning Counts "-mtune=" "makes code that suits these processors"
        Beginning Counts "-std=" "reads this version of the language"
    ]
}

/// The rows of a tool's own words. Any program that isn't nvcc's counts as gcc; nvlink, which reads libraries by name, has none.
pub fn own_words(tool: Program) -> &'static [KnownWord]
    ensures { map spec.row_of result.now ≡ table.own_words tool }
{
    match tool {
        Program::Cudafe => of_front_ends(),
        Program::Cicc => of_cicc(),
        Program::Ptxas => of_ptxas(),
        Program::Fatbinary => of_fatbinary(),
        Program::Nvlink => &[],
        Program::Other => of_hosts(),
    }
}

/// The rows of words that a tool has in common with cudafe++. cicc has such: both are front ends.
pub fn shared_words(tool: Program) -> &'static [KnownWord]
    ensures { map spec.row_of result.now ≡ table.shared_words tool }
{
    match tool {
        Program::Cicc => of_front_ends(),
        _ => &[],
    }
}

// Whether a row fits a word.
fn fits(row: &KnownWord, word: &[u8]) -> bool
    ensures { result ≡ spec.fits word.now (spec.row_of row.now) }
{
    let text = row.text.as_bytes();
    match row.form {
        Form::Beginning => word.len() > text.len() && word.starts_with(text),
        Form::Whole | Form::Valued => word == text,
    }
}

// The first row that fits a word.
fn first_row(rows: &[KnownWord], word: &[u8]) -> Option<KnownWord>
    ensures { option_map spec.row_of result ≡ find (spec.fits word.now) (map spec.row_of rows.now) }
{
    for row in rows {
        if fits(row, word) {
            return Some(*row);
        }
    }
    None
}

/// The row of the table that says what a word of a tool is: the first that fits it, of the tool's own words and then of those that it
/// shares. `None` if the table doesn't have the word.
pub fn known_word(tool: Program, word: &[u8]) -> Option<KnownWord>
    ensures { option_map spec.row_of result ≡ table.known_word tool word.now }
{
    match first_row(own_words(tool), word) {
        Some(row) => Some(row),
        None => first_row(shared_words(tool), word),
    }
}

// Whether names of files reach the product by a word.
fn shows_names(tool: Program, word: &[u8]) -> bool
    ensures { result ≡ table.shows_names tool word.now }
{
    match known_word(tool, word) {
        Some(row) => matches!(row.meaning, Meaning::Names | Meaning::OwnName),
        None => false,
    }
}

// Whether the product's own name does.
fn shows_own_name(tool: Program, word: &[u8]) -> bool
    ensures { result ≡ table.shows_own_name tool word.now }
{
    match known_word(tool, word) {
        Some(row) => matches!(row.meaning, Meaning::OwnName),
        None => false,
    }
}

/// Whether names of files and directories reach what a command with these words makes, as with `-g` and `-lineinfo`. Then a key has to
/// count all paths as they are, words for the preprocessor too, and the working directory, as the variable `PWD`; and of each file that PTX
/// names in a `.file`, its size and when it was changed, which ptxas writes. Commands with such a key may be served by any cache.
pub fn names_reach(tool: Program, words: &[&[u8]]) -> bool
    ensures { result ≡ list_any (table.shows_names tool) (map shown words.now) }
{
    for word in words {
        if shows_names(tool, word) {
            return true;
        }
    }
    false
}

/// Whether the product's own name reaches it, too, as by ptxas's `-g`. Then it counts, and a cache can't have the command write elsewhere.
pub fn own_name_reaches(tool: Program, words: &[&[u8]]) -> bool
    ensures { result ≡ list_any (table.shows_own_name tool) (map shown words.now) }
{
    for word in words {
        if shows_own_name(tool, word) {
            return true;
        }
    }
    false
}
