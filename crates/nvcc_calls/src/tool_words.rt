//! Whether a word for one of nvcc's tools may name a file.

ghost use Rattle.std.specs.Prelude.{◌≡◌, bytes_eq, map, nat_eq, option_copied};
ghost use Rattle.std.specs.List.{list_any, slice_split, starts_with};
ghost use Rattle.texts.specs.Lists.{is_some_and, rest_after};
ghost use Rattle.nvcc_calls.specs.ToolWords as spec;

// A list without commas, which `rt fmt` leaves as it is, in place of a line for each text.
macro_rules! text_list {
    ($($text:literal)+) => {
        &[$($text),+]
    };
}

fn tool_options() -> &'static [&'static str]
    ensures { map spec.shown result.now ≡ spec.tool_options }
{
    text_list![
        "-Xptxas=" "--ptxas-options=" "-Xfatbin=" "--fatbin-options=" "-Xcicc=" "--cicc-options="
        "-Xcudafe=" "--cudafe-options="
    ]
}

// Options of the tools whose values name no file.
fn valued_options() -> &'static [&'static str]
    ensures { map spec.shown result.now ≡ spec.valued_options }
{
    text_list![
        "abi=" "allow-expensive-optimizations=" "compress=" "compress-all=" "compress-mode="
        "def-load-cache=" "def-store-cache=" "diag_default=" "diag_error=" "diag_once="
        "diag_remark=" "diag_suppress=" "diag_warning=" "dlcm=" "dscm=" "error_limit=" "flcm="
        "fmad=" "force-load-cache=" "force-store-cache=" "fscm=" "ftz=" "inline-threshold="
        "maxrregcount=" "opt=" "opt-level=" "prec_div=" "prec_sqrt=" "register-usage-level="
        "split-compile=" "unroll-threshold="
    ]
}

fn switches() -> &'static [&'static str]
    ensures { map spec.shown result.now ≡ spec.switches }
{
    text_list![
        "O0" "O1" "O2" "O3" "O4" "Werror" "compress-all" "disable-optimizer-constants"
        "disable-optimizer-consts" "disable-warnings" "display_error_number"
        "dont-merge-basicblocks" "no-bb-merge" "no_display_error_number" "no_warnings"
        "no_wrap_diagnostics" "opt-fp-atomics" "optimize-float-atomics" "preserve-relocs"
        "promote_warnings" "remarks" "ret-end" "return-at-end" "sp-bounds-check"
        "suppress-debug-info" "suppress-double-demote-warning" "suppress-stack-size-warning" "v"
        "verbose" "w" "warn-double-usage" "warn-lmem-usage" "warn-on-double-precision-use"
        "warn-on-local-memory-usage" "warn-on-spills" "warn-spills" "warning-as-error"
    ]
}

fn begins_with_one(beginnings: &[&str], text: &[u8]) -> bool
    ensures { result ≡ spec.begins_with_one (map spec.shown beginnings.now) text.now }
{
    for beginning in beginnings {
        if text.starts_with(beginning.as_bytes()) {
            return true;
        }
    }
    false
}

fn is_among(names: &[&str], name: &[u8]) -> bool
    ensures { result ≡ list_any (bytes_eq name.now) (map spec.shown names.now) }
{
    for other in names {
        if name == other.as_bytes() {
            return true;
        }
    }
    false
}

fn has_odd(value: &[u8]) -> bool
    ensures { result ≡ list_any spec.is_odd value.now }
{
    value.iter().any(|byte| *byte <= 31 || *byte == b'"' || *byte == b'\'' || *byte == b'\\')
}

// An option's name, which may have a second dash before it.
fn name_of(option: &[u8]) -> &[u8]
    ensures { result.now ≡ spec.name_of option.now }
{
    match option {
        [b'-', name @ ..] => name,
        _ => option,
    }
}

// Whether an option without its dashes is known to name no file.
fn is_known(name: &[u8]) -> bool
    ensures { result ≡ spec.is_known name.now }
{
    if name.contains(&b'=') {
        begins_with_one(valued_options(), name)
    } else {
        is_among(switches(), name)
    }
}

// Whether one of the words that a tool gets may.
fn part_names_file(part: &[u8]) -> bool
    ensures { result ≡ spec.part_names_file part.now }
{
    match part {
        [] => false,
        [b'-', option @ ..] => !is_known(name_of(option)),
        _ => true,
    }
}

// Whether one of the words in a value may.
fn one_names_file(value: &[u8]) -> bool
    ensures { result ≡ list_any spec.part_names_file (slice_split spec.is_between value.now) }
{
    value
        .split(|byte| *byte == b',' || *byte == b' ')
        .any(part_names_file)
}

// Whether what nvcc gives a tool may.
fn value_names_file(value: &[u8]) -> bool
    ensures { result ≡ spec.value_names_file value.now }
{
    has_odd(value) || one_names_file(value)
}

fn rest_of<'a>(word: &'a str, text: &str) -> Option<&'a str>
    ensures { option_copied result ≡ rest_after text.now word.now }
{
    word.strip_prefix(text)
}

// Whether a word of nvcc's that begins with `option` may.
fn names_file_behind(option: &str, word: &str) -> bool
    ensures { result ≡ is_some_and spec.value_names_file (rest_after option.now word.now) }
{
    match rest_of(word, option) {
        Some(value) => value_names_file(value.as_bytes()),
        None => false,
    }
}

/// Whether a word of nvcc's normal form gives a tool, such as ptxas, a word that may name a file.
pub(crate) fn may_name_file(word: &str) -> bool
    ensures { result ≡ spec.may_name_file word.now }
{
    for option in tool_options() {
        if names_file_behind(option, word) {
            return true;
        }
    }
    false
}
