//! Why nvcc makes a call whose line could be split.

ghost use Rattle.std.specs.Prelude.{◌≡◌, IfOk, map, string_bytes};
ghost use Rattle.std.specs.List.{list_any};
ghost use Rattle.canonical_names.specs.Alike as alike;
ghost use Rattle.compilers.specs.Calls.{nvcc_of};
ghost use Rattle.nvcc_calls.specs.Hazards as spec;
ghost use Rattle.nvcc_calls.specs.ToolWords as tool;

use crate::asked::reason_unless;
use crate::tool_words::may_name_file;
use crate::{Asked, Call, Reason, extension_of_phase, has_extension};
use compilers::NvccCall;
use std::alloc::{AllocError, Global};
use texts::extension::{last, with_extension};

pub(crate) fn holds(text: &str, part: &str) -> bool
    ensures { result ≡ alike.holds part.now text.now }
{
    text.contains(part)
}

// Whether a text may be changed where generated files get canonical names.
fn may_be_renamed(text: &str) -> bool
    ensures { result ≡ spec.may_be_renamed text.now }
{
    holds(text, ".cpp1.ii")
        || holds(text, ".cpp4.ii")
        || holds(text, ".cudafe1.c")
        || holds(text, ".cudafe1.cpp")
        || holds(text, ".cudafe1.stub.c")
}

// Whether a shell leaves a directory's name as it is in double quotes.
fn is_plain_directory(path: &str) -> bool
    ensures { result ≡ spec.is_plain_directory path.now }
{
    path.as_bytes().iter().all(|byte| {
        b' ' <= *byte && *byte != b'$' && *byte != b'\\' && *byte != b'`' && *byte != 127
    })
}

fn one_names_file(words: &[String]) -> bool
    ensures { result ≡ list_any tool.may_name_file (map string_bytes words.now) }
{
    for word in words {
        if may_name_file(word.as_str()) {
            return true;
        }
    }
    false
}

fn is_host_option(word: &str) -> bool
    ensures { result ≡ tool.begins_with_one spec.host_options word.now }
{
    let word = word.as_bytes();
    word.starts_with(b"-Xcompiler=")
        || word.starts_with(b"--compiler-options=")
        || word.starts_with(b"-Wp,")
}

// Whether a word has each command of the host compiler write a dependency file, or its times to one.
fn writes_file(word: &str) -> bool
    ensures { result ≡ spec.writes_file word.now }
{
    is_host_option(word)
        && (holds(word, "=-M")
            || holds(word, ",-M")
            || holds(word, "-dependencies")
            || holds(word, "=-time=")
            || holds(word, ",-time="))
}

fn one_writes_file(words: &[String]) -> bool
    ensures { result ≡ list_any spec.writes_file (map string_bytes words.now) }
{
    for word in words {
        if writes_file(word.as_str()) {
            return true;
        }
    }
    false
}

// Whether a word asks nvcc to keep generated files.
fn asks_to_keep(word: &str) -> bool
    ensures { result ≡ spec.asks_to_keep word.now }
{
    matches!(word, "--keep" | "-keep" | "--save-temps" | "-save-temps")
}

fn one_asks_to_keep(words: &[String]) -> bool
    ensures { result ≡ list_any spec.asks_to_keep (map string_bytes words.now) }
{
    for word in words {
        if asks_to_keep(word.as_str()) {
            return true;
        }
    }
    false
}

fn is_kept_name(alloc: Global, call: &Call) -> Result<bool, AllocError>
    ensures { IfOk result (λ b. b ≡ spec.is_kept_name call.now) }
{
    let beginning = with_extension(alloc, last(call.input.as_str()), "")?;
    let output = call.output.as_str();
    Ok(
        last(output).as_bytes().starts_with(beginning.as_bytes())
            && !has_extension(extension_of_phase(call.flag.as_str()), output),
    )
}

// Whether a text names a file that is open when nvcc begins.
fn names_open_file(text: &str) -> bool
    ensures { result ≡ spec.names_open_file text.now }
{
    holds(text, "/dev/stdin")
        || holds(text, "/dev/fd/")
        || (holds(text, "/proc/") && holds(text, "/fd/"))
}

fn uses_open_file(asked: &Asked, normal: &Call) -> bool
    ensures { result ≡ spec.uses_open_file asked.now normal.now }
{
    for word in asked.kept.as_slice() {
        if names_open_file(word.as_str()) {
            return true;
        }
    }
    names_open_file(normal.input.as_str()) || names_open_file(normal.output.as_str())
}

fn is_renamed(call: &NvccCall<'_>, normal: &Call) -> bool
    ensures { result ≡ spec.is_renamed (nvcc_of call.now) normal.now }
{
    for word in normal.words.as_slice() {
        if may_be_renamed(word.as_str()) {
            return true;
        }
    }
    may_be_renamed(call.cwd) || may_be_renamed(call.tmp) || may_be_renamed(call.nvcc)
}

/// Why nvcc makes a call whose line could be split, if a plan of it would make something else: a text looks like the name of a
/// generated file, a shell may expand a directory's name, commands would read or write a file at another place or side by
/// side, a kept file would replace the output, or a file is used that was open when nvcc began, as standard input is.
///
/// It sees names alone: no link to such an open file, no name of one below `/dev` as the working directory, and no header that a
/// source includes. A caller that runs commands looks at the disk for that.
pub fn hazard_of(
    alloc: Global,
    call: &NvccCall<'_>,
    asked: &Asked,
    normal: &Call,
) -> Result<Option<Reason>, AllocError>
    ensures { IfOk result (λ reason. reason ≡ spec.hazard_of (nvcc_of call.now) asked.now normal.now) }
{
    let words = normal.words.as_slice();
    let is_plain = is_plain_directory(call.cwd) && is_plain_directory(call.tmp);
    let is_kept = one_asks_to_keep(words) && is_kept_name(alloc, normal)?;
    let reason = reason_unless(is_plain, Reason::DirectoryName)
        .or(reason_unless(!is_renamed(call, normal), Reason::GeneratedName))
        .or(reason_unless(!one_names_file(words), Reason::ToolFile))
        .or(reason_unless(!one_writes_file(words), Reason::HostFile))
        .or(reason_unless(!is_kept, Reason::KeptName))
        .or(reason_unless(!uses_open_file(asked, normal), Reason::OpenFile));
    Ok(reason)
}
