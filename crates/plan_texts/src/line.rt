//! The text of a device tool's line, read and written back.

ghost use Rattle.std.specs.Prelude.{◌≡◌, [], IfOk, map, string_bytes};
ghost use Rattle.compilers.specs.Command.{written};
ghost use Rattle.texts.specs.Fault.{UnlessMemory};
ghost use Rattle.plan_texts.specs.Shown as spec;

use crate::tool::Tool;
use compilers::arguments::{CompilerArguments, ParsedArguments};
use compilers::compiler::CCompilerImpl;
use device_lines::cicc::{self, Cicc};
use device_lines::cudafe::{self, CudaFE};
use device_lines::ptxas::Ptxas;
use std::alloc::{AllocError, Global};
use texts::fault::Fault;
use texts::text::Text;

// Each word on a line of its own.
fn shown_words(alloc: Global, words: &[String]) -> Result<String, AllocError>
    ensures { IfOk result (λ text. string_bytes text ≡ spec.show_line (map string_bytes words.now)) }
{
    let mut text = String::new(alloc);
    for word in words {
        text.push_str(word.as_str())?;
        text.push_str("\n")?;
    }
    Ok(text)
}

// The text of arguments that a tool writes back.
fn arguments_text(
    alloc: Global,
    tool: Tool,
    cwd: &str,
    parsed: &ParsedArguments,
) -> Result<Option<Text>, Fault>
    ensures { UnlessMemory result (spec.show_command (written (spec.words_of tool) [] parsed.now cwd.now [])) }
{
    let (command, _) = match tool {
        Tool::Cicc | Tool::Ptxas => cicc::generate_compile_commands(alloc, "", parsed, cwd, &[])?,
        Tool::CudaFe => cudafe::generate_compile_commands(alloc, "", parsed, cwd, &[])?,
    };
    Ok(Some(Text::new(shown_words(alloc, command.arguments.as_slice())?)))
}

/// Reads the words of a tool's line at the working directory `cwd`, writes them back, and gives the written words, each
/// followed by a newline. `None` if the line compiles nothing.
///
/// Fails if the line names no output (`Fault::MissingOutput`).
pub fn show_line(
    alloc: Global,
    tool: Tool,
    cwd: &str,
    words: &[String],
) -> Result<Option<Text>, Fault>
    ensures { UnlessMemory result (spec.line_text tool cwd.now (map string_bytes words.now)) }
{
    let reading = match tool {
        Tool::Cicc => Cicc { version: None }.parse_arguments(alloc, words, cwd, &[])?,
        Tool::Ptxas => Ptxas { version: None }.parse_arguments(alloc, words, cwd, &[])?,
        Tool::CudaFe => CudaFE { version: None }.parse_arguments(alloc, words, cwd, &[])?,
    };
    let text = match &reading {
        CompilerArguments::Ok(parsed) => arguments_text(alloc, tool, cwd, parsed),
        _ => Ok(None),
    };
    // Dropped by a call: see "Explicit drops" in docs/ARCHITECTURE.md.
    drop(reading);
    text
}
