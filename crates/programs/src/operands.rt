//! The operands of calls.

ghost use Rattle.std.specs.Prelude.{◌≡◌, map, string_bytes, option_map};
ghost use Rattle.programs.specs.Operands as spec;

use plan_texts::Tool;

/// A call that reads a tool's line and writes it back.
#[derive(Debug, Drop)]
pub struct LineCall<'a> {
    /// The tool whose line it is.
    pub tool: Tool,
    /// The working directory's path.
    pub cwd: &'a str,
    /// The line's words, without the tool's name.
    pub words: &'a [String],
}

/// Parses `TOOL CWD WORD..`. `None` if the words have another form or name another tool.
pub fn line_call<'a>(words: &'a [String]) -> Option<LineCall<'a>>
    ensures { option_map spec.line_of result ≡ spec.line_call_of (map string_bytes words.now) }
{
    let [tool, cwd, line @ ..] = words else {
        return None;
    };
    Some(LineCall {
        tool: Tool::named(tool.as_str())?,
        cwd: cwd.as_str(),
        words: line,
    })
}

/// A call that plans the dry runs of two files.
#[derive(Debug, Drop)]
pub struct PlanCall<'a> {
    /// The working directory's path.
    pub cwd: &'a str,
    /// The temporary directory's path.
    pub tmp: &'a str,
    /// The compilation flag, as `-c`.
    pub flag: &'a str,
    /// The path of the first dry run's file.
    pub dry1: &'a str,
    /// The path of the second dry run's file.
    pub dry2: &'a str,
    /// Further suffixes of generated files.
    pub suffixes: &'a [String],
}

/// Parses `CWD TMP FLAG DRY1 DRY2 SUFFIX..`. `None` if the words are too few.
pub fn plan_call<'a>(words: &'a [String]) -> Option<PlanCall<'a>>
    ensures { option_map spec.plan_of result ≡ spec.plan_call_of (map string_bytes words.now) }
{
    let [cwd, tmp, flag, dry1, dry2, suffixes @ ..] = words else {
        return None;
    };
    Some(PlanCall {
        cwd: cwd.as_str(),
        tmp: tmp.as_str(),
        flag: flag.as_str(),
        dry1: dry1.as_str(),
        dry2: dry2.as_str(),
        suffixes,
    })
}
