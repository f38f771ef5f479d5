//! A plan in a format.

ghost use Rattle.plan_texts.specs.Answers.{Answers};
ghost use Rattle.plan_formats.specs.Texts as spec;

use compilers::plans::PlanWithOrigins;
use plan_json::json_text;
use plan_texts::{Format, Refusal, ninja_file, shell_script, show_plan};
use std::alloc::Global;

/// A plan as the text of a format, given what it was made for: the working directory `cwd`, the temporary directory `tmp` and the
/// compilation flag. JSON has no newline at its end.
///
/// Fails if the format can't represent the plan, and if memory runs out.
pub fn plan_text(
    alloc: Global,
    format: Format,
    cwd: &str,
    tmp: &str,
    flag: &str,
    planned: &PlanWithOrigins,
) -> Result<String, Refusal>
    ensures { Answers result (spec.text_in format (record { cwd = cwd.now; tmp = tmp.now; flag = flag.now; planned = planned.now })) }
{
    let plan = &planned.plan;
    match format {
        Format::Shell => shell_script(alloc, tmp, plan),
        Format::Ninja => ninja_file(alloc, tmp, plan),
        Format::Json => Ok(json_text(alloc, cwd, tmp, flag, planned)?),
        Format::Text => Ok(show_plan(alloc, plan)?),
    }
}

/// The same as a file: JSON ends in a newline too.
pub fn plan_file(
    alloc: Global,
    format: Format,
    cwd: &str,
    tmp: &str,
    flag: &str,
    planned: &PlanWithOrigins,
) -> Result<String, Refusal>
    ensures { Answers result (spec.file_in format (record { cwd = cwd.now; tmp = tmp.now; flag = flag.now; planned = planned.now })) }
{
    let mut text = plan_text(alloc, format, cwd, tmp, flag, planned)?;
    if matches!(format, Format::Json) {
        text.push_str("\n")?;
    }
    Ok(text)
}
