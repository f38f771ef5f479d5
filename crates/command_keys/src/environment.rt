//! The environment variables that count in a key.

ghost use Rattle.std.specs.Prelude.{◌≡◌, ◌++◌, map, flat_map, IfOk, OnOk, option_copied};
ghost use Rattle.command_keys.specs.Keys.{shown, shown_variable};
ghost use Rattle.command_keys.specs.ToolVariables as spec;

use compilers::plans::Program;
use std::alloc::{AllocError, Global};

// What the C library and its loader read in any tool.
fn names_of_loader() -> &'static [&'static str]
    ensures { map shown result.now ≡ spec.read_by_loader }
{
    &["GLIBC_TUNABLES", "LD_AUDIT", "LD_PRELOAD"]
}

// What a tool reads itself.
fn names_of(tool: Program) -> &'static [&'static str]
    ensures { map shown result.now ≡ spec.read_by_code tool }
{
    match tool {
        Program::Cicc => &[
            "EDG_BASE",
            "EDG_MODULES_PATH",
            "LLVM_OVERRIDE_PRODUCER",
            "NVVMCCWIZ",
            "NVVM_IR_VER_CHK",
            "NV_NVVM_VERSION",
            "PWD",
            "USR_INCLUDE",
        ],
        Program::Ptxas => &["CAN_FINALIZE_DEBUG", "DUMP_KNOBS_TO_FILE"],
        Program::Cudafe => &["EDG_BASE", "EDG_MODULES_PATH", "USR_INCLUDE"],
        Program::Fatbinary => &[],
        Program::Nvlink => &["CAN_FINALIZE_DEBUG", "LIBRARY_PATH"],
        Program::Other => &[
            "BINUTILS_ROOT",
            "CCC_OVERRIDE_OPTIONS",
            "COMPILER_PATH",
            "CPATH",
            "CPLUS_INCLUDE_PATH",
            "C_INCLUDE_PATH",
            "DEPENDENCIES_OUTPUT",
            "G++_ROOT",
            "GCC_COMPARE_DEBUG",
            "GCC_EXEC_PREFIX",
            "GCC_ROOT",
            "LANG",
            "LC_ALL",
            "LC_CTYPE",
            "LC_MESSAGES",
            "LIBRARY_PATH",
            "LLVM_OVERRIDE_PRODUCER",
            "LPATH",
            "PWD",
            "SOURCE_DATE_EPOCH",
            "SUNPRO_DEPENDENCIES",
        ],
    }
}

// The value of the last variable of an environment with a name.
fn last_value<'a>(environment: &[(&'a [u8], &'a [u8])], name: &[u8]) -> Option<&'a [u8]>
    ensures { option_copied result ≡ spec.last_value name.now (map shown_variable environment.now) }
{
    let mut last = None;
    for variable in environment {
        if variable.0 == name {
            last = Some(variable.1);
        }
    }
    last
}

// Puts the variables of these names last, with their values, as far as an environment sets them.
fn push_set<'a>(
    chosen: &mut Vec<(&'a [u8], &'a [u8])>,
    environment: &[(&'a [u8], &'a [u8])],
    names: &[&'static str],
) -> Result<(), AllocError>
    ensures { OnOk result (map shown_variable chosen.new.items
        ≡ map shown_variable chosen.old.items ++ flat_map (spec.variable_of (map shown_variable environment.now)) (map shown names.now)) }
{
    for name in names {
        let name: &'a [u8] = name.as_bytes();
        if let Some(value) = last_value(environment, name) {
            chosen.push((name, value))?;
        }
    }
    Ok(())
}

/// The variables that a tool reads, with their values, as far as `environment` sets them: always in one order, whatever
/// the environment's is. Of a name that occurs twice, the last value counts.
///
/// They are those that may change what the tool makes (`specs/ToolVariables` says how they were found). A caller that also wants the
/// working directory in a key, which debugging information has, sets `PWD` to it.
pub fn tool_variables<'a>(
    alloc: Global,
    tool: Program,
    environment: &[(&'a [u8], &'a [u8])],
) -> Result<Vec<(&'a [u8], &'a [u8])>, AllocError>
    ensures { IfOk result (λ chosen. map shown_variable chosen.items ≡ spec.tool_variables tool (map shown_variable environment.now)) }
{
    let mut chosen = Vec::new(alloc);
    push_set(&mut chosen, environment, names_of_loader())?;
    push_set(&mut chosen, environment, names_of(tool))?;
    Ok(chosen)
}
