//! The command lines of ptxas, which assembles PTX to machine code.

ghost use Rattle.std.specs.Prelude.{◌≡◌, map};
ghost use Rattle.compilers.specs.Table.{entry_of};
ghost use Rattle.device_lines.specs.Ptxas as spec;

use crate::options::ArgData;
use compilers::table::{ArgInfo, EITHER_WAY_OR_EQUALS, SEPARATED, Table};
use texts::text::Text;

/// ptxas's options, as in sccache 0.19.0's table.
pub const ARGS: [ArgInfo<ArgData>; 3] = [
    ArgInfo::TakeArg("-arch", ArgData::PassThrough, EITHER_WAY_OR_EQUALS),
    ArgInfo::TakeArg("-m", ArgData::PassThrough, EITHER_WAY_OR_EQUALS),
    ArgInfo::TakeArg("-o", ArgData::Output, SEPARATED),
];

/// ptxas's option table.
pub fn table() -> Table<'static, ArgData>
    ensures { map entry_of result.rows.now ≡ spec.ptxas_options }
{
    Table { rows: &ARGS }
}

/// ptxas, as a compiler.
#[derive(Debug, PartialEq, Drop)]
pub struct Ptxas {
    /// The text of its version, if known.
    pub version: Option<Text>,
}
