//! What the options of the device tools are for.

/// What an option of a device tool's line is for.
#[derive(Clone, Copy, Debug, PartialEq)]
pub enum ArgData {
    /// The tool's main output.
    Output,
    /// An option that affects the output.
    PassThrough,
    /// A flag that doesn't affect the output.
    UnhashedFlag,
    /// The flag that asks for a module id file.
    GenModuleIdFileFlag,
    /// The path of the module id file.
    ModuleIdFileName,
    /// An option with a value that doesn't affect the output.
    UnhashedPassThrough,
    /// Another file that the tool writes.
    UnhashedOutput,
}
