//! What a comparison of dry runs has to know of the call.

/// What a comparison of dry runs has to know of the call.
#[derive(Debug, Drop)]
pub struct Comparison<'a> {
    /// The working directory's path, which is absolute.
    pub cwd: &'a str,
    /// The path of the directory that keeps generated files, or empty if none does.
    pub keep_dir: &'a str,
    /// Whether the line asks for a dependency file.
    pub writes_rule: bool,
}
