//! Calls that read an nvcc line: the line, and the directories that it depends on.

/// A call that reads an nvcc line.
#[derive(Debug, Drop)]
pub struct NvccCall<'a> {
    /// The working directory's path.
    pub cwd: &'a str,
    /// The temporary directory's path.
    pub tmp: &'a str,
    /// nvcc's path or name.
    pub nvcc: &'a str,
    /// The line's words, without nvcc's name.
    pub words: &'a [String],
}

/// A call that asks for the name of an nvcc call's directory.
#[derive(Debug, Drop)]
pub struct DirectoryCall<'a> {
    /// The working directory's path.
    pub cwd: &'a str,
    /// nvcc's path or name.
    pub nvcc: &'a str,
    /// The line's words, without nvcc's name.
    pub words: &'a [String],
}
