//! The files that commands write.

ghost use Rattle.std.specs.Prelude.{◌≡◌, IfOk, OnOk, map, string_bytes};
ghost use Rattle.plan_fitness.specs.Written as spec;

use std::alloc::{AllocError, Global};
use std::collections::HashMap;

/// The files that commands write. Contracts see a function that says of a path whether it is one.
#[derive(Drop)]
pub struct Written<'a> {
    paths: HashMap<&'a str, bool>,
}

impl<'a> Written<'a> {
    /// No files.
    pub fn new(alloc: Global) -> Written<'a>
        ensures { spec.seen result ≡ spec.no_files }
    {
        Written {
            paths: HashMap::new(alloc),
        }
    }

    // Adds a file.
    fn add(&mut self, path: &'a str) -> Result<(), AllocError>
        ensures { OnOk result (spec.seen self.new ≡ spec.with_file (spec.seen self.old) path.entry.now) }
    {
        self.paths.entry(path)?.or_insert(true);
        Ok(())
    }

    /// Adds files.
    pub fn add_all(&mut self, paths: &'a [String]) -> Result<(), AllocError>
        ensures { OnOk result (spec.seen self.new ≡ spec.with_files (spec.seen self.old) (map string_bytes paths.entry.now)) }
    {
        for path in paths {
            self.add(path.as_str())?;
        }
        Ok(())
    }

    /// Whether a file is among them.
    pub fn has(&self, path: &str) -> bool
        ensures { result ≡ spec.seen self.now path.now }
    {
        self.paths.contains_key(path)
    }
}
