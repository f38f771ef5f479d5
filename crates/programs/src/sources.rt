//! Files that a program reads.

ghost use Rattle.std.specs.Prelude.{ℕ, List, ◌≡◌, Option, Some, None, MatchResult};
ghost use Rattle.texts.specs.declared.fault.Fault.TheVariants.{Read};
ghost use Rattle.texts.specs.Fault.{UnlessMemoryIs};

use std::fs::{self, Files};
use std::io::ErrorKind;
use texts::fault::Fault;

/// The files that a program reads, by their paths.
pub trait Sources {
    /// What a file may hold, by its path: bytes, or none if it can't be read.
    ghost holds: { Self → List ℕ → Option (List ℕ) → Type 0 };

    /// The bytes of the file at `path`.
    ///
    /// Fails if the file can't be opened or read (`Fault::Read`), and if memory runs out.
    fn read_file(&self, path: &str) -> Result<Vec<u8>, Fault>
        ensures { MatchResult result (λ bytes. holds self.now path.now (Some bytes.items))
            (λ fault. UnlessMemoryIs fault ((fault ≡ Read) × holds self.now path.now None)) };
}

/// The files of the disk. What they hold isn't known to contracts, since std's say nothing of it, and so any bytes will do:
/// of code that reads any `Sources` they still say which file's bytes it works on.
#[derive(Drop)]
pub struct Disk<'a, R> {
    rt: &'a R,
}

impl<'a, R: Files + AllocGlobal> Disk<'a, R> {
    /// The disk that `rt` reads.
    pub fn new(rt: &'a R) -> Disk<'a, R> {
        Disk { rt }
    }
}

impl<R: Files + AllocGlobal> Sources for Disk<'_, R> {
    ghost holds = { λ _ _ _. Unit {0} };

    fn read_file(&self, path: &str) -> Result<Vec<u8>, Fault> {
        match fs::read(self.rt, path) {
            Ok(bytes) => Ok(bytes),
            Err(error) if error.kind() == ErrorKind::OutOfMemory => Err(Fault::Memory),
            Err(_) => Err(Fault::Read),
        }
    }
}
