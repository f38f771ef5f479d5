//! What a program was started with.

ghost use Rattle.std.specs.Prelude.{ℕ, List, Option, None, Some, IfOk};
ghost use Rattle.programs.specs.Start as spec;

use crate::stop::Stop;
use std::alloc::{AllocError, Global};
use std::env;
use std::io::ErrorKind;
use std::rt::Env;
use texts::words::Words;

/// The words that a program was started with.
pub trait Start {
    /// Which words these may be, the program's name first, or none if one isn't UTF-8.
    ghost words: { Self → Option (List (List ℕ)) → Type 0 };

    /// The words, or `None` if one isn't UTF-8. The only error is a failed allocation.
    fn words(&self, alloc: Global) -> Result<Option<Words>, AllocError>
        ensures { IfOk result (λ all. words self.now all) };
}

/// The process that a program runs in. What it was started with isn't known to contracts, since std's say nothing of it, and
/// so any words will do: of code that asks any `Start` they still say which words it works on.
#[derive(Drop)]
pub struct Process<'a, R> {
    rt: &'a R,
}

impl<'a, R: Env + AllocGlobal> Process<'a, R> {
    /// The process of `rt`.
    pub fn new(rt: &'a R) -> Process<'a, R> {
        Process { rt }
    }
}

impl<R: Env + AllocGlobal> Start for Process<'_, R> {
    ghost words = { λ _ _. Unit {0} };

    fn words(&self, alloc: Global) -> Result<Option<Words>, AllocError> {
        match env::args(self.rt) {
            Ok(args) => Ok(Some(Words::from_vec(args.collect(alloc)?))),
            Err(error) if error.kind() == ErrorKind::OutOfMemory => Err(AllocError),
            Err(_) => Ok(None),
        }
    }
}

/// The words after the program's name, or none if one isn't UTF-8, so that a program never takes part of a call for
/// another call.
///
/// Fails if memory runs out.
pub fn call_words<S: Start>(alloc: Global, start: &S) -> Result<Words, Stop>
    ensures { spec.AreCallWords (S.words start.now) result }
{
    match start.words(alloc)? {
        Some(words) => match words.as_slice() {
            [_, rest @ ..] => Ok(Words::copy_of(alloc, rest)?),
            [] => Ok(Words::new(alloc)),
        },
        None => Ok(Words::new(alloc)),
    }
}
