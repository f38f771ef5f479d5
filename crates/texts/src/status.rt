//! How a process ended, and what it wrote.

ghost use Rattle.std.specs.Prelude.{◌≡◌, ℤ, pos, IsTrue, ◌↔◌, IfOk};
ghost use Rattle.texts.specs.Status.{status_of_code};
ghost use Rattle.texts.specs.Endings.{status_of_signal, code_of_status, signal_of_status};

use crate::bytes::Bytes;
use std::alloc::{AllocError, Global};
use std::marker::Model;

/// How a process ended, as the number that Unix's `wait` gives: the exit code in bits 8 to 15, or a
/// signal's number in the low seven bits.
#[derive(Clone, Copy, Debug, PartialEq)]
pub struct ExitStatus {
    raw: i32,
}

impl Model for ExitStatus {
    ghost Value = { ℤ };

    ghost view = { λ s. s.raw };

    ghost inverse = { λ z. record { raw = z } };
}

impl ExitStatus {
    /// The status of a process that exits with `code`, of which the low eight bits count.
    pub fn from_code(code: i32) -> ExitStatus
        ensures { result ≡ status_of_code code }
    {
        ExitStatus {
            raw: code.rem_euclid(256) * 256,
        }
    }

    /// The status of a process that a signal ended: the signal's own number. That of 0 is a success.
    pub fn from_signal(signal: i32) -> ExitStatus
        ensures { result ≡ status_of_signal signal }
    {
        ExitStatus { raw: signal }
    }

    /// The code that the process exited with: bits 8 to 15, if the low seven bits are 0. So a number with
    /// no more than bit 7 has code 0, though it isn't success.
    pub fn code(self) -> Option<i32>
        ensures { result ≡ code_of_status self }
    {
        if self.raw.rem_euclid(128) == 0 {
            Some(self.raw.div_euclid(256).rem_euclid(256))
        } else {
            None
        }
    }

    /// The signal that ended the process: the low seven bits, unless they are 0, as of a process that
    /// exited, or 127, as of one that was stopped.
    pub fn signal(self) -> Option<i32>
        ensures { result ≡ signal_of_status self }
    {
        match self.raw.rem_euclid(128) {
            0 | 127 => None,
            signal => Some(signal),
        }
    }

    /// Whether the process exited with code 0.
    pub fn success(self) -> bool
        ensures { IsTrue result ↔ (self ≡ pos 0) }
    {
        self.raw == 0
    }
}

/// How a process ended and the bytes that it wrote.
#[derive(Debug, PartialEq, Drop)]
pub struct Output {
    /// How the process ended.
    pub status: ExitStatus,
    /// What it wrote to its standard output.
    pub stdout: Bytes,
    /// What it wrote to its standard error.
    pub stderr: Bytes,
}

impl Output {
    /// An equal output, in memory of its own.
    pub fn try_clone(&self, alloc: Global) -> Result<Output, AllocError>
        ensures { IfOk result (λ o. o ≡ self.now) }
    {
        Ok(Output {
            status: self.status,
            stdout: self.stdout.try_clone(alloc)?,
            stderr: self.stderr.try_clone(alloc)?,
        })
    }
}

/// What a compiler that was run to its end left.
#[derive(Debug, PartialEq, Drop)]
pub struct CompileFinished {
    /// The code that it exited with, if it did.
    pub retcode: Option<i32>,
    /// The signal that ended it, if one did.
    pub signal: Option<i32>,
    /// What it wrote to its standard output.
    pub stdout: Bytes,
    /// What it wrote to its standard error.
    pub stderr: Bytes,
}

impl CompileFinished {
    /// An equal value, in memory of its own.
    pub fn try_clone(&self, alloc: Global) -> Result<CompileFinished, AllocError>
        ensures { IfOk result (λ f. f ≡ self.now) }
    {
        Ok(CompileFinished {
            retcode: self.retcode,
            signal: self.signal,
            stdout: self.stdout.try_clone(alloc)?,
            stderr: self.stderr.try_clone(alloc)?,
        })
    }
}
