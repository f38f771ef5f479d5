//! Prints how the CUDA tools' lines are read and written back, and the plan of two dry runs.
#![tactic(auto)]

use program::{run_program, stopped};
use programs::{Disk, Process, call_words};
use std::io;
use std::process::ExitCode;

mod program;

fn main(rt: HostRuntime) -> ExitCode {
    let (mut out, mut err) = (rt.stdout(), rt.stderr());
    ExitCode::from(match call_words(rt.alloc(), &Process::new(&rt)) {
        Ok(words) => {
            let disk = Disk::new(&rt);
            run_program(rt.alloc(), &disk, words.as_slice(), &mut out, &mut err)
        }
        Err(stop) => stopped(stop, &mut err),
    })
}
