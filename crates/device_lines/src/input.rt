//! The bytes of a file, and a device tool's input, which a preprocessor wrote.

ghost use Rattle.std.specs.Prelude.{◌≡◌, ◌<◌, length, None};
ghost use Rattle.device_lines.specs.Input.{ReadsBytes, ReadsOn, ReadsToEnd};
ghost use Rattle.device_lines.specs.Input as spec;

use compilers::arguments::ParsedArguments;
use std::alloc::{AllocError, Global};
use std::fs::{self, Files};
use std::io::{ErrorKind, Read};
use texts::bytes::Bytes;
use texts::fault::Fault;
use texts::status::{ExitStatus, Output};
use texts::text::join;

// After so many reads an input counts as endless.
const MOST_READS: u64 = 1 << 40;

// How many bytes one read asks for.
const READ_LENGTH: usize = 16384;

// What one read of an input gave.
#[derive(Clone, Copy)]
enum Step {
    // Bytes, or an interruption: there may be more.
    GoesOn,
    Ends,
    // An error of this kind, which isn't an interruption.
    Fails(ErrorKind),
}

// Reads once, and appends what comes.
fn read_on<R: Read>(
    reader: &mut R,
    buffer: &mut [u8],
    bytes: &mut Vec<u8>,
) -> Result<Step, AllocError>
    requires { 0 < length buffer.old }
    ensures { ReadsOn (R.remaining reader.old) (R.remaining reader.new) bytes.old.items bytes.new.items result }
{
    match reader.read(buffer) {
        Ok(0) => Ok(Step::Ends),
        Ok(count) => {
            bytes.extend_from_slice(&buffer[..count])?;
            Ok(Step::GoesOn)
        }
        Err(error) if error.kind() == ErrorKind::Interrupted => Ok(Step::GoesOn),
        Err(error) => Ok(Step::Fails(error.kind())),
    }
}

/// Reads `reader` to its end.
///
/// Refuses if a read fails, or if 2^40 reads bring no end: `Read`. An interrupted read is tried again.
pub fn read_bytes<R: Read + Drop>(alloc: Global, reader: R) -> Result<Bytes, Fault>
    ensures { ReadsBytes (R.remaining reader) result }
{
    let mut reader = reader;
    let mut bytes = Vec::new(alloc);
    let mut buffer = [0; READ_LENGTH];
    for _ in 0..MOST_READS {
        match read_on(&mut reader, &mut buffer, &mut bytes)? {
            Step::GoesOn => {}
            Step::Ends => return Ok(Bytes::from_vec(bytes)),
            Step::Fails(_) => return Err(Fault::Read),
        }
    }
    Err(Fault::Read)
}

/// Reads the file at `path` to its end.
///
/// Refuses if the file can't be opened or read: `Read`.
pub fn read_file<R: Files>(rt: &R, alloc: Global, path: &str) -> Result<Bytes, Fault>
    ensures { ReadsBytes None result }
{
    let Ok(file) = fs::open(rt, path) else {
        return Err(Fault::Read);
    };
    read_bytes(alloc, file)
}

// The output of a program that succeeds and prints these bytes.
fn printed(alloc: Global, bytes: Bytes) -> Output
    ensures { result ≡ spec.printed bytes }
{
    Output {
        status: ExitStatus::from_code(0),
        stdout: bytes,
        stderr: Bytes::new(alloc),
    }
}

/// Reads a device tool's input to its end. Its bytes take the place of a preprocessor's output, as in sccache
/// 0.19.0: they are the standard output of a program that succeeded.
///
/// Refuses if a read fails, or if 2^40 reads bring no end: `Read`. An interrupted read is tried again.
pub fn read_input<R: Read + Drop>(alloc: Global, reader: R) -> Result<Output, Fault>
    ensures { ReadsToEnd (R.remaining reader) result }
{
    Ok(printed(alloc, read_bytes(alloc, reader)?))
}

/// Reads the input of arguments that were read at the working directory `cwd`. There is nothing to preprocess:
/// the inputs of cicc, ptxas and cudafe++ come from a preprocessor.
///
/// Refuses if the file can't be opened or read: `Read`.
pub fn preprocess<R: Files>(
    rt: &R,
    alloc: Global,
    cwd: &str,
    parsed_args: &ParsedArguments,
) -> Result<Output, Fault>
    ensures { ReadsToEnd None result }
{
    let path = join(alloc, cwd, parsed_args.input.as_str())?;
    Ok(printed(alloc, read_file(rt, alloc, path.as_str())?))
}
