//! The programs of commands.

ghost use Rattle.std.specs.Prelude.{◌≡◌};
ghost use Rattle.compilers.specs.Programs as spec;

use texts::text::file_stem;

/// The programs that nvcc runs, as far as plans tell them apart: by the stem of a path's file name.
#[derive(Clone, Copy)]
pub enum Program {
    /// cicc, which makes PTX.
    Cicc,
    /// cudafe++, which makes host code.
    Cudafe,
    /// ptxas, which makes a cubin.
    Ptxas,
    /// fatbinary, which joins what the device tools make.
    Fatbinary,
    /// nvlink, which links device code.
    Nvlink,
    /// Any other program, as a host compiler.
    Other,
}

impl Program {
    /// The program at a path.
    pub fn at(path: &str) -> Program
        ensures { result ≡ spec.program_at path.now }
    {
        let Some(stem) = file_stem(path) else {
            return Program::Other;
        };
        match stem {
            "fatbinary" => Program::Fatbinary,
            "nvlink" => Program::Nvlink,
            "cudafe++" => Program::Cudafe,
            "cicc" => Program::Cicc,
            "ptxas" => Program::Ptxas,
            _ => Program::Other,
        }
    }
}
