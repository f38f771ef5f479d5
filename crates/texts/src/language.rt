//! The languages of the files that the tools read.

ghost use Rattle.std.specs.Prelude.{◌≡◌};
ghost use Rattle.texts.specs.Language.{language_text, language_of_file};

use crate::extension::extension;

/// The language of a file, or the kind of what a CUDA tool makes of it.
#[derive(Clone, Copy, Debug, PartialEq)]
pub enum Language {
    /// C.
    C,
    /// C++.
    Cxx,
    /// Objective-C.
    ObjectiveC,
    /// Objective-C++.
    ObjectiveCxx,
    /// CUDA C++.
    Cuda,
    /// CUDA C++, preprocessed for cudafe++.
    CudaFE,
    /// PTX, the assembly language of device code.
    Ptx,
    /// Device code for one architecture.
    Cubin,
}

impl Language {
    /// The language's text in messages and cache keys, as sccache 0.19.0's. `Cuda` and `CudaFE` have
    /// one text.
    pub fn as_str(self) -> &'static str
        ensures { result.now ≡ language_text self }
    {
        match self {
            Language::C => "c",
            Language::Cxx => "c++",
            Language::ObjectiveC => "objc",
            Language::ObjectiveCxx => "objc++",
            Language::Cuda | Language::CudaFE => "cuda",
            Language::Ptx => "ptx",
            Language::Cubin => "cubin",
        }
    }

    /// The language of a file, by its extension: `c` is C; `cc`, `cpp`, `cxx`, `c++` and `C` are
    /// C++; `m` is Objective-C; `mm` and `M` are Objective-C++; `cu` is CUDA. `None` for any other.
    pub fn from_file_name(path: &str) -> Option<Language>
        ensures { result ≡ language_of_file path.now }
    {
        match extension(path)? {
            "c" => Some(Language::C),
            "cc" | "cpp" | "cxx" | "c++" | "C" => Some(Language::Cxx),
            "m" => Some(Language::ObjectiveC),
            "mm" | "M" => Some(Language::ObjectiveCxx),
            "cu" => Some(Language::Cuda),
            _ => None,
        }
    }
}
