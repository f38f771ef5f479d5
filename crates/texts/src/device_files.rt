//! The files that cicc and ptxas read, by the ends of their names.

ghost use Rattle.std.specs.Prelude.{◌≡◌};
ghost use Rattle.texts.specs.DeviceFiles as spec;

/// The end of a word that is cicc's input: preprocessed device code.
pub const CICC_INPUT_SUFFIX: &str = ".cpp1.ii";

/// The end of a word that is ptxas's input: PTX.
pub const PTXAS_INPUT_SUFFIX: &str = ".ptx";

/// Whether a word is cicc's input by its end.
pub fn is_cicc_input(word: &str) -> bool
    ensures { result ≡ spec.is_cicc_word word.now }
{
    word.ends_with(CICC_INPUT_SUFFIX)
}

/// Whether a word is ptxas's input by its end.
pub fn is_ptxas_input(word: &str) -> bool
    ensures { result ≡ spec.is_ptxas_word word.now }
{
    word.ends_with(PTXAS_INPUT_SUFFIX)
}
