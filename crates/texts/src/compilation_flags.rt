//! The flags that say what nvcc compiles to.

ghost use Rattle.std.specs.Prelude.{◌≡◌};
ghost use Rattle.texts.specs.ObjectFlags as spec;

/// Whether a compilation flag asks nvcc for an object file: `-c`, `-dc` or `-dw`, or their long forms.
pub fn asks_object(flag: &str) -> bool
    ensures { result ≡ spec.makes_objects flag.now }
{
    matches!(
        flag,
        "-c" | "--compile" | "-dc" | "--device-c" | "-dw" | "--device-w"
    )
}
