//! In which order nvcc reads what the preprocessors of a plan have written.

ghost use Rattle.std.specs.Prelude.{◌≡◌, ◌++◌, IfOk, OnOk, map, string_bytes, option_map, vec_items};
ghost use Rattle.std.specs.List.{list_all};
ghost use Rattle.dependency_rules.specs.Orders as spec;

use std::alloc::{AllocError, Global};
use texts::words::Words;

// Whether a word says that nvcc has a version whose rules were compared.
fn is_known_version(word: &str) -> bool
    ensures { result ≡ spec.is_known_version word.now }
{
    matches!(
        word,
        "-D__CUDACC_VER_MAJOR__=11" | "-D__CUDACC_VER_MAJOR__=12" | "-D__CUDACC_VER_MAJOR__=13"
    )
}

// Whether one of a preprocessor's words does.
fn is_known(words: &[String]) -> bool
    ensures { result ≡ spec.is_known (map string_bytes words.now) }
{
    for word in words {
        if is_known_version(word.as_str()) {
            return true;
        }
    }
    false
}

// Whether all preprocessors are of such a version.
fn are_known(commands: &[Words]) -> bool
    ensures { result ≡ list_all spec.is_known commands.now }
{
    commands.iter().all(|words| is_known(words.as_slice()))
}

// Whether a preprocessor's words are those for device code.
fn is_for_device(words: &[String]) -> bool
    ensures { result ≡ spec.is_for_device (map string_bytes words.now) }
{
    for word in words {
        if word.as_bytes().starts_with(b"-D__CUDA_ARCH__=") {
            return true;
        }
    }
    false
}

// Adds the places of the commands for devices, or of the others.
fn push_places(places: &mut Vec<usize>, devices: bool, commands: &[Words]) -> Result<(), AllocError>
    ensures { OnOk result (places.new.items ≡ places.old.items ++ spec.places_from devices 0 commands.now) }
{
    for (place, words) in commands.iter().enumerate() {
        if is_for_device(words.as_slice()) == devices {
            places.push(place)?;
        }
    }
    Ok(())
}

/// The places of a plan's preprocessors, whose words are `commands`, in the order in which nvcc reads what they have written: those for devices,
/// and the host's last.
///
/// `None` if nvcc has to make the rule: if its version isn't 11, 12 or 13, if no command is for a device, or if not exactly one is for the host.
pub fn order_of(alloc: Global, commands: &[Words]) -> Result<Option<Vec<usize>>, AllocError>
    ensures { IfOk result (λ order. option_map vec_items order ≡ spec.order_of commands.now) }
{
    if !are_known(commands) {
        return Ok(None);
    }
    let mut devices = Vec::new(alloc);
    push_places(&mut devices, true, commands)?;
    let mut hosts = Vec::new(alloc);
    push_places(&mut hosts, false, commands)?;
    if devices.is_empty() || hosts.len() != 1 {
        return Ok(None);
    }
    devices.append(&mut hosts)?;
    Ok(Some(devices))
}
