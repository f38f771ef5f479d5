//! The file that an image for fatbinary names.

ghost use Rattle.std.specs.Prelude.{◌≡◌, ◌∷◌, ◌<◌, [], length, IfSome, MatchOption, option_copied, position};
ghost use Rattle.std.specs.List.{list_any};
ghost use Rattle.command_keys.specs.Images as spec;

// The place of the first comma.
fn comma(image: &[u8]) -> Option<usize>
    ensures { result ≡ position spec.is_comma image.now }
{
    image.iter().position(|byte| *byte == b',')
}

// The part of an image in front of its first comma, and what follows the comma.
fn first_part(image: &[u8]) -> Option<(&[u8], &[u8])>
    ensures parts { MatchOption result (spec.parts_of image.now ≡ image.now ∷ []) (λ cut. spec.parts_of image.now ≡ cut.0.now ∷ spec.parts_of cut.1.now) }
    ensures less { IfSome result (λ cut. length cut.1.now < length image.now) }
{
    match comma(image) {
        None => None,
        Some(end) => Some((&image[..end], &image[end + 1..])),
    }
}

// The name of a file in a part that has one.
fn file_in(part: &[u8]) -> Option<&[u8]>
    ensures { option_copied result ≡ spec.file_in part.now }
{
    part.strip_prefix(b"file=")
}

// Whether a part of an image names a file.
fn is_file(part: &[u8]) -> bool
    ensures { result ≡ spec.is_file part.now }
{
    part.starts_with(b"file=")
}

// Whether parts of an image name a file.
fn names_file(image: &[u8]) -> bool
    ensures { result ≡ list_any spec.is_file (spec.parts_of image.now) }
{
    let mut rest = image;
    while let Some((part, others)) = first_part(rest) {
        if is_file(part) {
            return true;
        }
        rest = others;
    }
    is_file(rest)
}

/// The name of the file in an image: it's in one part, and in no other.
pub fn image_name(image: &[u8]) -> Option<&[u8]>
    ensures { option_copied result ≡ spec.image_name image.now }
{
    let mut rest = image;
    while let Some((part, others)) = first_part(rest) {
        if let Some(name) = file_in(part) {
            return if names_file(others) { None } else { Some(name) };
        }
        rest = others;
    }
    file_in(rest)
}

/// Whether a word has a quote or a backslash, behind which fatbinary reads it otherwise.
pub fn is_quoted(word: &[u8]) -> bool
    ensures { result ≡ list_any spec.quotes word.now }
{
    word.iter()
        .any(|byte| *byte == b'"' || *byte == b'\'' || *byte == b'\\')
}
