//! Spans: how many bytes of a text stand for themselves.

ghost use Rattle.std.specs.Prelude.{◌≡◌, ◌+◌, ◌≤◌, ◌==◌, if◌then◌else◌, length, take, drop};
ghost use Rattle.std.specs.List.{position_or_len};
ghost use Rattle.texts.specs.Shell.Splitting as spec;
ghost use lib.Count.{count_trailing_zeros};

use crate::shell::splitting::State;
use std::simd::prelude::*;

// How many bytes one test covers.
const LANES: usize = 16;

// Whether a character ends a span in this state.
#[inline(always)]
pub(crate) fn ends_span(state: State, c: char) -> bool
    ensures { result ≡ spec.ends_span state c }
{
    match state {
        State::Word => matches!(c, ' ' | '\t' | '\n' | '\'' | '"' | '\\'),
        State::SingleQuoted => c == '\'',
        State::DoubleQuoted => c == '"' || c == '\\',
        _ => true,
    }
}

// The length of the span at the beginning of a text, in bytes.
#[inline(always)]
pub(crate) fn span_len(state: State, text: &[u8]) -> usize
    ensures { result ≡ position_or_len (spec.ends_span state) text.now }
{
    let mut at = 0;
    while LANES <= text.len() - at {
        let run = run_at(state, text, at);
        if run < LANES {
            return at + run;
        }
        at += LANES;
    }
    at + short_span_len(state, &text[at..])
}

// The same, byte by byte.
fn short_span_len(state: State, text: &[u8]) -> usize
    ensures { result ≡ position_or_len (spec.ends_span state) text.now }
{
    let mut len = 0;
    for byte in text {
        if ends_span(state, *byte as char) {
            return len;
        }
        len += 1;
    }
    len
}

// How many of the bytes of one test stand for themselves, from `at` on.
#[inline(always)]
fn run_at(state: State, text: &[u8], at: usize) -> usize
    requires { at + LANES ≤ length text.now }
    ensures { result ≡ position_or_len (spec.ends_span state) (take LANES (drop at text.now)) }
{
    let bytes = u8x16::from_slice(&text[at..]);
    match state {
        State::Word => {
            let ends = bytes.simd_eq(u8x16::splat(b' '))
                | bytes.simd_eq(u8x16::splat(b'\t'))
                | bytes.simd_eq(u8x16::splat(b'\n'))
                | bytes.simd_eq(u8x16::splat(b'\''))
                | bytes.simd_eq(u8x16::splat(b'"'))
                | bytes.simd_eq(u8x16::splat(b'\\'));
            first_set(ends.to_bitmask())
        }
        State::SingleQuoted => first_set(bytes.simd_eq(u8x16::splat(b'\'')).to_bitmask()),
        State::DoubleQuoted => {
            let ends = bytes.simd_eq(u8x16::splat(b'"')) | bytes.simd_eq(u8x16::splat(b'\\'));
            first_set(ends.to_bitmask())
        }
        _ => 0,
    }
}

// The index of the lowest bit that is set, or the number of bits if none is.
#[inline(always)]
fn first_set(bits: u64) -> usize
    ensures { result ≡ (if bits == 0 then LANES else count_trailing_zeros 64 bits) }
{
    if bits == 0 {
        LANES
    } else {
        bits.trailing_zeros() as usize
    }
}
