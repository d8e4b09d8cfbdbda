// Pieces of text: fixed strings and numbers, read at a place.
ghost use Rattle.std.specs.Prelude.{◌≡◌, ◌+◌, length, drop};
ghost use Rattle.text.specs.Pieces.{fixed, numeral, digits};
ghost use Rattle.text.specs.Internal.{behind, number_found, PlaceIs, NumberPlace, NumberWithin};

use crate::GREATEST_NUMBER;
use base::part;

// The place behind a fixed string, if it stands there. Byte by byte: must-fail/other_bytes_taken.edit turns the comparison of one.
pub fn fixed_at(s: &[u8], at: usize, string: &[u8]) -> Option<usize>
    ensures read { behind s.now result ≡ fixed string.now (drop at s.now) }
    ensures place { PlaceIs (at + length string.now) result }
{
    let there = part(s, at, string.len());
    if there.len() < string.len() {
        return None;
    }
    for k in 0..string.len() {
        if there[k] != string[k] {
            return None;
        }
    }
    Some(at + string.len())
}

// The digits of a number behind the first, and the byte that closes its field.
fn digits_at(s: &[u8], at: usize, close: u8, first: u8) -> Option<(u32, usize)>
    ensures read { number_found s.now result ≡ digits close first (drop at s.now) }
    ensures within { NumberWithin (length s.now) result }
{
    let mut v = first as u64;
    for i in at..s.len() {
        let b = s[i];
        if b == close {
            return Some((v as u32, i + 1));
        }
        if !b.is_ascii_digit() || v == 0 {
            return None;
        }
        v = v * 10 + (b - 48) as u64;
        if GREATEST_NUMBER < v {
            return None;
        }
    }
    None
}

// A number and the place behind the byte that closes its field, if they stand there.
pub fn numeral_at(s: &[u8], at: usize, close: u8) -> Option<(u32, usize)>
    ensures read { number_found s.now result ≡ numeral close (drop at s.now) }
    ensures place { NumberPlace at result }
{
    let b = *s.get(at)?;
    if !b.is_ascii_digit() {
        return None;
    }
    digits_at(s, at + 1, close, b - 48)
}
