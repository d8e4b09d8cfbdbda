// What several crates use: reading and storing at any place, and parts of a slice. Behind the end of a slice nothing is stored and a
// part has ended, so these need no bounds. Definitions and laws are in specs/ and proofs/.
#![tactic(auto)]

ghost use Rattle.std.specs.Prelude.{◌≡◌, get_or, set, take, drop};

// What stands at a place, or `otherwise` behind the end.
pub fn at<T: Copy>(items: &[T], i: usize, otherwise: T) -> T
    ensures { result ≡ get_or items.now i otherwise }
{
    items.get(i).copied().unwrap_or(otherwise)
}

// Stores at a place, if there is one.
pub fn put<T: Copy>(items: &mut [T], i: usize, item: T)
    ensures { items.new ≡ set items.old i item }
{
    if i < items.len() {
        items[i] = item;
    }
}

// A part of a slice: `count` bytes from a place on, fewer where the slice ends before.
pub fn part(s: &[u8], from: usize, count: usize) -> &[u8]
    ensures { result.now ≡ take count (drop from s.now) }
{
    if s.len() <= from {
        return &s[..0];
    }
    if s.len() - from <= count {
        return &s[from..];
    }
    let end = from + count;
    &s[from..end]
}
