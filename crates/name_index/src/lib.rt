// The names of a program in memory. Their letters stand one behind the other, in the order of declaration. The index has a row for
// each name, in the order of the names: where its letters begin, times MOST_CELLS, and how many there are; that times NAME_ROWS, and
// the number of the name, from 0.
#![tactic(auto)]

ghost use Rattle.std.specs.Prelude.{◌≡◌, ◌<◌, ◌==◌, if◌then◌else◌, length};
ghost use Rattle.source.specs.Limits.{most_cells};
ghost use Rattle.name_index.specs.Order.{side_of};
ghost use Rattle.name_index.specs.Answers.{Searches, side_at, word_at, FewComparisons, FindsWord, Adds};
ghost use Rattle.name_index.specs.Internal.{Inserts};

use base::{at, part, put};
use source::{MOST_BYTES, MOST_CELLS, NAME_ROWS};
use std::cmp::Ordering;

// What a lookup tells: the word of a name, or 0 where it is unknown, as a token carries it; its place in the index, or where it
// would stand; and how many comparisons were made.
#[derive(Clone, Copy)]
pub struct Found {
    pub word: u32,
    pub place: usize,
    pub comparisons: u32,
}

// How many names there are, and how many letters they have.
#[derive(Clone, Copy)]
pub struct Names {
    pub count: u32,
    pub letters: u32,
}

// There is no room for one more.
#[derive(Clone, Copy)]
pub struct Unfit;

// A place in a name, from 1 on: a name in memory has fewer than MOST_CELLS letters.
type Place = u8;

// A place where two letters differ, else 0.
fn differing(a: u8, b: u8, place: Place) -> Place
    ensures { result ≡ (if a == b then 0 else place) }
{
    if a == b { 0 } else { place }
}

// Compares two names of one length by the last letter in which they differ. The loop goes over all letters, whatever they are, so
// that the machine can take many at once.
fn by_letters(a: &[u8], b: &[u8]) -> Ordering
    requires { (length a.now ≡ length b.now) × (length b.now < most_cells) }
    ensures { result ≡ side_of a.now b.now }
{
    let mut last: Place = 0;
    for (i, &letter) in a.iter().enumerate() {
        last = last.max(differing(letter, b[i], (i + 1) as Place));
    }
    if last == 0 {
        return Ordering::Equal;
    }
    let k = last as usize - 1;
    a[k].cmp(&b[k])
}

// Compares the name a with the name b, which has fewer than MOST_CELLS letters, as every name in memory. Most names that differ have
// other lengths or other last letters: these are compared first.
pub fn compare(a: &[u8], b: &[u8]) -> Ordering
    requires { length b.now < most_cells }
    ensures { result ≡ side_of a.now b.now }
{
    let by_length = a.len().cmp(&b.len());
    if by_length.is_ne() {
        return by_length;
    }
    if a.is_empty() {
        return Ordering::Equal;
    }
    let k = a.len() - 1;
    let by_last = a[k].cmp(&b[k]);
    if by_last.is_ne() {
        return by_last;
    }
    by_letters(a, b)
}

// Looks a name up among the v names of an index, by halves.
pub fn find(letters: &[u8], index: &[u32], v: u32, name: &[u8]) -> Found
    ensures made { Searches (side_at name.now letters.now index.now) (word_at index.now) 0 v result.word result.place result.comparisons }
    ensures few { FewComparisons v result.comparisons }
    ensures found { FindsWord name.now v letters.now index.now result.word }
{
    let mut from = 0;
    let mut left = v as usize;
    let mut comparisons: u32 = 0;
    while 0 < left {
        let half = left / 2;
        let row = at(index, from + half, 0);
        let declared = part(
            letters,
            row as usize / NAME_ROWS / MOST_CELLS,
            row as usize / NAME_ROWS % MOST_CELLS,
        );
        comparisons += 1;
        match compare(name, declared) {
            Ordering::Less => left = half,
            Ordering::Equal => return Found {
                word: row % NAME_ROWS as u32 + 2,
                place: from + half,
                comparisons,
            },
            Ordering::Greater => {
                from += half + 1;
                left -= half + 1;
            }
        }
    }
    Found {
        word: 0,
        place: from,
        comparisons,
    }
}

// Puts a row at a place among v others, those from there on behind it. `copy_within` would ask for an index that has the places.
fn insert(index: &mut [u32], v: usize, place: usize, row: u32)
    ensures { Inserts v place row index.old index.new }
{
    for i in (place..v).rev() {
        put(index, i + 1, at(index, i, 0));
    }
    put(index, place, row);
}

// Adds a name behind others, with its row at a place of the index.
pub fn add(
    letters: &mut [u8],
    index: &mut [u32],
    others: Names,
    place: usize,
    name: &[u8],
) -> Result<Names, Unfit>
    ensures { Adds others.count others.letters place name.now letters.old index.old result letters.new index.new }
{
    let v = others.count;
    if NAME_ROWS <= v as usize {
        return Err(Unfit);
    }
    if letters.len() != MOST_BYTES {
        return Err(Unfit);
    }
    let begin = others.letters as usize;
    if MOST_BYTES < begin {
        return Err(Unfit);
    }
    if MOST_BYTES - begin < name.len() {
        return Err(Unfit);
    }
    letters[begin..begin + name.len()].copy_from_slice(name);
    let many = (name.len() % MOST_CELLS) as u32;
    let row = (others.letters * MOST_CELLS as u32 + many) * NAME_ROWS as u32 + v;
    insert(index, v as usize, place, row);
    Ok(Names {
        count: v + 1,
        letters: others.letters + name.len() as u32,
    })
}
