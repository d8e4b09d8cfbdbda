// The fields that are written, which fill the front of an array up to a place `out`, and the places among them where an
// operator goes, document 01 ("Statements").
#![tactic(auto)]

ghost use Rattle.std.specs.Prelude.{[], ◌∷◌, ◌++◌, ◌≡◌, ◌+◌, ◌<◌, ◌≤◌, length};
ghost use Rattle.sheet_field.specs.Memory.{carried, field_word, fields_from};
ghost use Rattle.source.specs.Grammar.{level};
ghost use Rattle.grammar_output.specs.Internal.{insert_at, Small, places_word, HeldBy, place_for, places_after};

use sheet::{Field, Operator};
use sheet_field::{kind_of, value_of};
use source::MOST_CELLS;

// The places behind what was read: `at` among the tokens, and `out` among the fields.
#[derive(Clone, Copy)]
pub struct Step {
    pub at: usize,
    pub out: usize,
}

// A field as one number: `field_word`, with the fact that what it carries fits, so that it can be read back.
fn packed(f: Field) -> u64
    ensures { (result ≡ field_word f) × (carried f < 4294967296) }
{
    let v = value_of(f);
    kind_of(f) as u64 * 4294967296 + v as u64
}

// Puts a field behind the others.
pub fn put(fields: &mut [u64], out: usize, f: Field)
    requires { out < length fields.old }
    ensures { fields_from 0 (out + 1) fields.new ≡ fields_from 0 out fields.old ++ (f ∷ []) }
{
    fields[out] = packed(f);
}

// Puts a field at place p; those from there on move up by one. With `rotate_right` the archive would want `memmove` from outside.
pub fn insert(fields: &mut [u64], p: usize, out: usize, f: Field)
    requires { (out < length fields.old) × (p ≤ out) }
    ensures { fields_from 0 (out + 1) fields.new ≡ insert_at p f (fields_from 0 out fields.old) }
{
    let mut held = packed(f);
    for slot in fields[p..=out].iter_mut() {
        held = std::mem::replace(slot, held);
    }
}

// Where the left operand of an operator of the lowest level, the middle one and the highest one would start.
#[derive(Clone, Copy)]
pub struct Places {
    pub low: usize,
    pub middle: usize,
    pub high: usize,
}

// Three places among the cells of a statement, as one number.
pub fn word_of(p: Places) -> u32
    requires { Small p }
    ensures { result ≡ places_word p }
{
    p.low as u32 + (p.middle as u32 + p.high as u32 * MOST_CELLS as u32) * MOST_CELLS as u32
}

pub fn places_of(w: u32) -> Places
    ensures { HeldBy w result }
{
    Places {
        low: w as usize % MOST_CELLS,
        middle: w as usize / MOST_CELLS % MOST_CELLS,
        high: w as usize / MOST_CELLS / MOST_CELLS,
    }
}

// "Levels, highest first: `\`; `** << >>`; `* / &`; `+ - ! !!`."
fn level_of(o: Operator) -> u8
    ensures { result ≡ level o }
{
    match o {
        Operator::Plus | Operator::Minus | Operator::Or | Operator::Unlike => 1,
        Operator::Times | Operator::Over | Operator::And => 2,
        Operator::Power | Operator::Left | Operator::Right => 3,
    }
}

// An operator goes to the place where the left operand of its level starts.
pub fn place_for(p: Places, o: Operator) -> usize
    ensures { result ≡ place_for p o }
{
    match level_of(o) {
        1 => p.low,
        2 => p.middle,
        _ => p.high,
    }
}

// The operands of the levels above that of o start anew.
pub fn places_after(p: Places, o: Operator, free: usize) -> Places
    ensures { result ≡ places_after p o free }
{
    match level_of(o) {
        1 => Places {
            middle: free,
            high: free,
            ..p
        },
        2 => Places { high: free, ..p },
        _ => p,
    }
}
