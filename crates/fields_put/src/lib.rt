// The fields of a statement, put behind those of the program, and their jumps led to instructions. In memory a jump carries the number
// of its statement, times LABELS, and its label.
#![tactic(auto)]

ghost use Rattle.std.specs.Prelude.{◌≡◌, ◌+◌, ◌<◌, leb, length};
ghost use Rattle.sheet_field.specs.Memory.{carried, field_word, fields_at};
ghost use Rattle.labels.specs.Memory.{labels_of};
ghost use Rattle.fields.specs.Memory.{packed_field};
ghost use Rattle.fields_put.specs.Answers.{put_in, put_of, push_of, led_in, led_of};
ghost use Rattle.fields_put.specs.Internal.{Puts, LeadsOne};

use fields::jump_of;
use labels::number_of;
use sheet::Field;
use sheet_field::{field_at, field_in, kind_of, value_of};
use source::{GREATEST_LABEL, MOST_BYTES};

// `statement_numbers` and `label_numbers` of fields' specs/Memory.antt.
const STATEMENTS: u32 = MOST_BYTES as u32 + 2;

const LABELS: u32 = GREATEST_LABEL + 1;

// The array has no room for the fields.
#[derive(Clone, Copy)]
pub struct Unfit;

// Why jumps do not all lead to instructions: the statement of the first that does not; or the array has too few places.
#[derive(Clone, Copy)]
pub enum Failure {
    Unset(u32),
    Unfit,
}

// A field as one number, with the fact that what it carries fits, so that it can be read back.
fn word_of(f: Field) -> u64
    ensures { (result ≡ field_word f) × (carried f < 4294967296) }
{
    let v = value_of(f);
    kind_of(f) as u64 * 4294967296 + v as u64
}

// Puts a field at a place.
fn store(fields: &mut [u64], at: usize, f: Field)
    ensures { Puts at f fields.old fields.new }
{
    base::put(fields, at, word_of(f));
}

// A field of statement k, as it is put.
fn packed(f: Field, k: u32) -> Field
    ensures { result ≡ packed_field k f }
{
    match jump_of(f) {
        Some(l) => Field::Goto(k % STATEMENTS * LABELS + l % LABELS),
        None => f,
    }
}

// Whether an array has a place for each of n fields behind `at` others.
fn has_places(room: usize, at: usize, n: usize) -> bool
    ensures { result ≡ leb (at + n) room }
{
    n <= room && at <= room - n
}

// Puts the fields of statement k into an array behind its first `at`, and tells how many there are then. Free is what it holds behind
// them, and all that it holds where there is no room.
pub fn append(own: &[u64], k: u32, fields: &mut [u64], at: usize) -> Result<usize, Unfit>
    ensures told { put_in result fields.new ≡ put_of k (fields_at 0 own.now) at fields.old }
    ensures kept { length fields.new ≡ length fields.old }
{
    if !has_places(fields.len(), at, own.len()) {
        return Err(Unfit);
    }
    for (i, w) in own.iter().enumerate() {
        store(fields, at + i, packed(field_in(*w), k));
    }
    Ok(at + own.len())
}

// Puts one field into an array behind its first `at`.
pub fn push(fields: &mut [u64], at: usize, f: Field) -> Result<usize, Unfit>
    ensures told { put_in result fields.new ≡ push_of f at fields.old }
    ensures kept { length fields.new ≡ length fields.old }
{
    if fields.len() <= at {
        return Err(Unfit);
    }
    store(fields, at, f);
    Ok(at + 1)
}

// Gives the field at place i, where it jumps, the number of the instruction after its label, if there is one.
fn lead_jump(
    fields: &mut [u64],
    i: usize,
    labels: &[u32],
    count: u32,
    next: u32,
) -> Result<(), Failure>
    ensures { LeadsOne next (labels_of next count labels.now) i fields.old result fields.new }
{
    let Some(p) = jump_of(field_at(fields, i)) else {
        return Ok(());
    };
    let Some(s) = number_of(labels, count, next, p % LABELS) else {
        return Err(Failure::Unset(p / LABELS));
    };
    store(fields, i, Field::Goto(s));
    Ok(())
}

// Gives each jump among the first n fields the number of the instruction after its label. Free is what the array holds where a
// jump leads to no instruction.
pub fn lead_jumps(
    fields: &mut [u64],
    n: usize,
    labels: &[u32],
    count: u32,
    next: u32,
) -> Result<(), Failure>
    ensures told { led_in result n fields.new ≡ led_of next (labels_of next count labels.now) n fields.old }
    ensures kept { length fields.new ≡ length fields.old }
{
    if fields.len() < n {
        return Err(Failure::Unfit);
    }
    for i in 0..n {
        lead_jump(fields, i, labels, count, next)?;
    }
    Ok(())
}
