// The labels that are set, in memory: a label is its number, times SPOTS, and the number of its spot. A spot's number is that of the
// instruction after it, also while that is to come; behind the last instruction of a first part it is BEHIND and the number of
// groups that are open round the IF.
#![tactic(auto, unfolding(base::specs::Choice::pick))]

ghost use Rattle.std.specs.Prelude.{◌≡◌, ◌+◌};
ghost use Rattle.source.specs.Program.{number_at};
ghost use Rattle.labels.specs.Memory.{spot_in, labels_of, labels_at};
ghost use Rattle.labels.specs.Answers.{found_of, fit, SetsLabels, PutsOff, TakesUp};
ghost use Rattle.labels.specs.Internal.{SetsOne, SetsAll, moved_entry, Moves};

use base::{at, put};
use grammar_look::Tokens;
use source::{GREATEST_LABEL, LABEL_ROWS};
use token_number::{token_at, value_of};

// `spot_numbers` and `instruction_numbers` of specs/Memory.antt.
const SPOTS: u32 = 65536;

const BEHIND: u32 = 32768;

// Why labels are not set: one of them cannot be, or the table is not fit for them.
#[derive(Clone, Copy)]
pub enum Failure {
    Refused,
    Unfit,
}

// The number of the instruction after a spot; `next` is that of the instruction that comes next.
fn number_at(spot: u32, next: u32) -> u32
    ensures { result ≡ number_at next (spot_in next spot) }
{
    if BEHIND <= spot { next } else { spot }
}

// The number of the instruction after a label, if the label is set.
pub fn number_of(labels: &[u32], count: u32, next: u32, l: u32) -> Option<u32>
    ensures { result ≡ found_of next (labels_of next count labels.now) l }
{
    for i in 0..count {
        let e = at(labels, i as usize, 0);
        if e / SPOTS == l {
            return Some(number_at(e % SPOTS, next));
        }
    }
    None
}

// Sets a label behind others, where there is room for it.
fn set_label(labels: &mut [u32], count: u32, next: u32, l: u32) -> Result<u32, Failure>
    ensures { SetsOne labels.old count next l result labels.new }
{
    if l == 0 {
        return Err(Failure::Refused);
    }
    if GREATEST_LABEL < l {
        return Err(Failure::Refused);
    }
    if number_of(labels, count, next, l).is_some() {
        return Err(Failure::Refused);
    }
    if LABEL_ROWS <= count as usize {
        return Err(Failure::Unfit);
    }
    put(labels, count as usize, l * SPOTS + next % SPOTS);
    Ok(count + 1)
}

// Sets a statement's labels, which every second of its tokens carries, where there is room for them.
fn set_all(
    tokens: &Tokens<'_>,
    many: usize,
    labels: &mut [u32],
    count: u32,
    next: u32,
) -> Result<u32, Failure>
    ensures { SetsAll labels.old count next (labels_at many tokens.now.kinds.now tokens.now.values.now) result labels.new }
{
    let mut set = count;
    for i in 0..many {
        let l = value_of(token_at(tokens.kinds, tokens.values, i * 2));
        set = set_label(labels, set, next, l)?;
    }
    Ok(set)
}

// Whether a table has its rows, they are enough for so many labels behind others, and the number s has its place in them.
fn is_fit(size: usize, count: u32, many: usize, s: u32) -> bool
    ensures { result ≡ fit size (count + many) s }
{
    size == LABEL_ROWS && many <= LABEL_ROWS && count as usize + many <= LABEL_ROWS && s < BEHIND
}

// Sets a statement's labels before the next instruction, behind the others of a table, and tells how many are set then. Free is what
// the table holds behind the labels that are set then, and all that it holds where they are not.
pub fn set_labels(
    tokens: &Tokens<'_>,
    many: usize,
    labels: &mut [u32],
    count: u32,
    next: u32,
) -> Result<u32, Failure>
    ensures { SetsLabels labels.old count next (labels_at many tokens.now.kinds.now tokens.now.values.now) result labels.new }
{
    if is_fit(labels.len(), count, many, next) {
        return set_all(tokens, many, labels, count, next);
    }
    Err(Failure::Unfit)
}

// A row of the table, its label moved to spot `to` where it stands at spot `from`.
fn moved_entry(e: u32, from: u32, to: u32) -> u32
    ensures { result ≡ moved_entry from to e }
{
    if e % SPOTS == from {
        return e / SPOTS * SPOTS + to % SPOTS;
    }
    e
}

// Moves the labels at spot `from` to spot `to`.
fn move_spots(labels: &mut [u32], from: u32, to: u32)
    ensures { Moves from to labels.old labels.new }
{
    for e in labels.iter_mut() {
        *e = moved_entry(*e, from, to);
    }
}

// A first part ends, round whose IF g groups are open.
pub fn put_off(labels: &mut [u32], next: u32, g: u32)
    ensures { PutsOff next g labels.old labels.new }
{
    move_spots(labels, next, BEHIND + g % BEHIND);
}

// An IF ends, round which g groups are open.
pub fn take_up(labels: &mut [u32], g: u32, next: u32)
    ensures { TakesUp next g labels.old labels.new }
{
    move_spots(labels, BEHIND + g % BEHIND, next);
}
