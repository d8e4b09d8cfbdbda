// The open groups of a program in memory, a number each, the outermost first: the number of the statement with the `%START`,
// whether the group is a second part, and how many instructions there were when it began.
#![tactic(auto)]

ghost use Rattle.std.specs.Prelude.{◌≡◌, ◌/◌, ◌%◌, eqb, get_or, set};
ghost use Rattle.groups.specs.Memory.{group_word, began_in, part_in, statement_in};

use base::{at, put};

// The places of a group's number, from low to high: how many instructions there were, less than `instruction_numbers` of
// specs/Memory.antt; 1 for a second part; the statement.
const SECOND: u64 = 1 << 31;

const STATEMENT: u64 = 1 << 32;

// A first part of statement k.
pub fn put_first(groups: &mut [u64], i: u32, k: u32, began: u32)
    ensures { groups.new ≡ set groups.old i (group_word k 0 began) }
{
    let first = k as u64 * STATEMENT + began as u64 % SECOND;
    put(groups, i as usize, first);
}

// A second part of statement k.
pub fn put_second(groups: &mut [u64], i: u32, k: u32, began: u32)
    ensures { groups.new ≡ set groups.old i (group_word k 1 began) }
{
    let second = k as u64 * STATEMENT + SECOND + began as u64 % SECOND;
    put(groups, i as usize, second);
}

// How many instructions there were when a group began.
pub fn began_at(groups: &[u64], i: u32) -> u32
    ensures { result ≡ began_in (get_or groups.now i 0) }
{
    (at(groups, i as usize, 0) % SECOND) as u32
}

// Whether a group is a second part.
pub fn is_second(groups: &[u64], i: u32) -> bool
    ensures { result ≡ eqb (part_in (get_or groups.now i 0)) 1 }
{
    at(groups, i as usize, 0) / SECOND % 2 == 1
}

// The statement with its `%START`.
pub fn statement_at(groups: &[u64], i: u32) -> u32
    ensures { result ≡ statement_in (get_or groups.now i 0) }
{
    (at(groups, i as usize, 0) / STATEMENT) as u32
}
