// From the cells of a statement to its tokens, document 01. Comments in quotes are document 01's words.
#![tactic(auto, unfolding(base::specs::Choice::pick))]

mod lexeme;

ghost use Rattle.std.specs.Prelude.{◌≡◌, ◌<◌, ◌≤◌, length, IfOk};
ghost use Rattle.source.specs.Limits.{most_cells};
ghost use Rattle.source.specs.Memory.{held};
ghost use Rattle.tokens_fixed.specs.Answers.{Sound};
ghost use Rattle.tokens.specs.Answers.{lexed_in, fit, lexed_of};
ghost use Rattle.tokens.specs.Internal.{stored_of, Scanned};

use base::part;
use source::{MOST_CELLS, Refusal, Statement};
use tokens_fixed::One;

// Why there are no tokens: the statement is refused, or it or the arrays are not fit.
#[derive(Clone, Copy)]
pub enum Failure {
    Refused(Refusal),
    Unfit,
}

// What an array holds of a token: its kind and what it carries; and the place of the cell behind it.
#[derive(Clone, Copy)]
struct Stored {
    kind: u8,
    value: u32,
    behind: usize,
}

// A name carries the place of its first cell, times MOST_CELLS, and its length.
fn stored_of(one: One, at: usize) -> Stored
    requires { Sound at most_cells one }
    ensures { result ≡ stored_of at one }
{
    match one {
        One::Token(t, q) => Stored {
            kind: token_number::kind_of(t),
            value: token_number::value_of(t),
            behind: q,
        },
        One::Name(q) => Stored {
            kind: 0,
            value: (at * MOST_CELLS + (q - at)) as u32,
            behind: q,
        },
    }
}

// All tokens of cells, put into two arrays, and how many there are.
fn scan(cells: &[u8], kinds: &mut [u8], values: &mut [u32]) -> Result<usize, Refusal>
    requires { (length cells.now < most_cells) × (most_cells ≤ length kinds.old) × (most_cells ≤ length values.old) }
    ensures { Scanned cells.now kinds.new values.new result }
{
    let mut at = 0;
    let mut n = 0;
    while at < cells.len() {
        let one = lexeme::one_at(cells, at)?;
        let stored = stored_of(one, at);
        base::put(kinds, n, stored.kind);
        base::put(values, n, stored.value);
        at = stored.behind;
        n += 1;
    }
    Ok(n)
}

// Whether an end mark fits behind n cells, and two arrays have a place for each cell that a statement can hold.
fn is_fit(n: usize, room: usize, other: usize) -> bool
    ensures { result ≡ fit n room other }
{
    n < MOST_CELLS && MOST_CELLS <= room && MOST_CELLS <= other
}

// The number of tokens of a statement. Free is what the arrays hold behind them, and all that they hold where there are none.
pub fn tokens(s: Statement, kinds: &mut [u8], values: &mut [u32]) -> Result<usize, Failure>
    ensures read { lexed_in (held s) result kinds.new values.new ≡ lexed_of s kinds.old values.old }
    ensures few { IfOk result (λ n. n ≤ length (held s)) }
    ensures kept { (length kinds.new ≡ length kinds.old) × (length values.new ≡ length values.old) }
{
    let n = s.length;
    if is_fit(n, kinds.len(), values.len()) {
        scan(part(&s.cells, 0, n), kinds, values).map_err(Failure::Refused)
    } else {
        Err(Failure::Unfit)
    }
}
