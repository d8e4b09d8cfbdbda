// What a byte does, and what the end of the source does, to the cells of the statement that is being read. `held` is the
// number of cells held, and `last` the last of them, or 0. Comments in quotes are document 01's words.
#![tactic(auto, unfolding(base::specs::Choice::pick, crate::specs::Internal::outside_of, crate::specs::Internal::change_of, crate::specs::Internal::ending_of))]

ghost use Rattle.std.specs.Prelude.{◌≡◌, ltb};
ghost use Rattle.source.specs.Limits.{most_cells};
ghost use Rattle.source.specs.Cells.{behind_comment};
ghost use Rattle.cells_byte.specs.Internal.{kept_of, closes_of, newline_of, exclamation_of, outside_of, quoted_of, change_of, over_at_end};
ghost use Rattle.cells_byte.specs.Internal.{ending_outside, ending_of};

use source::{MOST_CELLS, Mode, Refusal};
use token_number::letters::{is_capital, is_small};

// One cell more and the mode behind it, none, or one less; or the end of the statement.
#[derive(Clone, Copy)]
pub enum Change {
    Keep(u8, Mode),
    Skip(Mode),
    Shorten,
    End,
}

// At the end of the source the cells held are a statement, or there are none.
#[derive(Clone, Copy)]
pub enum Ended {
    Whole,
    Nothing,
}

// "A statement may hold 256 cells at any moment": whether one more is not too many.
fn has_room(held: usize) -> bool
    ensures { result ≡ ltb held most_cells }
{
    held < MOST_CELLS
}

fn kept(c: u8, m: Mode, held: usize) -> Result<Change, Refusal>
    ensures { result ≡ kept_of c m held }
{
    if has_room(held) {
        Ok(Change::Keep(c, m))
    } else {
        Err(Refusal::Cells)
    }
}

// "A newline outside quotes, when the last cell held is a keyword letter C, is dropped with that C". The newline, like any
// end mark, is a cell until then. "a statement of nothing is skipped"
fn newline(held: usize, last: u8) -> Result<Change, Refusal>
    ensures { result ≡ newline_of held last }
{
    if held == 0 {
        Ok(Change::Skip(Mode::Plain))
    } else if has_room(held) {
        Ok(closes(last))
    } else {
        Err(Refusal::Cells)
    }
}

// Keyword letters are small in cells.
fn closes(last: u8) -> Change
    ensures { result ≡ closes_of last }
{
    if last == b'c' {
        Change::Shorten
    } else {
        Change::End
    }
}

// "`!` where no cell of the statement is held yet starts a comment"
fn exclamation(held: usize) -> Result<Change, Refusal>
    ensures { result ≡ exclamation_of held }
{
    match held {
        0 => Ok(Change::Skip(Mode::Comment)),
        _ => kept(b'!', Mode::Plain, held),
    }
}

// A byte outside quotes and comments, where a letter is kept as the cell c and then read on in mode m. `;` is a newline that
// stands behind no C.
fn outside(c: u8, m: Mode, b: u8, held: usize, last: u8) -> Result<Change, Refusal>
    ensures { result ≡ outside_of c m b held last }
{
    match b {
        _ if is_capital(b) || is_small(b) => kept(c, m, held),
        b' ' => Ok(Change::Skip(Mode::Plain)),
        b'\n' => newline(held, last),
        b'%' => Ok(Change::Skip(Mode::Keyword)),
        b'\'' => kept(b, Mode::Quoted, held),
        b';' => newline(held, 0),
        b'!' => exclamation(held),
        _ => kept(b, Mode::Plain, held),
    }
}

// "Text between quotes stays as typed"
fn quoted(b: u8, held: usize) -> Result<Change, Refusal>
    ensures { result ≡ quoted_of b held }
{
    match b {
        b'\'' => kept(b, Mode::Plain, held),
        _ => kept(b, Mode::Quoted, held),
    }
}

// A comment "swallows all through the next `;` or newline".
fn behind_comment(b: u8) -> Mode
    ensures { result ≡ behind_comment b }
{
    match b {
        b';' | b'\n' => Mode::Plain,
        _ => Mode::Comment,
    }
}

// What a byte does, or the refusal of a cell too many. "a to z become capitals", and a keyword letter is kept as a small letter.
pub fn change_by(mode: Mode, b: u8, held: usize, last: u8) -> Result<Change, Refusal>
    ensures { result ≡ change_of mode b held last }
{
    let c = match mode {
        Mode::Keyword => b.to_ascii_lowercase(),
        _ => b.to_ascii_uppercase(),
    };
    match mode {
        Mode::Plain | Mode::Keyword => outside(c, mode, b, held, last),
        Mode::Quoted => quoted(b, held),
        Mode::Comment => Ok(Change::Skip(behind_comment(b))),
    }
}

// "3 if the source's end meets both"
fn over_at_end(last: u8) -> Refusal
    ensures { result ≡ over_at_end last }
{
    if last == b'c' {
        Refusal::Quotes
    } else {
        Refusal::Cells
    }
}

// "The end of the source counts as one newline."
fn end_outside(held: usize, last: u8) -> Result<Ended, Refusal>
    ensures { result ≡ ending_outside held last }
{
    match newline(held, last) {
        Ok(Change::Keep(_, _) | Change::Skip(_)) => Ok(Ended::Nothing),
        Ok(Change::Shorten) => Err(Refusal::Quotes),
        Ok(Change::End) => Ok(Ended::Whole),
        Err(_) => Err(over_at_end(last)),
    }
}

// "source ends in quotes"
pub fn at_end(mode: Mode, held: usize, last: u8) -> Result<Ended, Refusal>
    ensures { result ≡ ending_of mode held last }
{
    match mode {
        Mode::Plain | Mode::Keyword => end_outside(held, last),
        Mode::Quoted => Err(Refusal::Quotes),
        Mode::Comment => Ok(Ended::Nothing),
    }
}
