// From bytes to statements, document 01. Comments in quotes are document 01's words.
#![tactic(auto, unfolding(base::specs::Choice::pick, crate::specs::Internal::last_held))]

ghost use Rattle.std.specs.Prelude.{◌≡◌, [], ◌≤◌, length, take, drop};
ghost use Rattle.source.specs.declared.Mode.TheVariants.{Plain};
ghost use Rattle.source.specs.Limits.{most_cells};
ghost use Rattle.source.specs.Cells.{turn, statements_from};
ghost use Rattle.source.specs.Source.{is_allowed, not_allowed};
ghost use Rattle.cells.specs.Answers.{offset_of, unrolled, Moved};
ghost use Rattle.cells.specs.Internal.{last_held, Stepped, Gathered};

use cells_byte::{Change, Ended, at_end, change_by};
use source::{MOST_CELLS, Mode, Refusal, Statement};

// A statement, and the offset behind it.
#[derive(Clone, Copy)]
pub struct Next {
    pub statement: Statement,
    pub behind: usize,
}

// The number of cells of a statement, and the offset behind it.
#[derive(Clone, Copy)]
struct Gathering {
    length: usize,
    behind: usize,
}

// "allowed bytes are 10 and 32 to 126"
fn is_allowed(b: u8) -> bool
    ensures { result ≡ is_allowed b }
{
    matches!(b, b'\n' | b' '..=b'~')
}

// The offset of the first byte that is not allowed, if there is one.
pub fn not_allowed(source: &[u8]) -> Option<usize>
    ensures { result ≡ offset_of (not_allowed 0 source.now) }
{
    source.iter().position(|b| !is_allowed(*b))
}

// The last of the cells held, or 0.
fn last_held(cells: &[u8], held: usize) -> u8
    ensures { result ≡ last_held held cells.now }
{
    match held {
        0 => 0,
        _ => base::at(cells, held - 1, 0),
    }
}

// One byte more: the mode and the number of cells held behind it, if it does not end the statement.
fn take_byte(
    cells: &mut [u8],
    mode: Mode,
    held: usize,
    b: u8,
) -> Result<Option<(Mode, usize)>, Refusal>
    requires { (most_cells ≤ length cells.old) × (held ≤ most_cells) }
    ensures { Stepped cells.new held result (turn mode b (take held cells.old)) }
{
    let last = last_held(cells, held);
    match change_by(mode, b, held, last)? {
        Change::Keep(c, m) => {
            base::put(cells, held, c);
            Ok(Some((m, held + 1)))
        },
        Change::Skip(m) => Ok(Some((m, held))),
        Change::Shorten => Ok(Some((Mode::Plain, held - 1))),
        Change::End => Ok(None),
    }
}

// The cells of the next statement, if there is one, put into an array.
fn gather(source: &[u8], at: usize, cells: &mut [u8]) -> Result<Option<Gathering>, Refusal>
    requires { most_cells ≤ length cells.old }
    ensures { Gathered source.now at cells.new result }
{
    let mut mode = Mode::Plain;
    let mut held = 0;
    for i in at..source.len() {
        let Some((m, n)) = take_byte(cells, mode, held, source[i])? else {
            return Ok(Some(Gathering {
                length: held,
                behind: i + 1,
            }));
        };
        mode = m;
        held = n;
    }
    let last = last_held(cells, held);
    match at_end(mode, held, last)? {
        Ended::Whole => Ok(Some(Gathering {
            length: held,
            behind: source.len(),
        })),
        Ended::Nothing => Ok(None),
    }
}

// The next statement from an offset on, if there is one. Free is what the array holds behind the statement's cells.
pub fn next_statement(source: &[u8], at: usize) -> Result<Option<Next>, Refusal>
    ensures read { unrolled source.now result ≡ statements_from Plain [] (drop at source.now) }
    ensures moved { Moved source.now at result }
{
    let mut cells = [0u8; MOST_CELLS];
    let Some(Gathering { length, behind }) = gather(source, at, &mut cells)? else {
        return Ok(None);
    };
    Ok(Some(Next {
        statement: Statement { cells, length },
        behind,
    }))
}
