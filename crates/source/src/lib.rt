// Sources, document 01 ("From bytes to statements", "Statements"): what the stages from source bytes to a sheet hand on.
#![tactic(auto)]

ghost use Rattle.std.specs.Prelude.{◌≡◌};
ghost use Rattle.source.specs.Refusals.{refusal_number};

pub mod marks;

use sheet::Operator;
use word::Relation;

// The limits of specs/Limits.antt.
pub const MOST_BYTES: usize = 16384;

pub const MOST_CELLS: usize = 256;

pub const GREATEST_CONSTANT: u64 = text::GREATEST_NUMBER;

pub const GREATEST_LABEL: u32 = 9999;

pub const MOST_LABELS: u32 = 64;

// `name_rows` and `label_rows` of specs/Memory.antt.
pub const NAME_ROWS: usize = order::MOST_VARIABLES as usize + MOST_CELLS / 2;

pub const LABEL_ROWS: usize = MOST_LABELS as usize + MOST_CELLS / 2;

// A statement: its cells and how many there are, without the end mark. A cell is document 01's word: "Each byte kept is a cell".
#[derive(Clone, Copy)]
pub struct Statement {
    pub cells: [u8; MOST_CELLS],
    pub length: usize,
}

// How the next byte is read: as it stands, as behind `%` and letters, between quotes, or in a comment.
#[derive(Clone, Copy)]
pub enum Mode {
    Plain,
    Keyword,
    Quoted,
    Comment,
}

// A token. A name carries its word: 0 where it is unknown, 1 for SEND. Keywords and signs that are neither operators nor
// relations are marks, numbered in marks.rt.
#[derive(Clone, Copy)]
pub enum Token {
    Name(u32),
    Number(u32),
    Quoted(u32),
    Binary(Operator),
    Compare(Relation),
    Mark(u32),
}

// Why a source is refused, each with document 01's number ("What the box replies").
#[derive(Clone, Copy, Debug, PartialEq, Eq)]
pub enum Refusal {
    Length = 1,
    Byte = 2,
    Quotes = 3,
    Cells = 4,
    Keyword = 5,
    Constant = 6,
    Form = 7,
    Name = 8,
    Label = 9,
    Unended = 10,
    Limit = 11,
    Group = 13,
}

impl Refusal {
    pub fn number(self) -> u32
        ensures { result ≡ refusal_number self }
    {
        self as u32
    }
}
