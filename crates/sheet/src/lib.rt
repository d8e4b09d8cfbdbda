// Sheets, document 01 ("Sheet text"): what they are, translate to and mean (specs/), and that these agree (proofs/). A sheet's
// text is a list of fields.
#![tactic(auto)]

use word::Relation;

// The operators that stand between two operands, in the source + - * / ** << >> & ! !!
#[derive(Clone, Copy)]
pub enum Operator {
    Plus,
    Minus,
    Times,
    Over,
    Power,
    Left,
    Right,
    And,
    Or,
    Unlike,
}

// The words that join the members of a run, in the source %AND and %OR.
#[derive(Clone, Copy)]
pub enum Joining {
    And,
    Or,
}

// A field: a node of an expression, a relation, or a word of an instruction or of a run with the number behind it. ELSE, START,
// FINISH and the fields that begin an instruction begin a line of the sheet's text.
#[derive(Clone, Copy)]
pub enum Field {
    Else,
    Start,
    Finish,
    If,
    Send,
    Neg,
    Not,
    Binary(Operator),
    Compare(Relation),
    Word(u32),
    Constant(u32),
    Set(u32),
    Goto(u32),
    Run(Joining, u32),
}
