// Orders and object text, document 01: the orders of the box, the limits of an object, what its text is and how it is read
// (specs/), and that both agree (proofs/).
#![tactic(auto)]

use word::Relation;

// The limits of specs/Limits.antt.
pub const MOST_VARIABLES: u32 = 128;

pub const MOST_TEMPORARIES: u32 = 32;

pub const MOST_ORDERS: u32 = 2048;

// An operation on the accumulator and an operand.
#[derive(Clone, Copy)]
pub enum Operation {
    Load,
    Add,
    Sub,
    Mlt,
    Div,
    Exp,
    Shl,
    Shr,
    And,
    Or,
    Xor,
    Cmp,
}

// An order: what a record of an object holds. A case carries a word of the frame, a number or an address.
#[derive(Clone, Copy)]
pub enum Order {
    Word(Operation, u32),
    Number(Operation, u32),
    Store(u32),
    Neg,
    Not,
    Jump(u32),
    Skip(u32),
    Branch(Relation, u32),
    Cond(u32),
    Send,
    Stop,
}
