// Words, document 01 ("Word arithmetic"). Crate word_arithmetic has the functions.
#![tactic(auto)]

// How two words may relate, or one word to zero: = # < <= > >=.
#[derive(Clone, Copy)]
pub enum Relation {
    Equal,
    Unequal,
    Less,
    AtMost,
    Greater,
    AtLeast,
}
