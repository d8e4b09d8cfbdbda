// Pieces of text, read and written. Texts are bytes; the forms that they make up are in the crates above.
#![tactic(auto)]

pub mod read;
pub mod write;

// `greatest_number` of specs/Pieces.antt.
pub const GREATEST_NUMBER: u64 = 2147483647;
