// The constants of a source, document 01: decimal ones and quoted ones. Comments in quotes are document 01's words.
#![tactic(auto)]

ghost use Rattle.std.specs.Prelude.{drop};
ghost use Rattle.source.specs.Tokens.{constant_of, text_at};
ghost use Rattle.tokens_constant.specs.Answers.{Constant, decimal_from};
ghost use Rattle.tokens_constant.specs.Internal.{CharacterIs};

use source::{GREATEST_CONSTANT, Refusal, Token};
use tokens_fixed::One;

// A character of a quoted constant, or the quote that closes it, and the place behind.
#[derive(Clone, Copy)]
enum Character {
    Plain(u8, usize),
    Close(usize),
}

// "A decimal constant is 0 to 2147483647": the digits behind the first one, whose value is given.
pub fn decimal_from(cells: &[u8], at: usize, first: u8) -> Result<One, Refusal>
    ensures { Constant cells.now at result (decimal_from first (drop at cells.now)) }
{
    let mut v = first as u64;
    for i in at..cells.len() {
        let c = cells[i];
        if !c.is_ascii_digit() {
            return Ok(One::Token(Token::Number(v as u32), i));
        }
        v = v * 10 + (c - b'0') as u64;
        if GREATEST_CONSTANT < v {
            return Err(Refusal::Constant);
        }
    }
    Ok(One::Token(Token::Number(v as u32), at.max(cells.len())))
}

// "a doubled quote being one"
fn character_at(cells: &[u8], at: usize) -> Option<Character>
    ensures { CharacterIs cells.now at result }
{
    let c = *cells.get(at)?;
    if c != b'\'' {
        Some(Character::Plain(c, at + 1))
    } else if base::at(cells, at + 1, 0) == b'\'' {
        Some(Character::Plain(b'\'', at + 2))
    } else {
        Some(Character::Close(at + 1))
    }
}

// "A quoted constant has one to four characters, .. packed eight bits each, the last lowest": those from a place on.
pub fn quoted_from(cells: &[u8], at: usize) -> Result<One, Refusal>
    ensures { Constant cells.now at result (constant_of (text_at (drop at cells.now))) }
{
    let mut i = at;
    let mut v: u64 = 0;
    for count in 0..5u32 {
        match character_at(cells, i) {
            Some(Character::Plain(c, q)) => {
                v = v * 256 + c as u64;
                i = q;
            },
            Some(Character::Close(q)) if 0 < count => {
                return Ok(One::Token(Token::Quoted(v as u32), q));
            },
            _ => return Err(Refusal::Constant),
        }
    }
    Err(Refusal::Constant)
}
