// The kind of a token in memory and what it carries, and back: `token_kind`, `token_carried` and `token_of` of source's
// specs/Memory.antt.
#![tactic(auto, unfolding(base::specs::Choice::pick))]

pub mod letters;

ghost use Rattle.std.specs.Prelude.{◌≡◌, get_or};
ghost use Rattle.source.specs.Memory.{token_kind, token_carried, token_of};

use sheet_field::{operator, operator_number, relation, relation_number};
use source::Token;

// The kind of a token.
pub fn kind_of(t: Token) -> u8
    ensures { result ≡ token_kind t }
{
    match t {
        Token::Name(_) => 0,
        Token::Number(_) => 1,
        Token::Quoted(_) => 2,
        Token::Binary(o) => 4 + operator_number(o),
        Token::Compare(s) => 14 + relation_number(s),
        Token::Mark(_) => 3,
    }
}

// The number that a token carries.
pub fn value_of(t: Token) -> u32
    ensures { result ≡ token_carried t }
{
    match t {
        Token::Name(v) | Token::Number(v) | Token::Quoted(v) | Token::Mark(v) => v,
        Token::Binary(_) | Token::Compare(_) => 0,
    }
}

// The token with a kind and what it carries; a mark where no token has the kind.
#[tactic(auto, using(crate::proofs::Numbering::again))]
pub fn token_of(k: u8, v: u32) -> Token
    ensures { result ≡ token_of k v }
{
    match k {
        0 => Token::Name(v),
        1 => Token::Number(v),
        2 => Token::Quoted(v),
        4..=13 => Token::Binary(operator(k - 4)),
        14..=19 => Token::Compare(relation(k - 14)),
        _ => Token::Mark(v),
    }
}

// The token at a place of two arrays.
pub fn token_at(kinds: &[u8], values: &[u32], at: usize) -> Token
    ensures { result ≡ token_of (get_or kinds.now at 0) (get_or values.now at 0) }
{
    token_of(base::at(kinds, at, 0), base::at(values, at, 0))
}
