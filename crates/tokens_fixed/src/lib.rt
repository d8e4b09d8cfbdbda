// Tokens that are fixed strings, document 01 and 02, L1 and L5: keywords and signs. Comments in quotes are document 01's words.
#![tactic(auto, unfolding(base::specs::Choice::pick, base::specs::Front::on_front, base::specs::Text::bytes, text::specs::Pieces::fixed, source::specs::Tokens::first_of))]

ghost use Rattle.std.specs.Prelude.{ℕ, ◌≡◌, ◌<◌, ◌+◌, List, ◌∷◌, length, drop, IfSome, Ok};
ghost use Rattle.source.specs.Memory.{token_kind};
ghost use Rattle.source.specs.Tokens.{one, token, pairs, first_of, keyword_at, sign_at};
ghost use Rattle.tokens_fixed.specs.Answers.{Is};
ghost use Rattle.tokens_fixed.specs.Internal.{taken, singly};

use sheet::Operator;
use source::marks::{
    MARK_AND, MARK_ARROW, MARK_BEGIN, MARK_ELSE, MARK_END, MARK_FINISH, MARK_IF, MARK_INTEGER,
    MARK_OR, MARK_START, MARK_THEN,
};
use source::{Refusal, Token};
use text::read::fixed_at;
use word::Relation;

// A token and the place of the cell behind it, or the place behind a name.
#[derive(Clone, Copy)]
pub enum One {
    Token(Token, usize),
    Name(usize),
}

// "always taking the longest of BEGIN ENDOFPROGRAM INTEGER IF THEN ELSE", of START and FINISH, and of AND and OR. Keyword letters are
// small in cells. No loop over a table of them: a function that names a table stores all of it on its stack at each call.
pub fn keyword_at(cells: &[u8], at: usize) -> Result<One, Refusal>
    ensures { Is cells.now at result (keyword_at (drop at cells.now)) }
{
    if let Some(q) = fixed_at(cells, at, b"endofprogram") {
        return Ok(One::Token(Token::Mark(MARK_END), q));
    }
    if let Some(q) = fixed_at(cells, at, b"integer") {
        return Ok(One::Token(Token::Mark(MARK_INTEGER), q));
    }
    if let Some(q) = fixed_at(cells, at, b"finish") {
        return Ok(One::Token(Token::Mark(MARK_FINISH), q));
    }
    if let Some(q) = fixed_at(cells, at, b"begin") {
        return Ok(One::Token(Token::Mark(MARK_BEGIN), q));
    }
    if let Some(q) = fixed_at(cells, at, b"start") {
        return Ok(One::Token(Token::Mark(MARK_START), q));
    }
    if let Some(q) = fixed_at(cells, at, b"then") {
        return Ok(One::Token(Token::Mark(MARK_THEN), q));
    }
    if let Some(q) = fixed_at(cells, at, b"else") {
        return Ok(One::Token(Token::Mark(MARK_ELSE), q));
    }
    if let Some(q) = fixed_at(cells, at, b"and") {
        return Ok(One::Token(Token::Mark(MARK_AND), q));
    }
    if let Some(q) = fixed_at(cells, at, b"if") {
        return Ok(One::Token(Token::Mark(MARK_IF), q));
    }
    if let Some(q) = fixed_at(cells, at, b"or") {
        return Ok(One::Token(Token::Mark(MARK_OR), q));
    }
    Err(Refusal::Keyword)
}

// "`** << >> !! -> <= >=` are taken whenever both characters are there."
fn pair_of(c: u8, d: u8) -> Option<Token>
    ensures pair { (l : List ℕ) → taken l result ≡ first_of pairs (c ∷ d ∷ l) }
    ensures no_name { IfSome result (λ t. 0 < token_kind t) }
{
    match (c, d) {
        (b'*', b'*') => Some(Token::Binary(Operator::Power)),
        (b'<', b'<') => Some(Token::Binary(Operator::Left)),
        (b'>', b'>') => Some(Token::Binary(Operator::Right)),
        (b'!', b'!') => Some(Token::Binary(Operator::Unlike)),
        (b'-', b'>') => Some(Token::Mark(MARK_ARROW)),
        (b'<', b'=') => Some(Token::Compare(Relation::AtMost)),
        (b'>', b'=') => Some(Token::Compare(Relation::AtLeast)),
        _ => None,
    }
}

// The token of one character; a character of no token is a mark that no form has.
fn single_of(c: u8) -> Token
    ensures single { (l : List ℕ) → one (token result) l ≡ singly c l }
    ensures no_name { 0 < token_kind result }
{
    match c {
        b'+' => Token::Binary(Operator::Plus),
        b'-' => Token::Binary(Operator::Minus),
        b'*' => Token::Binary(Operator::Times),
        b'/' => Token::Binary(Operator::Over),
        b'&' => Token::Binary(Operator::And),
        b'!' => Token::Binary(Operator::Or),
        b'=' => Token::Compare(Relation::Equal),
        b'#' => Token::Compare(Relation::Unequal),
        b'<' => Token::Compare(Relation::Less),
        b'>' => Token::Compare(Relation::Greater),
        _ => Token::Mark(c as u32),
    }
}

// The sign that begins with the cell c at a place.
pub fn sign_at(cells: &[u8], at: usize, c: u8) -> One
    requires { at < length cells.now }
    ensures { Is cells.now at (Ok result) (sign_at c (drop (at + 1) cells.now)) }
{
    let d = base::at(cells, at + 1, 0);
    match pair_of(c, d) {
        Some(t) => One::Token(t, at + 2),
        None => One::Token(single_of(c), at + 1),
    }
}
