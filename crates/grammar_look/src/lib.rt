// The tokens of a statement, and what stands at a place of them to the grammar. Behind the last of them nothing is found.
#![tactic(auto)]

ghost use Rattle.std.specs.Prelude.{true, ◌≡◌, ◌+◌, ◌<◌, OnSome};
ghost use Rattle.source.specs.Grammar.{is_mark, opens, is_equal, is_name};
ghost use Rattle.grammar_look.specs.Internal.{ahead, first, operand_of, first_operand, lead_of, first_lead, link_of, first_link, relation_of, first_relation, behind_name, behind_arrow, opening_of, first_opening, is_number, first_name, first_number, first_label};

use sheet::{Field, Operator};
use source::Token;
use source::marks::{MARK_ARROW, MARK_COLON, MARK_INVERT, MARK_OPEN};
use token_number::token_at;
use word::Relation;

// The word that the name SEND has.
const WORD_SEND: u32 = 1;

// The first `count` tokens that two arrays hold: the kinds, and what each carries.
#[derive(Clone, Copy)]
pub struct Tokens<'a> {
    pub kinds: &'a [u8],
    pub values: &'a [u32],
    pub count: usize,
}

// An operand: a field of its own, or an opening bracket.
#[derive(Clone, Copy)]
pub enum Operand {
    Plain(Field),
    Open,
}

// What an expression begins with.
#[derive(Clone, Copy)]
pub enum Lead {
    Plus,
    Minus,
    Invert,
}

// The first two tokens of an instruction that can be part of an IF.
#[derive(Clone, Copy)]
pub enum Opening {
    Set(u32),
    Send,
    Goto(u32),
}

fn is_mark(t: Token, m: u32) -> bool
    ensures { result ≡ is_mark m t }
{
    matches!(t, Token::Mark(k) if k == m)
}

fn is_name(t: Token) -> bool
    ensures { result ≡ is_name t }
{
    matches!(t, Token::Name(_))
}

fn is_number(t: Token) -> bool
    ensures { result ≡ is_number t }
{
    matches!(t, Token::Number(_))
}

fn is_equal(s: Relation) -> bool
    ensures { result ≡ is_equal s }
{
    matches!(s, Relation::Equal)
}

fn operand_of(t: Token) -> Option<Operand>
    ensures { result ≡ operand_of t }
{
    match t {
        Token::Name(w) => Some(Operand::Plain(Field::Word(w))),
        Token::Number(v) | Token::Quoted(v) => Some(Operand::Plain(Field::Constant(v))),
        Token::Mark(MARK_OPEN) => Some(Operand::Open),
        _ => None,
    }
}

fn lead_of(t: Token) -> Option<Lead>
    ensures { result ≡ lead_of t }
{
    match t {
        Token::Binary(Operator::Plus) => Some(Lead::Plus),
        Token::Binary(Operator::Minus) => Some(Lead::Minus),
        Token::Mark(MARK_INVERT) => Some(Lead::Invert),
        _ => None,
    }
}

fn link_of(t: Token) -> Option<Operator>
    ensures { result ≡ link_of t }
{
    match t {
        Token::Binary(o) => Some(o),
        _ => None,
    }
}

fn relation_of(t: Token) -> Option<Relation>
    ensures { result ≡ relation_of t }
{
    match t {
        Token::Compare(s) => Some(s),
        _ => None,
    }
}

// What a name w and the token behind it open.
fn behind_name(w: u32, t: Token) -> Option<Opening>
    ensures { result ≡ behind_name w t }
{
    match t {
        Token::Compare(s) if is_equal(s) => Some(Opening::Set(w)),
        Token::Mark(MARK_OPEN) if w == WORD_SEND => Some(Opening::Send),
        _ => None,
    }
}

fn behind_arrow(t: Token) -> Option<Opening>
    ensures { result ≡ behind_arrow t }
{
    match t {
        Token::Number(l) => Some(Opening::Goto(l)),
        _ => None,
    }
}

fn opening_of(t: Token, u: Token) -> Option<Opening>
    ensures { result ≡ opening_of t u }
{
    match t {
        Token::Name(w) => behind_name(w, u),
        Token::Mark(MARK_ARROW) => behind_arrow(u),
        _ => None,
    }
}

impl Tokens<'_> {
    // The token at a place.
    fn token(&self, at: usize) -> Option<Token>
        ensures found { result ≡ first (ahead self.now at) }
        ensures inside { OnSome result (at < self.now.count) }
    {
        if at < self.count {
            return Some(token_at(self.kinds, self.values, at));
        }
        None
    }

    // Whether a mark stands at a place.
    pub fn mark_at(&self, at: usize, m: u32) -> bool
        ensures found { result ≡ opens m (ahead self.now at) }
        ensures inside { result ≡ true → at < self.now.count }
    {
        self.token(at).is_some_and(|t| is_mark(t, m))
    }

    pub fn name_at(&self, at: usize) -> bool
        ensures found { result ≡ first_name (ahead self.now at) }
        ensures inside { result ≡ true → at < self.now.count }
    {
        self.token(at).is_some_and(is_name)
    }

    pub fn operand_at(&self, at: usize) -> Option<Operand>
        ensures found { result ≡ first_operand (ahead self.now at) }
        ensures inside { OnSome result (at < self.now.count) }
    {
        operand_of(self.token(at)?)
    }

    pub fn lead_at(&self, at: usize) -> Option<Lead>
        ensures found { result ≡ first_lead (ahead self.now at) }
        ensures inside { OnSome result (at < self.now.count) }
    {
        lead_of(self.token(at)?)
    }

    pub fn link_at(&self, at: usize) -> Option<Operator>
        ensures found { result ≡ first_link (ahead self.now at) }
        ensures inside { OnSome result (at < self.now.count) }
    {
        link_of(self.token(at)?)
    }

    pub fn relation_at(&self, at: usize) -> Option<Relation>
        ensures found { result ≡ first_relation (ahead self.now at) }
        ensures inside { OnSome result (at < self.now.count) }
    {
        relation_of(self.token(at)?)
    }

    pub fn opening_at(&self, at: usize) -> Option<Opening>
        ensures found { result ≡ first_opening (ahead self.now at) }
        ensures inside { OnSome result (at + 1 < self.now.count) }
    {
        let t = self.token(at)?;
        let u = self.token(at + 1)?;
        opening_of(t, u)
    }

    fn number_at(&self, at: usize) -> bool
        ensures found { result ≡ first_number (ahead self.now at) }
        ensures inside { result ≡ true → at < self.now.count }
    {
        self.token(at).is_some_and(is_number)
    }

    // Whether a number and a colon stand at a place.
    pub fn label_at(&self, at: usize) -> bool
        ensures found { result ≡ first_label (ahead self.now at) }
        ensures inside { result ≡ true → at + 1 < self.now.count }
    {
        self.number_at(at) && self.mark_at(at + 1, MARK_COLON)
    }
}
