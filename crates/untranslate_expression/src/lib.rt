// From the orders of expressions and comparisons, document 01 ("Translation"), back to their fields: right where the orders are a
// translation. An expression's orders are those of its leftmost operand, then a link for each operator from there outwards. Its fields
// are the operators from the outermost inwards, that operand, and the right operands from the innermost outwards: so the links are
// counted first, and each operator has its place.
#![tactic(auto)]

ghost use Rattle.std.specs.Prelude.{◌≡◌, ◌<◌, length};
ghost use Rattle.order.specs.Memory.{order_in};
ghost use Rattle.untranslate_expression.specs.Internal.{orders_at, first_order, use_of, leaf_of, loads_leaf, loads, is_single, operator_of, joined_by, link_of};
ghost use Rattle.untranslate_expression.specs.Internal.{Past, PastWord, PastLink, Counts, LeafPlace, Put, Leaf, Reading, Linking};

use order::{Operation, Order};
use order_number::order_in;
use sheet::{Field, Operator};
use sheet_field::field_word;

// What an operation does with its operand.
#[derive(Clone, Copy)]
pub enum Use {
    Loads,
    Joins(Operator),
    Compares,
}

// A link: an operator without a right operand; one with a plain right operand; or one whose right operand is worked out now. CMP is an
// operator with the field ELSE, which the caller replaces.
#[derive(Clone, Copy)]
pub enum Link {
    Unary(Field),
    Plain(Field, Field),
    Kept,
}

// A place among the orders, and one among the fields.
#[derive(Clone, Copy)]
pub struct Spot {
    pub at: usize,
    pub n: usize,
}

fn use_of(f: Operation) -> Use
    ensures { result ≡ use_of f }
{
    match f {
        Operation::Load => Use::Loads,
        Operation::Add => Use::Joins(Operator::Plus),
        Operation::Sub => Use::Joins(Operator::Minus),
        Operation::Mlt => Use::Joins(Operator::Times),
        Operation::Div => Use::Joins(Operator::Over),
        Operation::Exp => Use::Joins(Operator::Power),
        Operation::Shl => Use::Joins(Operator::Left),
        Operation::Shr => Use::Joins(Operator::Right),
        Operation::And => Use::Joins(Operator::And),
        Operation::Or => Use::Joins(Operator::Or),
        Operation::Xor => Use::Joins(Operator::Unlike),
        Operation::Cmp => Use::Compares,
    }
}

// The order at a place; STOP where the array has ended.
pub fn order_at(orders: &[u64], at: usize) -> Order
    ensures { result ≡ first_order (orders_at at orders.now) }
{
    if at < orders.len() {
        order_in(orders[at])
    } else {
        Order::Stop
    }
}

// The place behind, where the array has not ended.
pub fn past(orders: &[u64], at: usize) -> usize
    ensures { Past orders.now at result }
{
    if at < orders.len() { at + 1 } else { at }
}

// The field of the operand of an order that has one.
fn leaf_of(o: Order) -> Field
    ensures { result ≡ leaf_of o }
{
    match o {
        Order::Word(_, w) => Field::Word(w),
        Order::Number(_, n) => Field::Constant(n),
        _ => Field::Else,
    }
}

// Whether an order's operand is a variable or a constant; `first` is the word of the first temporary.
fn loads_leaf(o: Order, first: u32) -> bool
    ensures { result ≡ loads_leaf first o }
{
    match o {
        Order::Word(_, w) => w < first,
        Order::Number(_, _) => true,
        _ => false,
    }
}

// LOAD of word 0 as one number: its own number, 12, times 2^32.
const LOAD_WORD_0: u64 = 51539607552;

// Whether the order that a number stands for is LOAD of a word.
fn loads_word(x: u64, word: u32) -> bool
    ensures { result ≡ loads word (order_in x) }
{
    x == LOAD_WORD_0 + word as u64
}

// An operation on a plain operand as a link.
fn joined_by(f: Operation, x: Field) -> Option<Link>
    ensures { result ≡ joined_by x (use_of f) }
{
    match use_of(f) {
        Use::Loads => None,
        Use::Joins(o) => Some(Link::Plain(Field::Binary(o), x)),
        Use::Compares => Some(Link::Plain(Field::Else, x)),
    }
}

// The link at a place; `word` is that of the first temporary that is not in use. STR of it keeps the left operand exactly where the
// order behind loads a variable or a constant.
fn link_at(orders: &[u64], at: usize, first: u32, word: u32) -> Option<Link>
    requires { at < length orders.now }
    ensures { result ≡ link_of first word (orders_at at orders.now) }
{
    match order_at(orders, at) {
        Order::Word(f, w) => joined_by(f, Field::Word(w)),
        Order::Number(f, n) => joined_by(f, Field::Constant(n)),
        Order::Store(w) if w == word && loads_leaf(order_at(orders, at + 1), first) => {
            Some(Link::Kept)
        }
        Order::Neg => Some(Link::Unary(Field::Neg)),
        Order::Not => Some(Link::Unary(Field::Not)),
        _ => None,
    }
}

// The operator of an order on a temporary.
fn operator_of(o: Order) -> Field
    ensures { result ≡ operator_of o }
{
    match o {
        Order::Word(f, _) => match use_of(f) {
            Use::Joins(o) => Field::Binary(o),
            Use::Loads | Use::Compares => Field::Else,
        },
        _ => Field::Else,
    }
}

// Whether the order that a number stands for is a link by itself: NEG, NOT, and an operation on a word or a number that is not LOAD.
#[tactic(auto, using(crate::proofs::Places::single_told), unfolding(base::specs::Choice::pick))]
fn is_single(x: u64) -> bool
    ensures { result ≡ is_single (order_in x) }
{
    matches!(x / 4294967296, 2 | 3 | 13..=23 | 25..=35)
}

// The place behind the first LOAD of a word.
fn past_word(orders: &[u64], at: usize, word: u32) -> usize
    ensures { PastWord orders.now at word result }
{
    for j in at..orders.len() {
        if loads_word(orders[j], word) {
            return j + 1;
        }
    }
    at.max(orders.len())
}

// The place behind the link at a place, or that place where there is none. A right operand that is worked out never loads the
// temporary that keeps the left one: its orders end with the LOAD of that and the order behind. Most links are single orders, which
// are told by their numbers.
fn past_link(orders: &[u64], at: usize, first: u32, word: u32) -> usize
    ensures { PastLink orders.now at first word result }
{
    if orders.len() <= at {
        return at;
    }
    if is_single(orders[at]) {
        return at + 1;
    }
    match link_at(orders, at, first, word) {
        Some(Link::Unary(_) | Link::Plain(_, _)) => at + 1,
        Some(Link::Kept) => past(orders, past_word(orders, at + 1, word)),
        None => at,
    }
}

// How many links there are from a place on.
fn count_links(orders: &[u64], at: usize, first: u32, word: u32) -> usize
    ensures { Counts orders.now at first word result }
{
    let mut j = at;
    let mut n = 0;
    loop {
        let k = past_link(orders, j, first, word);
        if k <= j {
            return n;
        }
        j = k;
        n += 1;
    }
}

// Puts a field where there is room.
pub fn put_field(fields: &mut [u64], n: usize, f: Field) -> usize
    ensures { Put f n fields.old result fields.new }
{
    if n < fields.len() {
        fields[n] = field_word(f);
        return n + 1;
    }
    n
}

// The place behind k operators that begin at p, where there is room for a field more.
fn leaf_place(room: usize, p: usize, k: usize) -> usize
    ensures { LeafPlace room p k result }
{
    if k < room.saturating_sub(p) { p + k } else { p }
}

fn read_leaf(orders: &[u64], at: usize, fields: &mut [u64], q: usize) -> Spot
    ensures { Leaf orders.now at fields.old q result fields.new }
{
    let n = put_field(fields, q, leaf_of(order_at(orders, at)));
    Spot {
        at: past(orders, at),
        n,
    }
}

// An expression, or a comparison, whose fields are put at p.
#[cycle(read_expression_read_link)]
pub fn read_expression(
    orders: &[u64],
    at: usize,
    first: u32,
    word: u32,
    fields: &mut [u64],
    p: usize,
) -> Spot
    ensures { Reading orders.now at first word fields.old p result fields.new }
{
    let links = count_links(orders, past(orders, at), first, word);
    let leaf = leaf_place(fields.len(), p, links);
    let mut s = read_leaf(orders, at, fields, leaf);
    for q in (p..leaf).rev() {
        s = read_link(orders, first, word, fields, q, s);
    }
    s
}

// One link outwards: its operator goes to q, its right operand behind the fields so far.
#[cycle(read_expression_read_link)]
fn read_link(orders: &[u64], first: u32, word: u32, fields: &mut [u64], q: usize, s: Spot) -> Spot
    ensures { Linking orders.now first word q s fields.old result fields.new }
{
    let Spot { at, n } = s;
    if orders.len() <= at {
        return s;
    }
    let Some(link) = link_at(orders, at, first, word) else {
        return s;
    };
    match link {
        Link::Unary(f) => {
            put_field(fields, q, f);
            Spot { at: at + 1, n }
        }
        Link::Plain(f, x) => {
            put_field(fields, q, f);
            let m = put_field(fields, n, x);
            Spot { at: at + 1, n: m }
        }
        Link::Kept => {
            let r = read_expression(orders, at + 1, first, word.saturating_add(1), fields, n);
            let c = past(orders, past(orders, r.at));
            put_field(fields, q, operator_of(order_at(orders, c)));
            Spot {
                at: past(orders, c),
                n: r.n,
            }
        }
    }
}
