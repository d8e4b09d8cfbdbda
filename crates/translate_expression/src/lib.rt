// The orders of expressions and comparisons, document 01 ("Translation"), put into an array from a place on, as far as there is room.
// An expression's fields are a run of operators, a leaf, and the right operands from the innermost operator outwards: a loop
// along the left, and recursion only into right operands that are worked out.
#![tactic(auto)]

ghost use Rattle.std.specs.Prelude.{◌≡◌, [], ◌∷◌, ◌+◌, ◌<◌, length, OnSome};
ghost use Rattle.sheet_field.specs.Memory.{field_in, fields_at};
ghost use Rattle.translate_expression.specs.Internal.{node_of, first_node, right_of, is_operator, order_on, step_of, right_step};
ghost use Rattle.translate_expression.specs.Internal.{Puts, Putting, Run, Leaf, Stepping, Comparing, Next, closing};

use order::{Operation, Order};
use order_number::order_word;
use sheet::Field;
use sheet_field::{field_in, operation_of};

// A plain operand.
#[derive(Clone, Copy)]
pub enum Operand {
    Word(u32),
    Constant(u32),
}

// A node of an expression: a plain operand, the order on the operand behind it, or the operation on the two behind it.
#[derive(Clone, Copy)]
pub enum Node {
    Plain(Operand),
    Unary(Order),
    Binary(Operation),
}

// What an operator asks: an order, behind which the fields go on at a place; or a right operand to be worked out.
#[derive(Clone, Copy)]
pub enum Step {
    Put(Order, usize),
    Right(Operation),
}

// A place among the fields, and one among the orders.
#[derive(Clone, Copy)]
pub struct Spot {
    pub at: usize,
    pub i: usize,
}

fn node_of(f: Field) -> Option<Node>
    ensures { result ≡ node_of f }
{
    match f {
        Field::Neg => Some(Node::Unary(Order::Neg)),
        Field::Not => Some(Node::Unary(Order::Not)),
        Field::Binary(o) => Some(Node::Binary(operation_of(o))),
        Field::Word(w) => Some(Node::Plain(Operand::Word(w))),
        Field::Constant(n) => Some(Node::Plain(Operand::Constant(n))),
        _ => None,
    }
}

fn node_at(fields: &[u64], at: usize) -> Option<Node>
    ensures found { result ≡ first_node (fields_at at fields.now) }
    ensures inside { OnSome result (at < length fields.now) }
{
    let w = *fields.get(at)?;
    node_of(field_in(w))
}

// The plain right operand at a place; none where it is worked out.
pub fn right_at(fields: &[u64], at: usize) -> Option<Operand>
    ensures found { result ≡ right_of (first_node (fields_at at fields.now)) }
    ensures inside { OnSome result (at < length fields.now) }
{
    match node_at(fields, at) {
        Some(Node::Plain(x)) => Some(x),
        _ => None,
    }
}

fn operates(w: u64) -> bool
    ensures { result ≡ is_operator (node_of (field_in w)) }
{
    matches!(node_of(field_in(w)), Some(Node::Unary(_) | Node::Binary(_)))
}

// The place of the first field from `at` on that is no operator.
pub fn leaf_at(fields: &[u64], at: usize) -> usize
    ensures { Run fields.now at result }
{
    for j in at..fields.len() {
        if !operates(fields[j]) {
            return j;
        }
    }
    at.max(fields.len())
}

fn order_on(f: Operation, x: Operand) -> Order
    ensures { result ≡ order_on f x }
{
    match x {
        Operand::Word(w) => Order::Word(f, w),
        Operand::Constant(n) => Order::Number(f, n),
    }
}

fn next(w: u32) -> u32
    ensures { Next w result }
{
    w.saturating_add(1)
}

// Puts an order where there is room.
pub fn put_order(out: &mut [u64], i: usize, o: Order) -> usize
    ensures { Puts (o ∷ []) i out.old result out.new }
{
    if i < out.len() {
        out[i] = order_word(o);
        return i + 1;
    }
    i
}

// The orders behind a right operand that was worked out.
fn put_closing(out: &mut [u64], i: usize, f: Operation, word: u32, kept: u32) -> usize
    ensures { Puts (closing f word kept) i out.old result out.new }
{
    let j = put_order(out, i, Order::Store(kept));
    let k = put_order(out, j, Order::Word(Operation::Load, word));
    put_order(out, k, Order::Word(f, kept))
}

// What an operation asks whose left operand's fields end before `at`: the order on a plain right operand, or that the right operand be worked out.
pub fn right_step(fields: &[u64], f: Operation, at: usize) -> Step
    ensures { result ≡ right_step f at (right_of (first_node (fields_at at fields.now))) }
{
    match right_at(fields, at) {
        Some(x) => Step::Put(order_on(f, x), at + 1),
        None => Step::Right(f),
    }
}

// What the operator at j asks.
pub fn step_at(fields: &[u64], j: usize, at: usize) -> Option<Step>
    ensures { result ≡ step_of (first_node (fields_at j fields.now)) at (right_of (first_node (fields_at at fields.now))) }
{
    match node_at(fields, j)? {
        Node::Plain(_) => None,
        Node::Unary(o) => Some(Step::Put(o, at)),
        Node::Binary(f) => Some(right_step(fields, f, at)),
    }
}

// The leaf at the end of a run.
fn put_leaf(fields: &[u64], at: usize, out: &mut [u64], i: usize) -> Spot
    ensures { Leaf fields.now at i out.old result out.new }
{
    match right_at(fields, at) {
        Some(x) => Spot {
            at: at + 1,
            i: put_order(out, i, order_on(Operation::Load, x)),
        },
        None => Spot { at, i },
    }
}

// An expression; `word` is that of the first temporary that is not in use.
#[cycle(put_expression_put_step)]
pub fn put_expression(fields: &[u64], at: usize, word: u32, out: &mut [u64], i: usize) -> Spot
    ensures { Putting fields.now at word i out.old result out.new }
{
    let leaf = leaf_at(fields, at);
    let mut s = put_leaf(fields, leaf, out, i);
    for j in (at..leaf).rev() {
        if let Some(step) = step_at(fields, j, s.at) {
            s = put_step(fields, step, word, out, s);
        }
    }
    s
}

// The orders of a step. A right operand that is not plain is worked out while the left one is kept.
#[cycle(put_expression_put_step)]
fn put_step(fields: &[u64], step: Step, word: u32, out: &mut [u64], s: Spot) -> Spot
    ensures { Stepping fields.now step word s out.old result out.new }
{
    match step {
        Step::Put(o, at) => Spot {
            at,
            i: put_order(out, s.i, o),
        },
        Step::Right(f) => {
            let i = put_order(out, s.i, Order::Store(word));
            let kept = next(word);
            let second = put_expression(fields, s.at, kept, out, i);
            Spot {
                at: second.at,
                i: put_closing(out, second.i, f, word, kept),
            }
        }
    }
}

// A comparison: two expressions, one behind the other.
pub fn put_comparison(fields: &[u64], at: usize, word: u32, out: &mut [u64], i: usize) -> Spot
    ensures { Comparing fields.now at word i out.old result out.new }
{
    let s = put_expression(fields, at, word, out, i);
    let step = right_step(fields, Operation::Cmp, s.at);
    put_step(fields, step, word, out, s)
}
