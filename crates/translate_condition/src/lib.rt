// The orders of what an IF asks, document 01 ("Translation") and 02, L5, put into an array from a place on, as far as there is room.
// A run's first member is measured before it is put, so that every branch is put with the address where it leads.
#![tactic(auto)]

ghost use Rattle.std.specs.Prelude.{◌+◌, ◌<◌, ◌≡◌, length, OnSome};
ghost use Rattle.sheet_field.specs.Memory.{fields_at};
ghost use Rattle.translate_expression.specs.Internal.{Puts};
ghost use Rattle.translate_condition.specs.Internal.{head_of, first_head, first_exits, cond_of, Comparing, Trying, Asking};

use order::Order;
use sheet::{Field, Joining};
use sheet_field::{field_in, opposite_of};
use translate_expression::{Spot, put_comparison, put_order};
use translate_size::trying_size;
use word::Relation;

// How a condition begins: as a comparison, or as a run.
#[derive(Clone, Copy)]
enum Head {
    Compare(Relation),
    Run(Joining),
}

// The orders that a yes and a no lead to. One of them is the order behind; `falls` says whether it is that of a yes.
#[derive(Clone, Copy)]
struct Exits {
    falls: bool,
    yes: u32,
    no: u32,
}

fn head_of(f: Field) -> Option<Head>
    ensures { result ≡ head_of f }
{
    match f {
        Field::Compare(s) => Some(Head::Compare(s)),
        Field::Run(w, _) => Some(Head::Run(w)),
        _ => None,
    }
}

fn head_at(fields: &[u64], at: usize) -> Option<Head>
    ensures found { result ≡ first_head (fields_at at fields.now) }
    ensures inside { OnSome result (at < length fields.now) }
{
    let w = *fields.get(at)?;
    head_of(field_in(w))
}

// The address of the order that is n orders behind a place.
pub fn behind(i: usize, n: u32) -> u32
    ensures { i + n < 4294967296 → result ≡ i + n }
{
    ((i % 4294967296 + n as usize) % 4294967296) as u32
}

// The exits of a run's first member: the answer that does not settle the run goes on with the rest, whose first order is `next`.
fn first_exits(w: Joining, next: u32, x: Exits) -> Exits
    ensures { result ≡ first_exits w next x }
{
    match w {
        Joining::And => Exits {
            falls: true,
            yes: next,
            no: x.no,
        },
        Joining::Or => Exits {
            falls: false,
            yes: x.yes,
            no: next,
        },
    }
}

// A comparison, whose expressions stand at a place, and the branch that leads to an order.
fn put_compared(
    fields: &[u64],
    at: usize,
    word: u32,
    out: &mut [u64],
    i: usize,
    s: Relation,
    to: u32,
) -> Spot
    ensures { Comparing fields.now at word i s to out.old result out.new }
{
    let c = put_comparison(fields, at, word, out, i);
    Spot {
        at: c.at,
        i: put_order(out, c.i, Order::Branch(s, to)),
    }
}

// The orders that try a condition. A comparison branches on the answer that does not fall through. `word` is that of the first
// temporary.
fn put_condition(fields: &[u64], at: usize, word: u32, out: &mut [u64], i: usize, x: Exits) -> Spot
    ensures { Trying fields.now at word i x out.old result out.new }
{
    match head_at(fields, at) {
        Some(Head::Compare(s)) => {
            if x.falls {
                return put_compared(fields, at + 1, word, out, i, opposite_of(s), x.no);
            }
            put_compared(fields, at + 1, word, out, i, s, x.yes)
        }
        Some(Head::Run(w)) => {
            let next = behind(i, trying_size(fields, at + 1).orders);
            let first = put_condition(fields, at + 1, word, out, i, first_exits(w, next, x));
            put_condition(fields, first.at, word, out, first.i, x)
        }
        None => Spot { at, i },
    }
}

// COND, where there are two comparisons or more.
fn put_cond(out: &mut [u64], i: usize, count: u32) -> usize
    ensures { Puts (cond_of count) i out.old result out.new }
{
    if count <= 1 {
        return i;
    }
    put_order(out, i, Order::Cond(count))
}

// What an IF asks, of so many comparisons. A yes goes on behind these orders.
pub fn put_asking(
    fields: &[u64],
    at: usize,
    word: u32,
    out: &mut [u64],
    i: usize,
    count: u32,
    yes: u32,
    no: u32,
) -> usize
    ensures { Asking fields.now at word i count yes no out.old result out.new }
{
    let j = put_cond(out, i, count);
    let x = Exits {
        falls: true,
        yes,
        no,
    };
    put_condition(fields, at, word, out, j, x).i
}
