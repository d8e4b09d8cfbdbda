// The orders of instructions, document 01 ("Translation") and 02, L1, put into an array from a place on, as far as there is room. A
// jump is put with the number of its instruction; crate translate gives it the address. What an IF asks is measured, and put when its
// parts are, so that its branches are put with their addresses.
#![tactic(auto)]

ghost use Rattle.std.specs.Prelude.{◌≡◌, ◌<◌, length, OnSome};
ghost use Rattle.sheet_field.specs.Memory.{fields_at};
ghost use Rattle.translate_part.specs.Internal.{opening_of, first_opening, is_else, Further};
ghost use Rattle.translate_part.specs.Internal.{Ending, Parting, Closing, Choosing, Turning};

use order::Order;
use sheet::Field;
use sheet_field::field_in;
use translate_condition::{behind, put_asking};
use translate_expression::{Spot, put_expression, put_order};
use translate_size::{condition_size, past};

// How an instruction begins: as one with an expression, whose last order is told; as a jump to an instruction; as an IF.
#[derive(Clone, Copy)]
pub enum Opening {
    Last(Order),
    Goto(u32),
    If,
}

// The places behind an IF, and the order that a no leads to.
#[derive(Clone, Copy)]
struct Closed {
    at: usize,
    i: usize,
    no: u32,
}

fn opening_of(f: Field) -> Option<Opening>
    ensures { result ≡ opening_of f }
{
    match f {
        Field::If => Some(Opening::If),
        Field::Send => Some(Opening::Last(Order::Send)),
        Field::Set(w) => Some(Opening::Last(Order::Store(w))),
        Field::Goto(s) => Some(Opening::Goto(s)),
        _ => None,
    }
}

fn opening_at(fields: &[u64], at: usize) -> Option<Opening>
    ensures found { result ≡ first_opening (fields_at at fields.now) }
    ensures inside { OnSome result (at < length fields.now) }
{
    let w = *fields.get(at)?;
    opening_of(field_in(w))
}

// Whether ELSE stands at a place.
fn else_at(fields: &[u64], at: usize) -> bool
    ensures { result ≡ is_else (fields_at at fields.now) }
{
    at < fields.len() && matches!(field_in(fields[at]), Field::Else)
}

// The place n orders further on in an array so long; its end, where there is no room for them.
fn further(long: usize, i: usize, n: u32) -> usize
    ensures { Further long i n result }
{
    if long <= i {
        return i;
    }
    if long - i <= n as usize {
        return long;
    }
    i + n as usize
}

// An instruction with an expression; its last order is o.
fn put_last(fields: &[u64], at: usize, o: Order, word: u32, out: &mut [u64], i: usize) -> Spot
    ensures { Ending fields.now at o word i out.old result out.new }
{
    let e = put_expression(fields, at, word, out, i);
    Spot {
        at: e.at,
        i: put_order(out, e.i, o),
    }
}

// Instructions, up to one that is missing: ELSE, FINISH or the end. `word` is that of the first temporary.
#[cycle(put_else_put_if_put_one_put_part)]
pub fn put_part(fields: &[u64], at: usize, word: u32, out: &mut [u64], i: usize) -> Spot
    ensures { Parting fields.now at word i out.old result out.new }
{
    let mut s = Spot { at, i };
    while let Some(r) = put_one(fields, word, out, s) {
        s = r;
    }
    s
}

// One instruction: the places behind it, where there is one.
#[cycle(put_else_put_if_put_one_put_part)]
fn put_one(fields: &[u64], word: u32, out: &mut [u64], s: Spot) -> Option<Spot>
    ensures { Turning fields.now word s out.old result out.new }
{
    let at = s.at;
    let i = s.i;
    match opening_at(fields, at)? {
        Opening::Last(o) => Some(put_last(fields, at + 1, o, word, out, i)),
        Opening::Goto(n) => Some(Spot {
            at: at + 1,
            i: put_order(out, i, Order::Jump(n)),
        }),
        Opening::If => Some(put_if(fields, at + 1, word, out, i)),
    }
}

// What stands behind IF. There is room left for what it asks while its parts are put.
#[cycle(put_else_put_if_put_one_put_part)]
fn put_if(fields: &[u64], at: usize, word: u32, out: &mut [u64], i: usize) -> Spot
    ensures { Choosing fields.now at word i out.old result out.new }
{
    let c = condition_size(fields, at);
    let j = further(out.len(), i, c.orders);
    let x = put_part(fields, past(fields, c.at), word, out, j);
    let e = put_else(fields, word, out, x);
    let yes = behind(i, c.orders);
    put_asking(fields, at, word, out, i, c.comparisons, yes, e.no);
    Spot { at: e.at, i: e.i }
}

// What stands behind an IF's first part: FINISH, and a no leads behind that part; or ELSE and the second part, and a no leads behind
// the SKIP that closes the first.
#[cycle(put_else_put_if_put_one_put_part)]
fn put_else(fields: &[u64], word: u32, out: &mut [u64], x: Spot) -> Closed
    ensures { Closing fields.now word x out.old result out.new }
{
    if else_at(fields, x.at) {
        let j = further(out.len(), x.i, 1);
        let y = put_part(fields, past(fields, x.at), word, out, j);
        put_order(out, x.i, Order::Skip(behind(y.i, 0)));
        return Closed {
            at: past(fields, y.at),
            i: y.i,
            no: behind(x.i, 1),
        };
    }
    Closed {
        at: past(fields, x.at),
        i: x.i,
        no: behind(x.i, 0),
    }
}
