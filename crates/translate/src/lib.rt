// The translation of a sheet, document 01 ("Translation") and 02, L5: from its fields to its orders.
#![tactic(auto)]

ghost use Rattle.std.specs.Prelude.{◌-◌, ◌≤◌, ◌<◌, ◌≡◌, map, length, get_or, take};
ghost use Rattle.order.specs.Limits.{most_variables, most_orders};
ghost use Rattle.order.specs.Memory.{order_in, orders_in};
ghost use Rattle.sheet.specs.Temporaries.{stored_to, largest_stored};
ghost use Rattle.sheet.specs.Beginnings.{inner, is_last, of_instruction};
ghost use Rattle.translate.specs.Internal.{led_word, noted, noted_by, table, Finishes};
ghost use Rattle.translate.specs.Answers.{Translates};

use base::{at, put};
use order::{MOST_ORDERS, MOST_VARIABLES, Order};
use order_number::{order_in, order_word};
use translate_part::put_part;

// The number of JMP.
const JUMP: u64 = 4;

// The number of STR.
const STORE: u64 = 11;

// T and N of a sheet's translation: how many temporaries it has, and how many orders.
#[derive(Clone, Copy)]
pub struct Translated {
    pub temporaries: u32,
    pub orders: u32,
}

// How many branches are yet to come behind an order that do not end their IF, where k were.
fn inner_behind(k: u32, o: Order) -> u32
    ensures { result ≡ inner k o }
{
    match o {
        Order::Branch(_, _) => k.saturating_sub(1),
        Order::Cond(n) => n.saturating_sub(1),
        _ => k,
    }
}

// Whether an instruction begins behind an order, where k branches are yet to come that do not end their IF.
fn is_last(o: Order, v: u32, k: u32) -> bool
    requires { v ≤ most_variables }
    ensures { result ≡ is_last v k o }
{
    match o {
        Order::Store(w) => w < v + 2,
        Order::Branch(_, _) => k == 0,
        Order::Jump(_) | Order::Skip(_) | Order::Send => true,
        _ => false,
    }
}

// Whether an order is an instruction's: SKIP and STOP are not.
fn of_instruction(o: Order) -> bool
    ensures { result ≡ of_instruction o }
{
    !matches!(o, Order::Skip(_) | Order::Stop)
}

// Notes order i as the first of the next instruction, where it is.
fn note(firsts: &mut [u32], n: usize, i: u32, here: bool, o: Order) -> usize
    requires { n < 4294967296 }
    ensures { noted result firsts.new ≡ noted_by here o i (noted n firsts.old) }
{
    if here && of_instruction(o) {
        put(firsts, n, i);
        return n + 1;
    }
    n
}

// The first orders of the instructions, in the order of their numbers, and how many there are.
fn note_firsts(orders: &[u64], v: u32, firsts: &mut [u32]) -> usize
    requires { (v ≤ most_variables) × (length orders.now ≤ most_orders) }
    ensures { noted result firsts.new ≡ table v orders.now firsts.old }
{
    let mut n: usize = 0;
    let mut here = true;
    let mut k: u32 = 0;
    for (i, &w) in orders.iter().enumerate() {
        let o = order_in(w);
        n = note(firsts, n, i as u32, here, o);
        here = is_last(o, v, k);
        k = inner_behind(k, o);
    }
    n
}

// The first order of instruction s, of n that are noted; `last` for one past them.
fn first_of(firsts: &[u32], n: usize, last: u32, s: u32) -> u32
    ensures { result ≡ get_or (take n firsts.now) (s - 1) last }
{
    let k = s.saturating_sub(1) as usize;
    if k < n { at(firsts, k, last) } else { last }
}

// An order's number, with the address of its instruction where it is a jump. The number is asked, not the enum: all orders come here.
fn led(w: u64, firsts: &[u32], n: usize, last: u32) -> u64
    ensures { result ≡ led_word (take n firsts.now) last w }
{
    if w / 4294967296 == JUMP {
        let s = (w % 4294967296) as u32;
        order_word(Order::Jump(first_of(firsts, n, last, s)))
    } else {
        w
    }
}

// Gives each jump the address of its instruction.
fn lead_all(orders: &mut [u64], firsts: &[u32], n: usize, last: u32)
    ensures { orders.new ≡ map (led_word (take n firsts.now) last) orders.old }
{
    for w in orders.iter_mut() {
        *w = led(*w, firsts, n, last);
    }
}

// The temporary that the order that a number stands for stores to, from 1; 0 where there is none.
fn stored_to(x: u64, v: u32) -> u32
    requires { v ≤ most_variables }
    ensures { result ≡ stored_to v (order_in x) }
{
    if x / 4294967296 == STORE {
        let w = (x % 4294967296) as u32;
        w.saturating_sub(v + 1)
    } else {
        0
    }
}

// T: the largest of them.
fn largest(orders: &[u64], v: u32) -> u32
    requires { v ≤ most_variables }
    ensures { result ≡ largest_stored v (orders_in orders.now) }
{
    let mut t: u32 = 0;
    for &w in orders {
        t = t.max(stored_to(w, v));
    }
    t
}

// Leads the jumps of orders that are put, STOP the last of them.
fn finish(orders: &mut [u64], v: u32) -> Translated
    requires { (v ≤ most_variables) × (1 ≤ length orders.old) × (length orders.old ≤ most_orders) }
    ensures { Finishes v orders.old result orders.new }
{
    let mut firsts = [0u32; MOST_ORDERS as usize];
    let n = note_firsts(orders, v, &mut firsts);
    let count = orders.len() as u32;
    lead_all(orders, &firsts, n, count - 1);
    Translated {
        temporaries: largest(orders, v),
        orders: count,
    }
}

// Translates the sheet of V variables whose fields are lent, into an array of MOST_ORDERS orders; none where there is no room for its
// translation. Free is what that holds behind the orders, and all that it holds where they have no room.
pub fn translate(fields: &[u64], v: u32, out: &mut [u64]) -> Option<Translated>
    ensures { Translates fields.now v out.old result out.new }
{
    if MOST_VARIABLES < v {
        return None;
    }
    if out.len() != MOST_ORDERS as usize {
        return None;
    }
    let s = put_part(fields, 0, v + 2, out, 0);
    let n = s.i;
    if out.len() <= n {
        return None;
    }
    order_number::put_order(out, n, Order::Stop);
    Some(finish(&mut out[..n + 1], v))
}
