// From the orders that try a condition, 02, L5, back to its fields: right where the orders are a translation. The branches tell its shape:
// "After a comparison one branch goes straight to the next that matters, to the part's first instruction or past the part; the other
// answer falls through."
#![tactic(auto)]

ghost use Rattle.std.specs.Prelude.{◌≡◌, ◌<◌, ◌-◌, length};
ghost use Rattle.order.specs.Memory.{order_in};
ghost use Rattle.sheet.specs.Condition.{leaving};
ghost use Rattle.sheet.specs.Guess.{furthest, word_of};
ghost use Rattle.untranslate_condition.specs.Internal.{lead_of, lead_at, left_by, step_by, goes_on_by};
ghost use Rattle.untranslate_condition.specs.Internal.{PastBranches, FirstMember, Compared, Trying};

use sheet::{Field, Joining};
use sheet_field::{opposite_of, relation};
use untranslate_expression::{put_field, read_expression};
use word::Relation;

// ---- branches

// What a branch asks for, and where it leads; or none, where the order that a number stands for is no branch. It is told by that number:
// branches have 5 to 10, in the order of relations.
fn lead_of(x: u64) -> Option<(Relation, u32)>
    ensures { result ≡ lead_of (order_in x) }
{
    match x / 4294967296 {
        k @ 5..=10 => Some((relation((k - 5) as u8), (x % 4294967296) as u32)),
        _ => None,
    }
}

// The same of the order at a place; none where the array has ended.
pub fn lead_at(orders: &[u64], at: usize) -> Option<(Relation, u32)>
    ensures { result ≡ lead_at at orders.now }
{
    lead_of(*orders.get(at)?)
}

// How many of n branches are left behind an order.
fn left_behind(x: u64, n: u32) -> u32
    ensures { result ≡ left_by n (lead_of (order_in x)) }
{
    match lead_of(x) {
        Some(_) => n.saturating_sub(1),
        None => n,
    }
}

// The order behind n branches from an order on, or the end of the orders where there are fewer.
pub fn past_branches(orders: &[u64], at: usize, n: u32) -> usize
    ensures { PastBranches orders.now at n result }
{
    let mut left = n;
    for k in at..orders.len() {
        if left == 0 {
            return k;
        }
        left = left_behind(orders[k], left);
    }
    at.max(orders.len())
}

// ---- the first member of a run

// The furthest that a branch leads before order e: to order m, if not to order a.
#[tactic(auto, unfolding(base::specs::Choice::pick))]
fn further(e: usize, m: u32, a: u32) -> u32
    ensures { result ≡ furthest e m a }
{
    if (a as usize) < e { m.max(a) } else { m }
}

// A member ends with the first branch that no branch up to there leads beyond, other than out of all the orders. Behind order k the
// member goes on, and a branch led to the order that is told at the furthest; or none is told, where it has ended.
fn step_at(orders: &[u64], k: usize, m: u32) -> Option<u32>
    requires { k < length orders.now }
    ensures { result ≡ step_by (length orders.now) m k (lead_at k orders.now) }
{
    let Some((_, a)) = lead_at(orders, k) else {
        return Some(m);
    };
    let far = further(orders.len(), m, a);
    if far as usize <= k + 1 {
        None
    } else {
        Some(far)
    }
}

// The order behind the first member of the run that the orders from p on try, or behind all of them where they are of one comparison.
fn first_member(orders: &[u64], p: usize) -> usize
    ensures { FirstMember orders.now p result }
{
    let mut m = 0;
    for k in p..orders.len() {
        let Some(far) = step_at(orders, k, m) else {
            return k + 1;
        };
        m = far;
    }
    p.max(orders.len())
}

// The answer at which the rest of a run is tried, by where its first member, which ends before order q, leads: the other answer of the
// member is that of the run. Where this falls through, the member leads to the end.
#[tactic(auto, unfolding(base::specs::Choice::pick))]
fn goes_on(orders: &[u64], q: usize, falls: bool) -> bool
    requires { 0 < q }
    ensures { result ≡ goes_on_by falls (length orders.now) (lead_at (q - 1) orders.now) }
{
    match lead_at(orders, q - 1) {
        Some((_, a)) if a as usize == orders.len() => !falls,
        _ => falls,
    }
}

// ---- the fields

// The word that goes on at an answer.
fn word_of(on: bool) -> Joining
    ensures { result ≡ word_of on }
{
    if on { Joining::And } else { Joining::Or }
}

// The relation of a comparison whose branch asks for s, where this answer falls through.
fn related(falls: bool, s: Relation) -> Relation
    ensures { result ≡ leaving falls s }
{
    if falls { opposite_of(s) } else { s }
}

// One comparison, whose fields are put at n: the branch behind it tells the relation.
fn read_comparison(
    orders: &[u64],
    p: usize,
    falls: bool,
    first: u32,
    fields: &mut [u64],
    n: usize,
) -> usize
    ensures { Compared orders.now p falls first fields.old n result fields.new }
{
    let s = read_expression(orders, p, first, first, fields, n);
    let Some((r, _)) = lead_at(orders, s.at) else {
        return s.n;
    };
    put_field(fields, n, Field::Compare(related(falls, r)));
    s.n
}

// A comparison or a run that the orders from p on try, to the end of those lent; its fields are put at n. `falls` is the answer that goes
// on behind them. A run has a branch at least in its first member and one in its rest, so calls are no deeper than there are branches.
pub fn read_condition(
    orders: &[u64],
    p: usize,
    falls: bool,
    first: u32,
    fields: &mut [u64],
    n: usize,
) -> usize
    ensures { Trying orders.now p falls first fields.old n result fields.new }
{
    let q = first_member(orders, p);
    if orders.len() <= q {
        return read_comparison(orders, p, falls, first, fields, n);
    }
    let on = goes_on(orders, q, falls);
    let m = put_field(fields, n, Field::Run(word_of(on), 0));
    let k = read_condition(&orders[..q], p, on, first, fields, m);
    read_condition(orders, q, falls, first, fields, k)
}
