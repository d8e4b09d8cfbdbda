// From the orders of a sheet, document 01 ("Translation") and 02, L1 and L5, back to its fields: right where the orders are a translation.
// Crate untranslate checks the fields that come out, translates them again and compares.
#![tactic(auto)]

ghost use Rattle.std.specs.Prelude.{true, ◌≡◌, ◌≤◌, ◌<◌, ◌-◌, length, get_or};
ghost use Rattle.std.proofs.lemmas.List.Edits.{sets};
ghost use Rattle.order.specs.Limits.{most_orders};
ghost use Rattle.order.specs.Memory.{orders_in};
ghost use Rattle.untranslate_part.specs.Internal.{role_of, role_at, ends_by, inner_by, number_behind, numbers, parts_of};
ghost use Rattle.untranslate_part.specs.Internal.{IfPut, Chained, Joined, Beginning, Parting, Grouping, Choosing, Turning};
ghost use Rattle.untranslate_part.specs.Guess.{Guessing, TryGuessing};

use order::Order;
use order_number::order_in;
use sheet::Field;
use sheet_field::{MOST_COMPARISONS, MOST_LEVELS, opposite_of};
use untranslate_condition::{lead_at, past_branches, read_condition};
use untranslate_expression::{Spot, order_at, past, put_field, read_expression};
use word::Relation;

// `most_orders` of order's specs/Limits.antt.
const MOST_ORDERS: usize = order::MOST_ORDERS as usize;

// What an order is to the instructions: inside one; the last of one with an expression, whose first field is told; a jump, a branch,
// COND, a SKIP, STOP.
#[derive(Clone, Copy)]
pub enum Role {
    Inside,
    Last(Field),
    Goto(u32),
    Branch(Relation, u32),
    Cond(u32),
    Skip(u32),
    Stop,
}

// How an instruction begins: it is whole, and these are the places behind it; or it is an IF, whose branch leads to an order, and these
// are the places behind the branch.
#[derive(Clone, Copy)]
pub enum Begun {
    Whole(Spot),
    Asked(Spot, u32),
}

// The parts of an IF: one, which ends before an order; or two, where the first ends before an order, and the second begins with an order
// and ends before another.
#[derive(Clone, Copy)]
pub enum Parts {
    One(usize),
    Two {
        first_end: usize,
        second: usize,
        second_end: usize,
    },
}

// `first` is the word of the first temporary.
#[tactic(auto, unfolding(base::specs::Choice::pick))]
fn role_of(o: Order, first: u32) -> Role
    ensures { result ≡ role_of first o }
{
    match o {
        Order::Store(w) if w < first => Role::Last(Field::Set(w)),
        Order::Word(_, _) | Order::Number(_, _) | Order::Store(_) | Order::Neg | Order::Not => {
            Role::Inside
        }
        Order::Jump(a) => Role::Goto(a),
        Order::Skip(a) => Role::Skip(a),
        Order::Branch(s, a) => Role::Branch(s, a),
        Order::Cond(n) => Role::Cond(n),
        Order::Send => Role::Last(Field::Send),
        Order::Stop => Role::Stop,
    }
}

fn role_at(orders: &[u64], at: usize, first: u32) -> Role
    ensures { result ≡ role_at first at orders.now }
{
    role_of(order_at(orders, at), first)
}

// ---- the numbers of instructions

// How many branches are yet to come behind an order that do not end their IF, where there were k before it: COND has the number of all
// the branches of its IF.
fn inner(q: Role, k: u32) -> u32
    ensures { result ≡ inner_by k q }
{
    match q {
        Role::Branch(_, _) => k.saturating_sub(1),
        Role::Cond(n) => n.saturating_sub(1),
        _ => k,
    }
}

// Whether an instruction begins behind an order, if that is an instruction's, where k branches were yet to come that do not end their
// IF.
fn ends(q: Role, k: u32) -> bool
    ensures { result ≡ ends_by k q }
{
    match q {
        Role::Last(_) | Role::Goto(_) | Role::Skip(_) => true,
        Role::Branch(_, _) => k == 0,
        Role::Inside | Role::Cond(_) | Role::Stop => false,
    }
}

// The number of the next instruction behind an order, where n is that before it.
#[tactic(auto, unfolding(base::specs::Choice::pick))]
fn number_behind(here: bool, q: Role, n: u32) -> u32
    requires { n < 4294967295 }
    ensures { result ≡ number_behind here q n }
{
    if here && !matches!(q, Role::Skip(_) | Role::Stop) {
        n + 1
    } else {
        n
    }
}

// For each order the number of the instruction that begins with it, or of the next that begins; for STOP one past the last.
fn number_all(orders: &[u64], first: u32, table: &mut [u32])
    requires few { length orders.now ≤ most_orders }
    requires room { length orders.now ≤ length table.old }
    ensures { table.new ≡ sets table.old 0 (numbers first true 0 1 (orders_in orders.now)) }
{
    let mut here = true;
    let mut k = 0;
    let mut n = 1;
    for (i, &w) in orders.iter().enumerate() {
        table[i] = n;
        let q = role_of(order_in(w), first);
        n = number_behind(here, q, n);
        here = ends(q, k);
        k = inner(q, k);
    }
}

// ---- an expression or one comparison, and the order behind it

// IF and the relation, which is the opposite of the branch's.
fn put_if(fields: &mut [u64], n: usize, s: Relation)
    ensures { IfPut s n fields.old fields.new }
{
    let m = put_field(fields, n, Field::If);
    put_field(fields, m, Field::Compare(opposite_of(s)));
}

// An instruction that begins with an expression, or an IF: the expression or the comparison is read to the places behind the first
// field, which the order behind tells.
fn read_chain(orders: &[u64], first: u32, fields: &mut [u64], s: Spot) -> Option<Begun>
    requires { s.n < length fields.old }
    ensures { Chained orders.now first s fields.old result fields.new }
{
    let n = s.n;
    let e = read_expression(orders, s.at, first, first, fields, n + 1);
    let at = e.at;
    match role_at(orders, at, first) {
        Role::Last(f) => {
            put_field(fields, n, f);
            Some(Begun::Whole(Spot {
                at: past(orders, at),
                n: e.n,
            }))
        }
        Role::Branch(r, a) => {
            put_if(fields, n, r);
            let behind = Spot {
                at: past(orders, at),
                n: e.n,
            };
            Some(Begun::Asked(behind, a))
        }
        _ => None,
    }
}

// ---- a joined condition

// An IF that begins with COND, "whose number is the count of comparisons", to behind its last branch. The orders that are lent on end
// there, so that none is read for a comparison of this IF and again for an instruction behind it.
fn read_joined(orders: &[u64], first: u32, fields: &mut [u64], s: Spot, many: u32) -> Option<Begun>
    requires { s.at < length orders.now }
    ensures { Joined orders.now first s many fields.old result fields.new }
{
    if MOST_COMPARISONS < many {
        return None;
    }
    let p = s.at + 1;
    let e = past_branches(orders, p, many);
    let (_, d) = lead_at(orders, e - 1)?;
    let n = put_field(fields, s.n, Field::If);
    let m = read_condition(&orders[..e], p, true, first, fields, n);
    Some(Begun::Asked(Spot { at: e, n: m }, d))
}

// ---- an instruction by its first order

// An instruction that is no IF, or an IF with what it asks.
fn begin(orders: &[u64], table: &[u32], first: u32, fields: &mut [u64], s: Spot) -> Option<Begun>
    ensures { Beginning orders.now table.now first s fields.old result fields.new }
{
    let Spot { at, n } = s;
    if fields.len() <= n {
        return None;
    }
    match role_at(orders, at, first) {
        Role::Inside => read_chain(orders, first, fields, s),
        Role::Goto(a) => {
            let m = put_field(fields, n, Field::Goto(base::at(table, a as usize, 0)));
            Some(Begun::Whole(Spot {
                at: past(orders, at),
                n: m,
            }))
        }
        Role::Cond(many) => read_joined(orders, first, fields, s, many),
        _ => None,
    }
}

// ---- instructions

// The parts of an IF whose first part begins with order `at` and whose branch leads to order `to`, among the orders before `end`. The
// order before `to` is a SKIP exactly where there is a second part. Each order is read once: where the branch or the SKIP leads back,
// or out, there is no sheet.
#[tactic(auto, unfolding(base::specs::Choice::pick))]
fn parts_at(orders: &[u64], at: usize, to: usize, end: usize, first: u32) -> Option<Parts>
    ensures { result ≡ parts_of at to end (role_at first (to - 1) orders.now) }
{
    if to <= at || end < to {
        return None;
    }
    match role_at(orders, to - 1, first) {
        Role::Skip(z) => {
            let second_end = z as usize;
            if second_end <= to || end < second_end {
                return None;
            }
            Some(Parts::Two {
                first_end: to - 1,
                second: to,
                second_end,
            })
        }
        _ => Some(Parts::One(to)),
    }
}

// The instructions of the orders from `at` to before `end`, with IFs at most `deep` deep; their fields are put at n.
#[cycle(read_group_read_if_read_one_read_part)]
fn read_part(
    orders: &[u64],
    table: &[u32],
    at: usize,
    end: usize,
    first: u32,
    deep: u32,
    fields: &mut [u64],
    n: usize,
) -> usize
    ensures { Parting orders.now table.now at end first deep fields.old n result fields.new }
{
    let mut s = Spot { at, n };
    while s.at < end {
        let Some(r) = read_one(orders, table, end, first, deep, fields, s) else {
            return s.n;
        };
        s = r;
    }
    s.n
}

// One instruction: the places behind it; or none, where no instruction is read.
#[cycle(read_group_read_if_read_one_read_part)]
fn read_one(
    orders: &[u64],
    table: &[u32],
    end: usize,
    first: u32,
    deep: u32,
    fields: &mut [u64],
    s: Spot,
) -> Option<Spot>
    ensures { Turning orders.now table.now end first deep s fields.old result fields.new }
{
    match begin(orders, table, first, fields, s)? {
        Begun::Whole(r) => Some(r),
        Begun::Asked(b, a) => read_if(orders, table, b, a, end, first, deep, fields),
    }
}

// The parts of an IF, of which the first begins with order b.at: the places behind them; or none, where they are not read.
#[cycle(read_group_read_if_read_one_read_part)]
fn read_if(
    orders: &[u64],
    table: &[u32],
    b: Spot,
    to: u32,
    end: usize,
    first: u32,
    deep: u32,
    fields: &mut [u64],
) -> Option<Spot>
    ensures { Choosing orders.now table.now b to end first deep fields.old result fields.new }
{
    if deep == 0 {
        return None;
    }
    let Spot { at, n } = b;
    let inner = deep - 1;
    match parts_at(orders, at, to as usize, end, first)? {
        Parts::One(q) => {
            let x = read_group(orders, table, at, q, first, inner, fields, n, Field::Start);
            let m = put_field(fields, x, Field::Finish);
            Some(Spot { at: q, n: m })
        }
        Parts::Two {
            first_end: q,
            second: p,
            second_end: z,
        } => {
            let x = read_group(orders, table, at, q, first, inner, fields, n, Field::Start);
            let y = read_group(orders, table, p, z, first, inner, fields, x, Field::Else);
            let m = put_field(fields, y, Field::Finish);
            Some(Spot { at: z, n: m })
        }
    }
}

// A part behind a field that opens it: START or ELSE.
#[cycle(read_group_read_if_read_one_read_part)]
fn read_group(
    orders: &[u64],
    table: &[u32],
    at: usize,
    end: usize,
    first: u32,
    deep: u32,
    fields: &mut [u64],
    n: usize,
    mark: Field,
) -> usize
    ensures { Grouping orders.now table.now at end first deep mark fields.old n result fields.new }
{
    let m = put_field(fields, n, mark);
    read_part(orders, table, at, end, first, deep, fields, m)
}

// The fields of the sheet with v variables whose translation the orders are, put at the front of the array: how many they are; or
// none, where there are too many variables or orders, or no order, so that no sheet has them.
pub fn try_guess(orders: &[u64], v: u32, fields: &mut [u64]) -> Option<usize>
    ensures { TryGuessing orders.now v fields.old result fields.new }
{
    if order::MOST_VARIABLES < v || MOST_ORDERS < orders.len() || orders.is_empty() {
        return None;
    }
    let first = v + 2;
    let last = orders.len() - 1;
    let mut table = [0; MOST_ORDERS];
    number_all(orders, first, &mut table);
    Some(read_part(orders, &table, 0, last, first, MOST_LEVELS, fields, 0))
}

// The same, and 0 fields where no sheet has the orders.
pub fn guess(orders: &[u64], v: u32, fields: &mut [u64]) -> usize
    ensures { Guessing orders.now v fields.old result fields.new }
{
    try_guess(orders, v, fields).unwrap_or(0)
}
