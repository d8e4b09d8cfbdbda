// How many orders, temporaries and comparisons a statement's instruction has, document 01 ("Translation") and 02, L5, before any order
// is put. The fields of an expression are gone through as in crate translate_expression: a loop along the left, and recursion only
// into right operands that are worked out. Those of what an IF asks are gone through by a loop that counts the conditions yet to come.
#![tactic(auto)]

ghost use Rattle.std.specs.Prelude.{◌+◌, ◌≤◌, ◌<◌, length};
ghost use Rattle.translate_size.specs.Answers.{SizeOf};
ghost use Rattle.translate_size.specs.Internal.{Past, Leaf, Measuring, Stepping, Comparing, Onward, Trying, Asking, Simply, Ifs};

use order::Operation;
use sheet::Field;
use sheet_field::field_at;
use translate_expression::{Step, leaf_at, right_at, right_step, step_at};

// The place behind what was counted, its orders, and the temporaries that it uses.
#[derive(Clone, Copy)]
struct Counted {
    at: usize,
    orders: u32,
    temporaries: u32,
}

// The same of what an IF asks, with its comparisons, and how many conditions are yet to come.
#[derive(Clone, Copy)]
pub struct Asked {
    pub at: usize,
    pub left: usize,
    pub orders: u32,
    pub temporaries: u32,
    pub comparisons: u32,
}

// The orders of a statement, the temporaries that it uses, the instructions that it has in a sheet, and its comparisons.
#[derive(Clone, Copy)]
pub struct Size {
    pub orders: u32,
    pub temporaries: u32,
    pub instructions: u32,
    pub comparisons: u32,
}

// The place behind, where the array has not ended.
pub fn past(fields: &[u64], at: usize) -> usize
    ensures { Past (length fields.now) at result }
{
    if at < fields.len() {
        return at + 1;
    }
    at
}

// The leaf at the end of a run of operators.
fn leaf_size(fields: &[u64], at: usize) -> Counted
    ensures { Leaf fields.now at result }
{
    match right_at(fields, at) {
        Some(_) => Counted {
            at: at + 1,
            orders: 1,
            temporaries: 0,
        },
        None => Counted {
            at,
            orders: 0,
            temporaries: 0,
        },
    }
}

#[cycle(expression_size_step_size)]
fn expression_size(fields: &[u64], at: usize) -> Counted
    ensures { Measuring fields.now at result }
{
    let leaf = leaf_at(fields, at);
    let mut s = leaf_size(fields, leaf);
    for j in (at..leaf).rev() {
        if let Some(step) = step_at(fields, j, s.at) {
            s = step_size(fields, step, s);
        }
    }
    s
}

// A step: one order; or those of a right operand, and STR, STR, LOAD and the operation's own.
#[cycle(expression_size_step_size)]
fn step_size(fields: &[u64], step: Step, s: Counted) -> Counted
    ensures { Stepping fields.now step s result }
{
    match step {
        Step::Put(_, at) => Counted {
            at,
            orders: s.orders.saturating_add(1),
            ..s
        },
        Step::Right(_) => {
            let second = expression_size(fields, s.at);
            let beside = second.temporaries.saturating_add(1).max(2);
            Counted {
                at: second.at,
                orders: s.orders.saturating_add(second.orders).saturating_add(4),
                temporaries: s.temporaries.max(beside),
            }
        }
    }
}

// The comparison whose relation stands at a place, and its branch.
fn comparison_size(fields: &[u64], at: usize) -> Counted
    ensures { Comparing fields.now at result }
{
    let first = expression_size(fields, past(fields, at));
    let step = right_step(fields, Operation::Cmp, first.at);
    let both = step_size(fields, step, first);
    Counted {
        orders: both.orders.saturating_add(1),
        ..both
    }
}

// One more field of what an IF asks. For a run, two conditions are to come instead of one, and so there is one comparison more; any
// other is a comparison's, whose orders are counted.
fn one_more(fields: &[u64], s: Asked) -> Asked
    requires { (0 < s.left) × (s.left ≤ s.at + 1) }
    ensures { Onward fields.now s result }
{
    match field_at(fields, s.at) {
        Field::Run(_, _) => Asked {
            at: past(fields, s.at),
            left: s.left + 1,
            comparisons: s.comparisons.saturating_add(1),
            ..s
        },
        _ => {
            let c = comparison_size(fields, s.at);
            Asked {
                at: c.at,
                left: s.left - 1,
                orders: s.orders.saturating_add(c.orders),
                temporaries: s.temporaries.max(c.temporaries),
                comparisons: s.comparisons,
            }
        }
    }
}

// The comparisons of a condition, with their branches.
pub fn trying_size(fields: &[u64], at: usize) -> Asked
    ensures { Trying fields.now at result }
{
    let mut s = Asked {
        at,
        left: 1,
        orders: 0,
        temporaries: 0,
        comparisons: 1,
    };
    while 0 < s.left {
        s = one_more(fields, s);
    }
    s
}

// What an IF asks: two comparisons or more begin with COND.
pub fn condition_size(fields: &[u64], at: usize) -> Asked
    ensures { Asking fields.now at result }
{
    let c = trying_size(fields, at);
    if c.comparisons <= 1 {
        return c;
    }
    Asked {
        orders: c.orders.saturating_add(1),
        ..c
    }
}

// An instruction that is no IF.
fn simple_size(fields: &[u64], at: usize) -> Counted
    ensures { Simply fields.now at result }
{
    match field_at(fields, at) {
        Field::Goto(_) => Counted {
            at: past(fields, at),
            orders: 1,
            temporaries: 0,
        },
        _ => {
            let e = expression_size(fields, past(fields, at));
            Counted {
                orders: e.orders.saturating_add(1),
                ..e
            }
        }
    }
}

// What stands behind IF: what it asks, START, and where there is more, one instruction, or two and the SKIP between them.
fn if_size(fields: &[u64]) -> Size
    ensures { Ifs fields.now result }
{
    let c = condition_size(fields, 1);
    let p = past(fields, c.at);
    if fields.len() <= p {
        return Size {
            orders: c.orders,
            temporaries: c.temporaries,
            instructions: 1,
            comparisons: c.comparisons,
        };
    }
    let u = simple_size(fields, p);
    let orders = c.orders.saturating_add(u.orders);
    let temporaries = c.temporaries.max(u.temporaries);
    match field_at(fields, u.at) {
        Field::Else => {
            let w = simple_size(fields, past(fields, u.at));
            Size {
                orders: orders.saturating_add(w.orders).saturating_add(1),
                temporaries: temporaries.max(w.temporaries),
                instructions: 3,
                comparisons: c.comparisons,
            }
        }
        _ => Size {
            orders,
            temporaries,
            instructions: 2,
            comparisons: c.comparisons,
        },
    }
}

// The size of the instruction whose fields are lent.
pub fn size_of(fields: &[u64]) -> Size
    ensures { SizeOf fields.now result }
{
    match field_at(fields, 0) {
        Field::If => if_size(fields),
        _ => {
            let u = simple_size(fields, 0);
            Size {
                orders: u.orders,
                temporaries: u.temporaries,
                instructions: 1,
                comparisons: 0,
            }
        }
    }
}
