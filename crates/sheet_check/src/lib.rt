// Whether fields are those of a sheet: one pass, field by field. The limits of variables, temporaries and orders are not looked at here.
#![tactic(auto)]

ghost use Rattle.std.specs.Prelude.{◌+◌, ◌≤◌, ◌<◌, ◌≡◌, length};
ghost use Rattle.sheet.specs.ReadBack.{is_variable};
ghost use Rattle.sheet_field.specs.Memory.{fields_at, most_fields};
ghost use Rattle.order.specs.Limits.{most_variables};
ghost use Rattle.sheet_check.specs.Internal.{begins, begun, with_values, value_step, leads_to, among as among_of, instructed as instructed_of, else_step, finish_step};
ghost use Rattle.sheet_check.specs.Internal.{instruction_step, asked as asked_of, compared as compared_of, compare_step, may_join, first_of, run_step, condition_step};
ghost use Rattle.sheet_check.specs.Internal.{opened as opened_of, start_step, step_of, is_final, start, accepts};
ghost use Rattle.sheet_check.specs.Answers.{Checks};

use order::MOST_VARIABLES;
use sheet::{Field, Joining};
use sheet_field::{MOST_COMPARISONS, MOST_FIELDS, MOST_LEVELS, field_in};

// `greatest_number` of text/specs/Pieces.antt.
const GREATEST_NUMBER: u32 = text::GREATEST_NUMBER as u32;

// What must come next, where no expression is left to come: an instruction or the end of a part; START; a condition; or one that is
// no run of AND, or of OR.
#[derive(Clone, Copy)]
pub enum Next {
    Instruction,
    Start,
    Condition,
    NoAnd,
    NoOr,
}

// How far the fields were read: how many expressions must come before what is next; how many groups are open; which of them are second
// parts, as the digits of a binary number, the innermost last; how many conditions must come beside the one that is next; how many
// comparisons the IF may still have; what is next; and whether the innermost group has an instruction. The two single bytes stand
// last, so that there is no gap to be copied with the rest.
#[derive(Clone, Copy)]
pub struct State {
    pub values: u32,
    pub groups: u32,
    pub seconds: u32,
    pub conditions: u32,
    pub room: u32,
    pub next: Next,
    pub some: bool,
}

// ---- what a field is

// Whether an instruction begins with a field.
fn begins(f: Field) -> bool
    ensures { result ≡ begins f }
{
    matches!(f, Field::If | Field::Send | Field::Set(_) | Field::Goto(_))
}

// How many instructions begin among fields.
fn count(fields: &[u64]) -> u32
    requires { length fields.now ≤ most_fields }
    ensures { result ≡ begun (fields_at 0 fields.now) }
{
    let mut n = 0;
    for &w in fields {
        n += u32::from(begins(field_in(w)));
    }
    n
}

#[tactic(auto, unfolding(base::specs::Choice::pick))]
fn is_variable(w: u32, v: u32) -> bool
    requires { v ≤ most_variables }
    ensures { result ≡ is_variable v w }
{
    2 <= w && w < v + 2
}

// Whether s is the number of one of n instructions, or one past the last.
#[tactic(auto, unfolding(base::specs::Choice::pick))]
fn leads_to(n: u32, s: u32) -> bool
    requires { n ≤ most_fields }
    ensures { result ≡ leads_to n s }
{
    1 <= s && s <= n + 1
}

// ---- what a field does

fn with_values(s: State, k: u32) -> State
    ensures { result ≡ with_values s k }
{
    State { values: k, ..s }
}

// A place among instructions, k expressions before it.
fn among(k: u32, groups: u32, seconds: u32, some: bool) -> State
    ensures { result ≡ among_of k groups seconds some }
{
    State {
        values: k,
        groups,
        seconds,
        conditions: 0,
        room: 0,
        next: Next::Instruction,
        some,
    }
}

// An instruction that is no IF and that k expressions follow.
fn instructed(s: State, k: u32) -> State
    ensures { result ≡ instructed_of s k }
{
    among(k, s.groups, s.seconds, true)
}

// An IF.
fn asked(s: State) -> State
    ensures { result ≡ asked_of s }
{
    State {
        values: 0,
        conditions: 0,
        room: MOST_COMPARISONS,
        next: Next::Condition,
        some: true,
        ..s
    }
}

// What comes of a field where an expression must come: the state behind it, or none, where no sheet goes on with it. The steps below
// answer so too.
#[tactic(auto, unfolding(base::specs::Choice::pick))]
fn value_step(s: State, f: Field, v: u32) -> Option<State>
    requires { (1 ≤ s.values) × (s.values < 4294967295) × (v ≤ most_variables) }
    ensures { result ≡ value_step v s f }
{
    match f {
        Field::Neg | Field::Not => Some(s),
        Field::Binary(_) => Some(with_values(s, s.values + 1)),
        Field::Word(w) if is_variable(w, v) => Some(with_values(s, s.values - 1)),
        Field::Constant(n) if n <= GREATEST_NUMBER => Some(with_values(s, s.values - 1)),
        _ => None,
    }
}

// ELSE closes a first part that is not empty.
#[tactic(auto, unfolding(crate::specs::Internal::else_step, base::specs::Choice::pick))]
fn else_step(s: State) -> Option<State>
    requires { s.seconds < 4294967295 }
    ensures { result ≡ else_step s }
{
    if s.groups == 0 || s.seconds % 2 == 1 || !s.some {
        return None;
    }
    Some(among(0, s.groups, s.seconds + 1, false))
}

// FINISH closes a part that is not empty.
#[tactic(auto, unfolding(crate::specs::Internal::finish_step, base::specs::Choice::pick))]
fn finish_step(s: State) -> Option<State>
    ensures { result ≡ finish_step s }
{
    if s.groups == 0 || !s.some {
        return None;
    }
    Some(among(0, s.groups - 1, s.seconds / 2, true))
}

// A field where an instruction or the end of a part must come.
#[tactic(auto, unfolding(base::specs::Choice::pick))]
fn instruction_step(s: State, f: Field, v: u32, n: u32) -> Option<State>
    requires { (s.seconds < 4294967295) × (v ≤ most_variables) × (n ≤ most_fields) }
    ensures { result ≡ instruction_step v n s f }
{
    match f {
        Field::Else => else_step(s),
        Field::Finish => finish_step(s),
        Field::If => Some(asked(s)),
        Field::Send => Some(instructed(s, 1)),
        Field::Set(w) if is_variable(w, v) => Some(instructed(s, 1)),
        Field::Goto(k) if leads_to(n, k) => Some(instructed(s, 0)),
        _ => None,
    }
}

// A comparison, which two expressions follow, then what is next, and m conditions beside that.
fn compared(s: State, m: u32, next: Next) -> State
    requires { 1 ≤ s.room }
    ensures { result ≡ compared_of s m next }
{
    State {
        values: 2,
        conditions: m,
        room: s.room - 1,
        next,
        ..s
    }
}

// A comparison where a condition must come.
#[tactic(auto, unfolding(crate::specs::Internal::compare_step, base::specs::Choice::pick))]
fn compare_step(s: State) -> Option<State>
    ensures { result ≡ compare_step s }
{
    if s.room == 0 {
        return None;
    }
    if s.conditions == 0 {
        return Some(compared(s, 0, Next::Start));
    }
    Some(compared(s, s.conditions - 1, Next::Condition))
}

// Whether a run of a word may come.
fn may_join(next: Next, w: Joining) -> bool
    ensures { result ≡ may_join next w }
{
    match next {
        Next::Instruction | Next::Start => false,
        Next::Condition => true,
        Next::NoAnd => matches!(w, Joining::Or),
        Next::NoOr => matches!(w, Joining::And),
    }
}

// What comes behind the word of a run: its first member, which is no run of that word.
fn first_of(w: Joining) -> Next
    ensures { result ≡ first_of w }
{
    match w {
        Joining::And => Next::NoAnd,
        Joining::Or => Next::NoOr,
    }
}

// A run where a condition must come.
#[tactic(auto, unfolding(crate::specs::Internal::run_step, base::specs::Choice::pick))]
fn run_step(s: State, w: Joining, n: u32) -> Option<State>
    requires { s.conditions < 4294967295 }
    ensures { result ≡ run_step s w n }
{
    if n != 0 || !may_join(s.next, w) {
        return None;
    }
    Some(State {
        values: 0,
        conditions: s.conditions + 1,
        next: first_of(w),
        ..s
    })
}

// A field where a condition must come.
fn condition_step(s: State, f: Field) -> Option<State>
    requires { s.conditions < 4294967295 }
    ensures { result ≡ condition_step s f }
{
    match f {
        Field::Compare(_) => compare_step(s),
        Field::Run(w, n) => run_step(s, w, n),
        _ => None,
    }
}

// START opens a group, at most MOST_LEVELS deep.
#[tactic(auto, unfolding(crate::specs::Internal::opened, base::specs::Choice::pick))]
fn opened(s: State) -> Option<State>
    requires { s.seconds < 2147483648 }
    ensures { result ≡ opened_of s }
{
    if s.groups < MOST_LEVELS {
        Some(among(0, s.groups + 1, 2 * s.seconds, false))
    } else {
        None
    }
}

// A field where START must come.
fn start_step(s: State, f: Field) -> Option<State>
    requires { s.seconds < 2147483648 }
    ensures { result ≡ start_step s f }
{
    match f {
        Field::Start => opened(s),
        _ => None,
    }
}

// Any field.
#[tactic(auto, unfolding(crate::specs::Internal::step_of, base::specs::Choice::pick))]
fn one_step(s: State, f: Field, v: u32, n: u32) -> Option<State>
    requires { (s.values < 4294967295) × (s.seconds < 2147483648) × (s.conditions < 4294967295) × (v ≤ most_variables) × (n ≤ most_fields) }
    ensures { result ≡ step_of v n s f }
{
    if s.values != 0 {
        return value_step(s, f, v);
    }
    match s.next {
        Next::Instruction => instruction_step(s, f, v, n),
        Next::Start => start_step(s, f),
        Next::Condition | Next::NoAnd | Next::NoOr => condition_step(s, f),
    }
}

// Whether a sheet can end in a state.
#[tactic(auto, unfolding(crate::specs::Internal::is_final, base::specs::Choice::pick))]
fn is_final(s: State) -> bool
    ensures { result ≡ is_final s }
{
    s.values == 0 && s.groups == 0 && matches!(s.next, Next::Instruction)
}

// Whether the fields are accepted from the beginning, as those of n instructions.
fn accepted(fields: &[u64], v: u32, n: u32) -> bool
    requires { (length fields.now ≤ most_fields) × (v ≤ most_variables) × (n ≤ most_fields) }
    ensures { result ≡ accepts v n start (fields_at 0 fields.now) }
{
    let mut s = among(0, 0, 0, false);
    for &w in fields {
        let Some(t) = one_step(s, field_in(w), v, n) else {
            return false;
        };
        s = t;
    }
    is_final(s)
}

// Of how many instructions the sheet with V variables is whose fields these are; or that they are of none.
pub fn check(fields: &[u64], v: u32) -> Option<u32>
    ensures { Checks fields.now v result }
{
    if MOST_FIELDS < fields.len() || MOST_VARIABLES < v {
        return None;
    }
    let n = count(fields);
    if accepted(fields, v, n) {
        Some(n)
    } else {
        None
    }
}
