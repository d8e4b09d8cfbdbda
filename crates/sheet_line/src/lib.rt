// From the fields of a sheet in memory to those of its lines. Memory has a run's word again before each of its members but the last;
// in a line it stands once, before the first, with the number of the members.
#![tactic(auto)]

ghost use Rattle.std.specs.Prelude.{◌≡◌, ◌+◌, ◌≤◌, ◌<◌, length, get_or};
ghost use Rattle.sheet.specs.Condition.{same_word};
ghost use Rattle.sheet_field.specs.Memory.{field_in, fields_at};
ghost use Rattle.sheet_line.specs.Runs.{node_of, back_step, is_rest, member_step, members_from, line_field};
ghost use Rattle.sheet_line.specs.Answers.{before, shown};

use sheet::{Field, Joining};
use sheet_field::field_word;
use std::ops::ControlFlow;

// A field as a part of a condition: a comparison, the word of a run, or neither; and IF, which stands before the condition.
#[derive(Clone, Copy)]
pub enum Node {
    Comparison,
    Run(Joining),
    If,
    Other,
}

// How far a run was gone over: so many conditions must come beside the next, and so many members are known of.
#[derive(Clone, Copy)]
pub struct Count {
    pub more: usize,
    pub members: u32,
}

// What the field that a number stands for is to a condition, by the number of its kind (`kind` of sheet_field's specs/Memory.antt).
#[tactic(auto, using(crate::proofs::Scans::node_told), unfolding(base::specs::Choice::pick))]
fn node_in(w: u64) -> Node
    ensures { result ≡ node_of (field_in w) }
{
    match w / 4294967296 {
        3 => Node::If,
        17..=22 => Node::Comparison,
        27 => Node::Run(Joining::And),
        28 => Node::Run(Joining::Or),
        _ => Node::Other,
    }
}

fn same_word(u: Joining, w: Joining) -> bool
    ensures { result ≡ same_word u w }
{
    matches!(
        (u, w),
        (Joining::And, Joining::And) | (Joining::Or, Joining::Or)
    )
}

// A field before a run of the word w, where k whole conditions stand between the two: back goes on with so many of them, or ends with
// whether the run is the rest of one of its own word. Where the field is the word of a run itself, that run takes the first two of the
// conditions; or the one that there is, and then the run of w is its rest.
#[tactic(auto, unfolding(base::specs::Choice::pick))]
fn back_step(n: Node, k: usize, w: Joining) -> ControlFlow<bool, usize>
    requires { k < 18446744073709551615 }
    ensures { result ≡ back_step n k w }
{
    match n {
        Node::Comparison => ControlFlow::Continue(k + 1),
        Node::Run(u) => match k {
            0 => ControlFlow::Break(false),
            1 => ControlFlow::Break(same_word(u, w)),
            _ => ControlFlow::Continue(k - 1),
        },
        Node::If => ControlFlow::Break(false),
        Node::Other => ControlFlow::Continue(k),
    }
}

// Whether the run of the word w at a place is the rest of a run of w.
fn is_rest(fields: &[u64], at: usize, w: Joining) -> bool
    ensures { result ≡ is_rest w 0 (before at fields.now) }
{
    let mut k = 0;
    for i in (0..at).rev() {
        match back_step(node_in(base::at(fields, i, 0)), k, w) {
            ControlFlow::Continue(j) => k = j,
            ControlFlow::Break(answer) => return answer,
        }
    }
    false
}

// A field of a run of the word w, where it was gone over so far; or none, where there are no more members. Where no condition must
// come beside the next, the next is the rest, which stands for one member more where it is a run of w itself; as far as a field can
// carry the number.
#[tactic(auto, unfolding(base::specs::Choice::pick, crate::specs::Runs::one_more))]
fn member_step(n: Node, c: Count, w: Joining) -> Option<Count>
    requires { c.more < 18446744073709551615 }
    ensures { result ≡ member_step n c.more c.members w }
{
    let Count { more, members } = c;
    match n {
        Node::Comparison if more == 0 => None,
        Node::Comparison => Some(Count {
            more: more - 1,
            members,
        }),
        Node::Run(_) if more != 0 => Some(Count {
            more: more + 1,
            members,
        }),
        Node::Run(u) if same_word(w, u) => Some(Count {
            more: 1,
            members: members.saturating_add(1),
        }),
        Node::Run(_) => None,
        Node::If | Node::Other => Some(c),
    }
}

// How many members the run of the word w has whose first member begins at a place.
fn member_count(fields: &[u64], at: usize, w: Joining) -> u32
    requires { 1 ≤ at }
    ensures { result ≡ members_from w 1 2 (fields_at at fields.now) }
{
    let mut run = Count {
        more: 1,
        members: 2,
    };
    for i in at..fields.len() {
        let Some(further) = member_step(node_in(fields[i]), run, w) else {
            break;
        };
        run = further;
    }
    run.members
}

// What is written of the field at a place, as the number that stands for it: of a run with the number of its members, and nothing of
// the word of the rest of one.
pub fn shown_at(fields: &[u64], at: usize) -> Option<u64>
    requires { at < length fields.now }
    ensures { shown result ≡ line_field (before at fields.now) (field_in (get_or fields.now at 0)) (fields_at (at + 1) fields.now) }
{
    let w = fields[at];
    let Node::Run(u) = node_in(w) else {
        return Some(w);
    };
    if is_rest(fields, at, u) {
        return None;
    }
    Some(field_word(Field::Run(u, member_count(fields, at + 1, u))))
}
