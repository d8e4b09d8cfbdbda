// The members of a condition and the words that join them, 02, L5, from left to right into prefix order. A word comes behind what
// it joins to the next member, so its field is inserted where that begins: what was read so far, or its last member where it is a
// run of that word, since a run is its first member and the rest. The conditions round a bracket wait on a stack of words, so that
// a box with little memory can read what is nested as deeply as a statement allows. Comments in quotes are 02's words.
#![tactic(auto)]

ghost use Rattle.std.specs.Prelude.{◌≡◌, ◌<◌, ◌≤◌, length};
ghost use Rattle.sheet.specs.Condition.{same_word};
ghost use Rattle.source.specs.Limits.{most_cells};
ghost use Rattle.grammar_look.specs.Internal.{ahead};
ghost use Rattle.grammar_member.specs.Internal.{begun_at, code, joining_of, agreed_word, word_behind, is_run_by, top_by, last_by, outward_from};
ghost use Rattle.grammar_member.specs.Internal.{Deep, Opens, Inside, Onward, Adds, Joins, Closes};

use grammar_comparison::{comparison, opens_condition};
use grammar_look::Tokens;
use grammar_output::insert;
use sheet::{Field, Joining};
use source::marks::{MARK_AND, MARK_CLOSE, MARK_OR};

// How far a condition is read: the next token, the next field, how many brackets are open; then of the innermost condition the
// word that joins its members, where its fields begin, the word of which it is a run, and where its last member begins. The last
// two say nothing where a member is to come.
#[derive(Clone, Copy)]
pub struct Reading {
    pub at: usize,
    pub out: usize,
    pub depth: usize,
    pub joined: Option<Joining>,
    pub start: usize,
    pub top: Option<Joining>,
    pub last: usize,
}

// Before the first member of a condition.
pub fn begun(at: usize, out: usize, depth: usize) -> Reading
    ensures { result ≡ begun_at at out depth }
{
    Reading {
        at,
        out,
        depth,
        joined: None,
        start: out,
        top: None,
        last: out,
    }
}

// The number by which the stack holds a word that joins members, or that none does.
fn code_of(joined: Option<Joining>) -> u32
    ensures coded { result ≡ code joined }
    ensures few { result ≤ 2 }
{
    match joined {
        None => 0,
        Some(Joining::And) => 1,
        Some(Joining::Or) => 2,
    }
}

// And back.
fn joining_of(q: u32) -> Option<Joining>
    ensures { result ≡ joining_of q }
{
    match q {
        0 => None,
        1 => Some(Joining::And),
        _ => Some(Joining::Or),
    }
}

// The brackets before a member: the conditions round them are put on the stack.
fn brackets(tokens: &Tokens<'_>, stack: &mut [u32], s: Reading) -> Reading
    requires { Deep tokens.now.count stack.old s }
    ensures { Opens tokens.now s stack.old result stack.new }
{
    let mut t = s;
    while opens_condition(tokens, t.at) {
        stack[t.depth] = t.start as u32 * 4 + code_of(t.joined);
        t = begun(t.at + 1, t.out, t.depth + 1);
    }
    t
}

// A member: the brackets before it, and a comparison.
pub fn member(
    tokens: &Tokens<'_>,
    fields: &mut [u64],
    stack: &mut [u32],
    s: Reading,
) -> Option<Reading>
    requires { Inside tokens.now.count fields.old stack.old s }
    ensures moved { Onward tokens.now.count s result }
    ensures read { Adds tokens.now s fields.old stack.old
        result fields.new stack.new }
{
    let t = brackets(tokens, stack, s);
    let compared = comparison(tokens, t.at, fields, t.out)?;
    Some(Reading {
        at: compared.at,
        out: compared.out,
        top: t.joined,
        last: t.out,
        ..t
    })
}

fn same_word(v: Joining, w: Joining) -> bool
    ensures { result ≡ same_word v w }
{
    matches!(
        (v, w),
        (Joining::And, Joining::And) | (Joining::Or, Joining::Or)
    )
}

// "Mixing the two without brackets is refusal 7": the word w, if it may stand behind members that another joins.
fn agreed(joined: Option<Joining>, w: Joining) -> Option<Joining>
    ensures { result ≡ agreed_word joined w }
{
    match joined {
        Some(v) if !same_word(v, w) => None,
        _ => Some(w),
    }
}

// The word at a place that joins another member to those that the word `joined` joins.
pub fn word_behind(tokens: &Tokens<'_>, at: usize, joined: Option<Joining>) -> Option<Joining>
    ensures { result ≡ word_behind joined (ahead tokens.now at) }
{
    if tokens.mark_at(at, MARK_AND) {
        return agreed(joined, Joining::And);
    }
    if tokens.mark_at(at, MARK_OR) {
        return agreed(joined, Joining::Or);
    }
    None
}

// The word of which a condition is a run, where the one that is read is the last member of it, behind the word w.
fn top_by(w: Option<Joining>, s: Reading) -> Option<Joining>
    ensures { result ≡ top_by w s }
{
    w.or(s.top)
}

// Whether a condition of which `top` is the word is a run of w.
fn is_run_by(w: Joining, top: Option<Joining>) -> bool
    ensures { result ≡ is_run_by w top }
{
    match top {
        Some(u) => same_word(w, u),
        None => false,
    }
}

// Where the last member of that condition begins. "A sheet, by its definition, merges nested runs of the same joining word": it is
// that of the one that is read, if this is a run of w; else it is the one that is read.
fn last_by(w: Option<Joining>, s: Reading) -> usize
    ensures { result ≡ last_by w s }
{
    match w {
        Some(w) if !is_run_by(w, s.top) => s.start,
        _ => s.last,
    }
}

// A word behind a member, and the member behind it.
pub fn joined(
    tokens: &Tokens<'_>,
    fields: &mut [u64],
    stack: &mut [u32],
    s: Reading,
    w: Joining,
) -> Option<Reading>
    requires { Inside tokens.now.count fields.old stack.old s × (s.at < tokens.now.count) }
    ensures moved { Onward tokens.now.count s result }
    ensures read { Joins w tokens.now s fields.old stack.old
        result fields.new stack.new }
{
    insert(fields, last_by(Some(w), s), s.out, Field::Run(w, 0));
    let after = Reading {
        at: s.at + 1,
        out: s.out + 1,
        joined: Some(w),
        top: Some(w),
        last: s.start,
        ..s
    };
    member(tokens, fields, stack, after)
}

// Behind a closing bracket: what is read is a member of the condition round it, which the word w of the stack holds.
fn outward(s: Reading, w: u32) -> Reading
    requires { (0 < s.depth) × (s.at < most_cells) }
    ensures { result ≡ outward_from s w }
{
    let joined = joining_of(w % 4);
    Reading {
        at: s.at + 1,
        out: s.out,
        depth: s.depth - 1,
        joined,
        start: w as usize / 4,
        top: top_by(joined, s),
        last: last_by(joined, s),
    }
}

// The closing bracket of the last that is open.
pub fn closed(tokens: &Tokens<'_>, stack: &[u32], s: Reading) -> Option<Reading>
    requires { (0 < s.depth) × (s.depth ≤ length stack.now) × (s.at ≤ tokens.now.count) × (tokens.now.count ≤ most_cells) }
    ensures moved { Onward tokens.now.count s result }
    ensures read { Closes tokens.now s stack.now result }
{
    if tokens.mark_at(s.at, MARK_CLOSE) {
        return Some(outward(s, stack[s.depth - 1]));
    }
    None
}
