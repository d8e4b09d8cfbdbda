// Operands and operators of an expression, document 01 ("Statements"), from left to right into prefix order. An operator comes
// behind its left operand, so its field is inserted where that operand starts. The expressions round a bracket wait on a stack
// of words, so that a box with little memory can read what is nested as deeply as a statement allows.
#![tactic(auto)]

ghost use Rattle.std.specs.Prelude.{◌≡◌, ◌<◌, ◌≤◌, length};
ghost use Rattle.source.specs.Limits.{most_cells};
ghost use Rattle.grammar_operand.specs.Internal.{begun_at, Inside, Onward, Operates, Links, Closes};

use grammar_lead::{Opened, open};
use grammar_look::{Operand, Tokens};
use grammar_output::{Places, insert, place_for, places_after, places_of, put, word_of};
use sheet::{Field, Operator};
use source::marks::MARK_CLOSE;

// How far an expression is read: the next token, the next field, how many brackets are open, and where operators go.
#[derive(Clone, Copy)]
pub struct Reading {
    pub at: usize,
    pub out: usize,
    pub depth: usize,
    pub places: Places,
}

// Behind what an expression begins with, of which the first field is at place `out`.
pub fn begun(out: usize, o: Opened, depth: usize) -> Reading
    ensures { result ≡ begun_at out o depth }
{
    Reading {
        at: o.at,
        out: o.out,
        depth,
        places: Places {
            low: out,
            middle: o.upper,
            high: o.upper,
        },
    }
}

// An operand: the brackets before it, which are put on the stack, and a name or a constant.
pub fn operand(
    tokens: &Tokens<'_>,
    fields: &mut [u64],
    stack: &mut [u32],
    s: Reading,
) -> Option<Reading>
    requires { Inside tokens.now.count fields.old stack.old s }
    ensures moved { Onward tokens.now.count s result }
    ensures read { Operates tokens.now s fields.old stack.old result
        fields.new stack.new }
{
    let mut t = s;
    loop {
        match tokens.operand_at(t.at)? {
            Operand::Plain(f) => {
                put(fields, t.out, f);
                return Some(Reading {
                    at: t.at + 1,
                    out: t.out + 1,
                    ..t
                });
            }
            Operand::Open => {
                stack[t.depth] = word_of(t.places);
                let o = open(tokens, t.at + 1, fields, t.out);
                t = begun(t.out, o, t.depth + 1);
            }
        }
    }
}

// An operator behind an operand, and the operand behind it.
pub fn linked(
    tokens: &Tokens<'_>,
    fields: &mut [u64],
    stack: &mut [u32],
    s: Reading,
    o: Operator,
) -> Option<Reading>
    requires { Inside tokens.now.count fields.old stack.old s × (s.at < tokens.now.count) }
    ensures moved { Onward tokens.now.count s result }
    ensures read { Links o tokens.now s fields.old stack.old result
        fields.new stack.new }
{
    insert(fields, place_for(s.places, o), s.out, Field::Binary(o));
    let after = Reading {
        at: s.at + 1,
        out: s.out + 1,
        places: places_after(s.places, o, s.out + 1),
        ..s
    };
    operand(tokens, fields, stack, after)
}

// The closing bracket of the last that is open.
pub fn closed(tokens: &Tokens<'_>, stack: &[u32], s: Reading) -> Option<Reading>
    requires { (0 < s.depth) × (s.depth ≤ length stack.now) × (s.at ≤ tokens.now.count) × (tokens.now.count ≤ most_cells) }
    ensures moved { Onward tokens.now.count s result }
    ensures read { Closes tokens.now s stack.now result }
{
    if tokens.mark_at(s.at, MARK_CLOSE) {
        return Some(Reading {
            at: s.at + 1,
            depth: s.depth - 1,
            places: places_of(stack[s.depth - 1]),
            ..s
        });
    }
    None
}
