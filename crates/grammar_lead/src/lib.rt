// What an expression begins with, document 01 ("Statements"), read from the token at place `at` on and written from place
// `out` on.
#![tactic(auto)]

ghost use Rattle.std.specs.Prelude.{◌<◌, ◌≤◌, length};
ghost use Rattle.source.specs.Limits.{most_cells};
ghost use Rattle.grammar_output.specs.Internal.{Ready};
ghost use Rattle.grammar_lead.specs.Internal.{SignedAs, OpenedAs};

use grammar_look::{Lead, Tokens};
use grammar_output::put;
use sheet::Field;

// Behind what an expression begins with: the next token, the next field, and the start of the operands of the upper levels.
#[derive(Clone, Copy)]
pub struct Opened {
    pub at: usize,
    pub upper: usize,
    pub out: usize,
}

// A sign for which a field is written.
fn signed(at: usize, fields: &mut [u64], out: usize, f: Field, upper: usize) -> Opened
    requires { (at < most_cells) × (out ≤ at) × (out < length fields.old) }
    ensures { SignedAs at out upper f fields.old result fields.new }
{
    put(fields, out, f);
    Opened {
        at: at + 1,
        upper,
        out: out + 1,
    }
}

// "An expression may begin with one `+`, `-` or `\`". A minus has the lowest level, so the operands of the others start behind
// it; `\` has the highest.
pub fn open(tokens: &Tokens<'_>, at: usize, fields: &mut [u64], out: usize) -> Opened
    requires { Ready tokens.now.count at out fields.old }
    ensures { OpenedAs tokens.now at out fields.old result fields.new }
{
    match tokens.lead_at(at) {
        Some(Lead::Plus) => Opened {
            at: at + 1,
            upper: out,
            out,
        },
        Some(Lead::Minus) => signed(at, fields, out, Field::Neg, out + 1),
        Some(Lead::Invert) => signed(at, fields, out, Field::Not, out),
        None => Opened {
            at,
            upper: out,
            out,
        },
    }
}
