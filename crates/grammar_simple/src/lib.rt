// The instructions that can be part of an IF, document 01 ("Statements"). Each function reads from the token at place
// `at` on and writes from place `out` on.
#![tactic(auto)]

ghost use Rattle.std.specs.Prelude.{◌≡◌, ◌+◌, ◌<◌};
ghost use Rattle.sheet_field.specs.Memory.{fields_from};
ghost use Rattle.grammar_look.specs.Internal.{ahead};
ghost use Rattle.grammar_output.specs.Internal.{Ready, Moved};
ghost use Rattle.grammar_expression.specs.Internal.{stepped};
ghost use Rattle.grammar_simple.specs.Internal.{set_pass, send_pass, simple_pass};

use grammar_expression::{bracketed, expression};
use grammar_look::{Opening, Tokens};
use grammar_output::{Step, put};
use sheet::Field;

// The expression that is assigned to word w.
fn assigned(tokens: &Tokens<'_>, at: usize, w: u32, fields: &mut [u64], out: usize) -> Option<Step>
    requires { Ready tokens.now.count at out fields.old × (out < at) }
    ensures moved { Moved 1 tokens.now.count at (out + 1) result }
    ensures read { stepped tokens.now result fields.new
        ≡ set_pass w (fields_from 0 out fields.old)
        (ahead tokens.now at) }
{
    put(fields, out, Field::Set(w));
    expression(tokens, at, fields, out + 1)
}

// The expression that is sent, up to its closing bracket.
fn sent(tokens: &Tokens<'_>, at: usize, fields: &mut [u64], out: usize) -> Option<Step>
    requires { Ready tokens.now.count at out fields.old × (out < at) }
    ensures moved { Moved 1 tokens.now.count at (out + 1) result }
    ensures read { stepped tokens.now result fields.new
        ≡ send_pass (fields_from 0 out fields.old)
        (ahead tokens.now at) }
{
    put(fields, out, Field::Send);
    bracketed(tokens, at, fields, out + 1)
}

// "`name = expr`, `SEND(expr)`, `->label`". It has a token more than fields.
pub fn simple(tokens: &Tokens<'_>, at: usize, fields: &mut [u64], out: usize) -> Option<Step>
    requires { Ready tokens.now.count at out fields.old }
    ensures moved { Moved 1 tokens.now.count (at + 1) out result }
    ensures read { stepped tokens.now result fields.new
        ≡ simple_pass (fields_from 0 out fields.old)
        (ahead tokens.now at) }
{
    match tokens.opening_at(at)? {
        Opening::Set(w) => assigned(tokens, at + 2, w, fields, out),
        Opening::Send => sent(tokens, at + 2, fields, out),
        Opening::Goto(l) => {
            put(fields, out, Field::Goto(l));
            Some(Step {
                at: at + 2,
                out: out + 1,
            })
        }
    }
}
