// Expressions, document 01 ("Statements"), from left to right into prefix order. Each function reads from the token at place
// `at` on and writes from place `out` on.
#![tactic(auto)]

ghost use Rattle.std.specs.Prelude.{◌≡◌};
ghost use Rattle.sheet.specs.Fields.{expression_fields};
ghost use Rattle.sheet_field.specs.Memory.{fields_from};
ghost use Rattle.source.specs.Grammar.{expression as expression_read};
ghost use Rattle.grammar_look.specs.Internal.{ahead};
ghost use Rattle.grammar_output.specs.Internal.{written, Ready, Moved};
ghost use Rattle.grammar_operand.specs.Internal.{bracketed_by};
ghost use Rattle.grammar_expression.specs.Internal.{stepped, expression_pass};

use grammar_lead::open;
use grammar_look::Tokens;
use grammar_operand::{begun, closed, linked, operand};
use grammar_output::Step;
use source::MOST_CELLS;
use source::marks::MARK_CLOSE;

// An expression, with the brackets that it has open in an array of its own.
pub fn expression(tokens: &Tokens<'_>, at: usize, fields: &mut [u64], out: usize) -> Option<Step>
    requires { Ready tokens.now.count at out fields.old }
    ensures moved { Moved 1 tokens.now.count at out result }
    ensures read { stepped tokens.now result fields.new
        ≡ expression_pass (fields_from 0 out fields.old) (ahead tokens.now at) }
{
    let mut stack = [0u32; MOST_CELLS];
    let o = open(tokens, at, fields, out);
    let mut s = operand(tokens, fields, &mut stack, begun(out, o, 0))?;
    loop {
        s = match tokens.link_at(s.at) {
            Some(o) => linked(tokens, fields, &mut stack, s, o)?,
            None if s.depth == 0 => {
                return Some(Step {
                    at: s.at,
                    out: s.out,
                });
            }
            None => closed(tokens, &stack, s)?,
        };
    }
}

// An expression and the closing bracket behind it.
pub fn bracketed(tokens: &Tokens<'_>, at: usize, fields: &mut [u64], out: usize) -> Option<Step>
    requires { Ready tokens.now.count at out fields.old }
    ensures moved { Moved 2 tokens.now.count at out result }
    ensures read { stepped tokens.now result fields.new
        ≡ written expression_fields (fields_from 0 out fields.old)
        (bracketed_by expression_read (ahead tokens.now at)) }
{
    let inner = expression(tokens, at, fields, out)?;
    if tokens.mark_at(inner.at, MARK_CLOSE) {
        return Some(Step {
            at: inner.at + 1,
            ..inner
        });
    }
    None
}
