// Comparisons, document 01 ("Statements"), and which brackets are a condition's, 02, L5. Each function reads from the token at
// place `at` on; those of comparisons write from place `out` on. Comments in quotes are document 01's words.
#![tactic(auto)]

ghost use Rattle.std.specs.Prelude.{◌≡◌, ◌+◌, ◌<◌, ◌≤◌, None, IfSome};
ghost use Rattle.sheet_field.specs.Memory.{fields_from};
ghost use Rattle.source.specs.Limits.{most_cells};
ghost use Rattle.source.specs.Grammar.{holds_relation, opens_condition};
ghost use Rattle.grammar_look.specs.Internal.{ahead, first_relation};
ghost use Rattle.grammar_output.specs.Internal.{Ready, Moved};
ghost use Rattle.grammar_expression.specs.Internal.{stepped};
ghost use Rattle.grammar_comparison.specs.Internal.{compared_pass, comparison_pass, holds_from};

use grammar_expression::expression;
use grammar_look::Tokens;
use grammar_output::{Step, insert};
use sheet::Field;
use source::marks::{MARK_CLOSE, MARK_OPEN};

// The first expression of a comparison and the relation behind it, whose field goes before the expression.
fn compared(tokens: &Tokens<'_>, at: usize, fields: &mut [u64], out: usize) -> Option<Step>
    requires { Ready tokens.now.count at out fields.old }
    ensures moved { Moved 1 tokens.now.count at out result }
    ensures read { stepped tokens.now result fields.new
        ≡ compared_pass (fields_from 0 out fields.old)
        (ahead tokens.now at) }
{
    let first = expression(tokens, at, fields, out)?;
    let s = tokens.relation_at(first.at)?;
    insert(fields, out, first.out, Field::Compare(s));
    Some(Step {
        at: first.at + 1,
        out: first.out + 1,
    })
}

// "expr rel expr"
pub fn comparison(tokens: &Tokens<'_>, at: usize, fields: &mut [u64], out: usize) -> Option<Step>
    requires { Ready tokens.now.count at out fields.old }
    ensures moved { Moved 1 tokens.now.count at out result }
    ensures read { stepped tokens.now result fields.new
        ≡ comparison_pass (fields_from 0 out fields.old)
        (ahead tokens.now at) }
{
    let first = compared(tokens, at, fields, out)?;
    expression(tokens, first.at, fields, first.out)
}

// How many brackets are open behind the token at a place, of which d are open before it; none where it closes the bracket round
// them.
fn depth_behind(tokens: &Tokens<'_>, at: usize, d: usize) -> Option<usize>
    requires { (at < tokens.now.count) × (d ≤ at) × (tokens.now.count ≤ most_cells) }
    ensures few { IfSome result (λ e. e ≤ d + 1) }
    ensures told { first_relation (ahead tokens.now at) ≡ None → holds_from result (ahead tokens.now (at + 1))
        ≡ holds_relation d (ahead tokens.now at) }
{
    if tokens.mark_at(at, MARK_OPEN) {
        return Some(d + 1);
    }
    if tokens.mark_at(at, MARK_CLOSE) {
        return d.checked_sub(1);
    }
    Some(d)
}

// Whether a relation stands before the end of the bracket that opened before place `at`.
fn holds_relation(tokens: &Tokens<'_>, at: usize) -> bool
    requires { tokens.now.count ≤ most_cells }
    ensures { result ≡ holds_relation 0 (ahead tokens.now at) }
{
    let mut d = 0;
    for i in at..tokens.count {
        if tokens.relation_at(i).is_some() {
            return true;
        }
        let Some(e) = depth_behind(tokens, i, d) else {
            return false;
        };
        d = e;
    }
    false
}

// Whether a condition in brackets stands at a place, and no expression.
pub fn opens_condition(tokens: &Tokens<'_>, at: usize) -> bool
    requires { tokens.now.count ≤ most_cells }
    ensures { result ≡ opens_condition (ahead tokens.now at) }
{
    tokens.mark_at(at, MARK_OPEN) && holds_relation(tokens, at + 1)
}
