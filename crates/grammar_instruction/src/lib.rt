// Instructions, document 01 ("Statements") and 02, L1. Each function reads from the token at place `at` on and writes from place
// `out` on. Comments in quotes are their words.
#![tactic(auto)]

ghost use Rattle.std.specs.Prelude.{◌≡◌, ◌+◌, ◌<◌};
ghost use Rattle.sheet_field.specs.Memory.{fields_from};
ghost use Rattle.grammar_look.specs.Internal.{ahead};
ghost use Rattle.grammar_output.specs.Internal.{Ready, Moved};
ghost use Rattle.grammar_expression.specs.Internal.{stepped};
ghost use Rattle.grammar_instruction.specs.Internal.{output_in, MovedOn};
ghost use Rattle.grammar_instruction.specs.Internal.{alternative_pass, otherwise_pass, lone_pass, consequent_pass, conditional_pass, instruction_pass};

use grammar_condition::condition;
use grammar_look::Tokens;
use grammar_output::{Step, put};
use grammar_simple::simple;
use sheet::Field;
use source::marks::{MARK_ELSE, MARK_IF, MARK_START, MARK_THEN};

// What was read: an instruction, or one up to its `%START`.
#[derive(Clone, Copy)]
pub enum Instructed {
    Whole(Step),
    Opening(Step),
}

// Behind `%ELSE`: the second u, and FINISH.
fn alternative(tokens: &Tokens<'_>, at: usize, fields: &mut [u64], out: usize) -> Option<Step>
    requires { Ready tokens.now.count at out fields.old × (out < at) }
    ensures moved { Moved 1 tokens.now.count at (out + 1) result }
    ensures read { stepped tokens.now result fields.new
        ≡ alternative_pass (fields_from 0 out fields.old)
        (ahead tokens.now at) }
{
    put(fields, out, Field::Else);
    let second = simple(tokens, at, fields, out + 1)?;
    put(fields, second.out, Field::Finish);
    Some(Step {
        out: second.out + 1,
        ..second
    })
}

// Behind the first u: "an optional `%ELSE u`", and FINISH.
fn otherwise(tokens: &Tokens<'_>, at: usize, fields: &mut [u64], out: usize) -> Option<Step>
    requires { Ready tokens.now.count at out fields.old × (out < at) }
    ensures moved { Moved 0 tokens.now.count at (out + 1) result }
    ensures read { stepped tokens.now result fields.new
        ≡ otherwise_pass (fields_from 0 out fields.old)
        (ahead tokens.now at) }
{
    if tokens.mark_at(at, MARK_ELSE) {
        return alternative(tokens, at + 1, fields, out);
    }
    put(fields, out, Field::Finish);
    Some(Step { at, out: out + 1 })
}

// "a lone u as a group of one": the parts of an IF that has no `%START`.
fn lone(tokens: &Tokens<'_>, at: usize, fields: &mut [u64], out: usize) -> Option<Step>
    requires { Ready tokens.now.count at out fields.old }
    ensures moved { Moved 1 tokens.now.count at out result }
    ensures read { stepped tokens.now result fields.new
        ≡ lone_pass (fields_from 0 out fields.old)
        (ahead tokens.now at) }
{
    let first = simple(tokens, at, fields, out)?;
    otherwise(tokens, first.at, fields, first.out)
}

// Behind `%THEN`.
fn consequent(tokens: &Tokens<'_>, at: usize, fields: &mut [u64], out: usize) -> Option<Instructed>
    requires { Ready tokens.now.count at out fields.old }
    ensures moved { MovedOn 1 tokens.now.count at out result }
    ensures read { output_in tokens.now result fields.new
        ≡ consequent_pass (fields_from 0 out fields.old)
        (ahead tokens.now at) }
{
    if tokens.mark_at(at, MARK_START) {
        return Some(Instructed::Opening(Step { at: at + 1, out }));
    }
    Some(Instructed::Whole(lone(tokens, at, fields, out)?))
}

// Behind `%IF`.
fn conditional(tokens: &Tokens<'_>, at: usize, fields: &mut [u64], out: usize) -> Option<Instructed>
    requires { Ready tokens.now.count at out fields.old × (out < at) }
    ensures moved { MovedOn 1 tokens.now.count at (out + 1) result }
    ensures read { output_in tokens.now result fields.new
        ≡ conditional_pass (fields_from 0 out fields.old)
        (ahead tokens.now at) }
{
    put(fields, out, Field::If);
    let asked = condition(tokens, at, fields, out + 1)?;
    if tokens.mark_at(asked.at, MARK_THEN) {
        put(fields, asked.out, Field::Start);
        return consequent(tokens, asked.at + 1, fields, asked.out + 1);
    }
    None
}

pub fn instruction(
    tokens: &Tokens<'_>,
    at: usize,
    fields: &mut [u64],
    out: usize,
) -> Option<Instructed>
    requires { Ready tokens.now.count at out fields.old }
    ensures moved { MovedOn 1 tokens.now.count at out result }
    ensures read { output_in tokens.now result fields.new
        ≡ instruction_pass (fields_from 0 out fields.old)
        (ahead tokens.now at) }
{
    if tokens.mark_at(at, MARK_IF) {
        return conditional(tokens, at + 1, fields, out);
    }
    Some(Instructed::Whole(simple(tokens, at, fields, out)?))
}
