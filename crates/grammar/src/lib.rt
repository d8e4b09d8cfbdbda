// The form of a statement, document 01 ("Statements") and 02, L1: from its tokens to its labels and the fields of its instruction.
#![tactic(auto)]

ghost use Rattle.std.specs.Prelude.{◌≡◌, ◌<◌, ◌≤◌, length, IfOk};
ghost use Rattle.source.specs.Limits.{most_cells};
ghost use Rattle.source.specs.Grammar.{form, is_name_list, labelled_form, labels_at, finishing as behind_finish};
ghost use Rattle.source.specs.Memory.{tokens_from};
ghost use Rattle.grammar_look.specs.Internal.{ahead};
ghost use Rattle.grammar.specs.Answers.{fields_of, told, fit, told_of, Few};
ghost use Rattle.grammar.specs.Internal.{all_of, LabelsOf, Tells};

use grammar_instruction::{Instructed, instruction};
use grammar_look::Tokens;
use source::MOST_CELLS;
use source::marks::{
    MARK_BEGIN, MARK_COMMA, MARK_ELSE, MARK_END, MARK_FINISH, MARK_INTEGER, MARK_START,
};

// The form of a statement. `Labels(c)`: c labels alone; they are the numbers that the tokens 0, 2 .. carry. `Instruction(c, m)`:
// c labels and an instruction, whose m fields fill the front of the array. `Opening(c, m)`: the same for an IF up to its
// `%START`.
#[derive(Clone, Copy)]
pub enum Form {
    Begin,
    Declaration,
    End,
    Labels(usize),
    Instruction(usize, usize),
    Opening(usize, usize),
    Finish,
    FinishElse,
}

// Why tokens have no form. `NoForm`: no statement has such tokens. `Unfit`: they are more than a statement can have, or than the
// array has places.
#[derive(Clone, Copy)]
pub enum Failure {
    NoForm,
    Unfit,
}

// Whether the tokens from place `at` on are a list of names parted by commas.
fn is_name_list(tokens: &Tokens<'_>, at: usize) -> bool
    requires { tokens.now.count ≤ most_cells }
    ensures { result ≡ is_name_list (ahead tokens.now at) }
{
    let mut i = at;
    while tokens.name_at(i) {
        if tokens.count - i == 1 {
            return true;
        }
        if !tokens.mark_at(i + 1, MARK_COMMA) {
            return false;
        }
        i += 2;
    }
    false
}

// The number of labels that stand before anything else.
fn labels(tokens: &Tokens<'_>) -> usize
    requires { tokens.now.count ≤ most_cells }
    ensures { LabelsOf tokens.now result }
{
    let mut c = 0;
    while tokens.label_at(2 * c) {
        c += 1;
    }
    c
}

// A statement of labels, an instruction, or both.
fn labelled(tokens: &Tokens<'_>, fields: &mut [u64]) -> Result<Form, Failure>
    requires { (tokens.now.count ≤ most_cells) × (tokens.now.count ≤ length fields.old) }
    ensures read { told (all_of tokens.now) result fields.new
        ≡ fields_of (labelled_form (labels_at (all_of tokens.now))) }
    ensures few { IfOk result (Few tokens.now.count) }
{
    let c = labels(tokens);
    if 2 * c == tokens.count {
        return Ok(Form::Labels(c));
    }
    match instruction(tokens, 2 * c, fields, 0) {
        Some(Instructed::Whole(s)) if s.at == tokens.count => Ok(Form::Instruction(c, s.out)),
        Some(Instructed::Opening(s)) if s.at == tokens.count => Ok(Form::Opening(c, s.out)),
        _ => Err(Failure::NoForm),
    }
}

// Behind `%FINISH`.
fn finishing(tokens: &Tokens<'_>) -> Result<Form, Failure>
    requires { 0 < tokens.now.count }
    ensures read { Tells result (fields_of (behind_finish (ahead tokens.now 1))) }
    ensures few { IfOk result (Few tokens.now.count) }
{
    if tokens.mark_at(1, MARK_ELSE) {
        if tokens.mark_at(2, MARK_START) {
            if tokens.count == 3 {
                return Ok(Form::FinishElse);
            }
        }
        return Err(Failure::NoForm);
    }
    if tokens.count == 1 {
        return Ok(Form::Finish);
    }
    Err(Failure::NoForm)
}

// Whether n tokens are no more than a statement can have, and than an array has places.
fn is_fit(n: usize, room: usize) -> bool
    ensures { result ≡ fit n room }
{
    n <= MOST_CELLS && n <= room
}

// The form of the statement that has these tokens.
fn fit_form(tokens: &Tokens<'_>, fields: &mut [u64]) -> Result<Form, Failure>
    requires { (tokens.now.count ≤ most_cells) × (tokens.now.count ≤ length fields.old) }
    ensures read { told (all_of tokens.now) result fields.new ≡ fields_of (form (all_of tokens.now)) }
    ensures few { IfOk result (Few tokens.now.count) }
{
    if tokens.mark_at(0, MARK_BEGIN) {
        if tokens.count == 1 {
            return Ok(Form::Begin);
        }
        return Err(Failure::NoForm);
    }
    if tokens.mark_at(0, MARK_END) {
        if tokens.count == 1 {
            return Ok(Form::End);
        }
        return Err(Failure::NoForm);
    }
    if tokens.mark_at(0, MARK_INTEGER) {
        if is_name_list(tokens, 1) {
            return Ok(Form::Declaration);
        }
        return Err(Failure::NoForm);
    }
    if tokens.mark_at(0, MARK_FINISH) {
        return finishing(tokens);
    }
    labelled(tokens, fields)
}

// The form of the statement that has these tokens, for any number of tokens and any array. A statement has no more tokens than the
// cells that it can hold, and no more fields than tokens. Free is what the array holds behind the fields of an instruction, and all
// that it holds where there is none.
pub fn form_of(tokens: &Tokens<'_>, fields: &mut [u64]) -> Result<Form, Failure>
    ensures read { told (tokens_from 0 tokens.now.count tokens.now.kinds.now tokens.now.values.now) result fields.new
        ≡ told_of tokens.now.count fields.old (tokens_from 0 tokens.now.count tokens.now.kinds.now tokens.now.values.now) }
    ensures few { IfOk result (Few tokens.now.count) }
    ensures kept { length fields.new ≡ length fields.old }
{
    if is_fit(tokens.count, fields.len()) {
        return fit_form(tokens, fields);
    }
    Err(Failure::Unfit)
}
