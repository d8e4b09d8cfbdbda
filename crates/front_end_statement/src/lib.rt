// One statement of a program: its tokens, its names looked up, its form, and what that does.
#![tactic(auto)]

ghost use Rattle.std.specs.Prelude.{◌≤◌, ◌≡◌, length};
ghost use Rattle.source.specs.Limits.{most_cells};
ghost use Rattle.source.specs.Memory.{held, lexemes_from};
ghost use Rattle.grammar.specs.Answers.{Few};
ghost use Rattle.front_end_forms.specs.Memory.{table_of};
ghost use Rattle.front_end_forms.specs.Answers.{FewCounts};
ghost use Rattle.front_end_statement.specs.Answers.{OnStatement};
ghost use Rattle.front_end_statement.specs.Internal.{further_of, given_of, placed_of, Dispatches, OnTokens};

use base::part;
use front_end_forms::{Failure, Progress, Step, begin, declaration, instruction, label};
use front_end_groups::{conclude, finish, finish_else};
use grammar::{Form, form_of};
use grammar_look::Tokens;
use names::look_up;
use source::{MOST_CELLS, Refusal, Statement};
use tokens::tokens;

// What a form that only goes on comes to.
fn further(progress: Result<Progress, Failure>) -> Result<Step, Failure>
    ensures { result ≡ further_of progress }
{
    Ok(Step::Further(progress?))
}

// What the end of a program comes to.
fn given(sheet: Result<(), Failure>) -> Result<Step, Failure>
    ensures { result ≡ given_of sheet }
{
    sheet?;
    Ok(Step::Given)
}

// Why a statement has no tokens, with its number.
fn placed(failure: tokens::Failure, k: u32) -> Failure
    ensures { result ≡ placed_of k failure }
{
    match failure {
        tokens::Failure::Refused(e) => Failure::Refused(e, k),
        tokens::Failure::Unfit => Failure::Unfit,
    }
}

// A statement by its form. `spelled` are its tokens before their names are looked up, and `own` holds the fields of its
// instruction.
fn dispatch(
    form: Form,
    p: Progress,
    k: u32,
    cells: &[u8],
    spelled: &Tokens<'_>,
    tokens: &Tokens<'_>,
    own: &[u64],
    letters: &mut [u8],
    index: &mut [u32],
    labels: &mut [u32],
    groups: &mut [u64],
    fields: &mut [u64],
) -> Result<Step, Failure>
    requires { FewCounts p × Few tokens.now.count form × (tokens.now.count ≤ most_cells) × (tokens.now.count ≤ length own.now) }
    ensures { Dispatches form p k tokens.now.count tokens.now.kinds.now tokens.now.values.now (lexemes_from 0 spelled.now.count cells.now spelled.now.kinds.now spelled.now.values.now) own.now (table_of letters.old index.old) labels.old groups.old fields.old result (table_of letters.new index.new) labels.new groups.new fields.new }
{
    match form {
        Form::Begin => further(begin(p, k)),
        Form::Declaration => further(declaration(p, k, cells, spelled, letters, index)),
        Form::End => given(conclude(p, k, labels, groups, fields)),
        Form::Labels(c) => further(label(p, k, tokens, c, labels)),
        Form::Instruction(c, m) => {
            let u = &own[..m];
            further(instruction(p, k, tokens, c, u, false, labels, groups, fields))
        }
        Form::Opening(c, m) => {
            let u = &own[..m];
            further(instruction(p, k, tokens, c, u, true, labels, groups, fields))
        }
        Form::Finish => further(finish(p, k, labels, groups, fields)),
        Form::FinishElse => further(finish_else(p, k, labels, groups, fields)),
    }
}

// A statement by its tokens, whose names are looked up first.
fn on_tokens(
    p: Progress,
    k: u32,
    cells: &[u8],
    spelled: &Tokens<'_>,
    letters: &mut [u8],
    index: &mut [u32],
    labels: &mut [u32],
    groups: &mut [u64],
    fields: &mut [u64],
) -> Result<Step, Failure>
    requires { FewCounts p × (spelled.now.count ≤ most_cells) }
    ensures { OnTokens p k spelled.now.count cells.now spelled.now.kinds.now spelled.now.values.now (table_of letters.old index.old) labels.old groups.old fields.old result (table_of letters.new index.new) labels.new groups.new fields.new }
{
    let mut words = [0u32; MOST_CELLS];
    look_up(cells, spelled, letters, index, p.names.count, &mut words);
    let tokens = Tokens {
        values: &words,
        ..*spelled
    };
    let mut own = [0u64; MOST_CELLS];
    match form_of(&tokens, &mut own) {
        Ok(form) => dispatch(
            form, p, k, cells, spelled, &tokens, &own, letters, index, labels, groups, fields,
        ),
        Err(grammar::Failure::NoForm) => Err(Failure::Refused(Refusal::Form, k)),
        Err(grammar::Failure::Unfit) => Err(Failure::Unfit),
    }
}

// A statement, number k. One that no end mark fits behind is unfit.
pub fn statement(
    s: Statement,
    p: Progress,
    k: u32,
    letters: &mut [u8],
    index: &mut [u32],
    labels: &mut [u32],
    groups: &mut [u64],
    fields: &mut [u64],
) -> Result<Step, Failure>
    requires { FewCounts p }
    ensures { OnStatement p k s.length (held s) (table_of letters.old index.old) labels.old groups.old fields.old result (table_of letters.new index.new) labels.new groups.new fields.new }
{
    let length = s.length;
    let mut kinds = [0u8; MOST_CELLS];
    let mut values = [0u32; MOST_CELLS];
    match tokens(s, &mut kinds, &mut values) {
        Ok(count) => {
            let spelled = Tokens {
                kinds: &kinds,
                values: &values,
                count,
            };
            let cells = part(&s.cells, 0, length);
            on_tokens(
                p, k, cells, &spelled, letters, index, labels, groups, fields,
            )
        }
        Err(failure) => Err(placed(failure, k)),
    }
}
