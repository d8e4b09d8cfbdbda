// What `%FINISH`, `%FINISH %ELSE %START` and `%ENDOFPROGRAM` do to the program so far, document 01 and 02, L1: groups that are closed
// or left open, and jumps led to instructions.
#![tactic(auto)]

ghost use Rattle.std.specs.Prelude.{◌≤◌};
ghost use Rattle.front_end_forms.specs.Answers.{FewCounts};
ghost use Rattle.front_end_groups.specs.Answers.{Finishes, GoesOn, Concludes};
ghost use Rattle.front_end_groups.specs.Internal.{Seconds};

use fields_put::{lead_jumps, push};
use front_end_forms::{Failure, Progress, Stage};
use groups::{began_at, is_second, put_second, statement_at};
use labels::{put_off, take_up};
use order::MOST_ORDERS;
use sheet::Field;
use source::Refusal;

// %FINISH
pub fn finish(
    p: Progress,
    k: u32,
    labels: &mut [u32],
    groups: &[u64],
    fields: &mut [u64],
) -> Result<Progress, Failure>
    requires { FewCounts p }
    ensures { Finishes p k labels.old groups.now fields.old result labels.new fields.new }
{
    if p.stage == Stage::Nothing {
        return Err(Failure::Refused(Refusal::Form, k));
    }
    if p.groups == 0 {
        return Err(Failure::Refused(Refusal::Group, k));
    }
    let g = p.groups - 1;
    if began_at(groups, g) == p.instructions {
        return Err(Failure::Refused(Refusal::Form, k));
    }
    let n = push(fields, p.fields, Field::Finish)?;
    take_up(labels, g, p.instructions + 1);
    Ok(Progress {
        fields: n,
        groups: g,
        ..p
    })
}

// %FINISH %ELSE %START, where a first part is open that has instructions: "the jump over an ELSE" is one order.
fn second_part(
    p: Progress,
    k: u32,
    labels: &mut [u32],
    groups: &mut [u64],
    fields: &mut [u64],
) -> Result<Progress, Failure>
    requires { FewCounts p × (1 ≤ p.groups) }
    ensures { Seconds p k labels.old groups.old fields.old result labels.new groups.new fields.new }
{
    if MOST_ORDERS - p.orders <= 1 {
        return Err(Failure::Refused(Refusal::Limit, k));
    }
    let n = push(fields, p.fields, Field::Else)?;
    put_off(labels, p.instructions + 1, p.groups - 1);
    put_second(groups, p.groups - 1, k, p.instructions);
    Ok(Progress {
        fields: n,
        orders: p.orders + 1,
        ..p
    })
}

// %FINISH %ELSE %START
pub fn finish_else(
    p: Progress,
    k: u32,
    labels: &mut [u32],
    groups: &mut [u64],
    fields: &mut [u64],
) -> Result<Progress, Failure>
    requires { FewCounts p }
    ensures { GoesOn p k labels.old groups.old fields.old result labels.new groups.new fields.new }
{
    if p.stage == Stage::Nothing {
        return Err(Failure::Refused(Refusal::Form, k));
    }
    if p.groups == 0 {
        return Err(Failure::Refused(Refusal::Group, k));
    }
    if is_second(groups, p.groups - 1) {
        return Err(Failure::Refused(Refusal::Form, k));
    }
    if began_at(groups, p.groups - 1) == p.instructions {
        return Err(Failure::Refused(Refusal::Form, k));
    }
    second_part(p, k, labels, groups, fields)
}

// %ENDOFPROGRAM: a whole sheet.
pub fn conclude(
    p: Progress,
    k: u32,
    labels: &[u32],
    groups: &[u64],
    fields: &mut [u64],
) -> Result<(), Failure>
    requires { FewCounts p }
    ensures { Concludes p k labels.now groups.now fields.old result fields.new }
{
    if p.stage == Stage::Nothing {
        return Err(Failure::Refused(Refusal::Form, k));
    }
    if p.groups != 0 {
        return Err(Failure::Refused(Refusal::Group, statement_at(groups, 0)));
    }
    match lead_jumps(fields, p.fields, labels, p.labels, p.instructions + 1) {
        Ok(()) => Ok(()),
        Err(fields_put::Failure::Unset(s)) => Err(Failure::Refused(Refusal::Label, s)),
        Err(fields_put::Failure::Unfit) => Err(Failure::Unfit),
    }
}
