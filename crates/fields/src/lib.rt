// What the fields of a statement tell: whether its names are known, and whether its jumps name labels.
#![tactic(auto, unfolding(base::specs::Choice::pick))]

ghost use Rattle.std.specs.Prelude.{◌≡◌};
ghost use Rattle.sheet_field.specs.Memory.{fields_at};
ghost use Rattle.source.specs.Program.{is_label, all};
ghost use Rattle.fields.specs.Memory.{field_known, fields_known, jump_of, field_jumps};
ghost use Rattle.fields.specs.Internal.{good_jump};

use sheet::Field;
use sheet_field::field_in;
use source::GREATEST_LABEL;

fn is_known(f: Field) -> bool
    ensures { result ≡ field_known f }
{
    match f {
        Field::Word(w) | Field::Set(w) => 2 <= w,
        _ => true,
    }
}

// Whether the names in fields are all known.
pub fn all_known(fields: &[u64]) -> bool
    ensures { result ≡ fields_known (fields_at 0 fields.now) }
{
    fields.iter().all(|w| is_known(field_in(*w)))
}

// The number that a field carries, if it is a jump.
pub fn jump_of(f: Field) -> Option<u32>
    ensures { result ≡ jump_of f }
{
    match f {
        Field::Goto(l) => Some(l),
        _ => None,
    }
}

fn good_jump(jump: Option<u32>) -> bool
    ensures { result ≡ good_jump jump }
{
    match jump {
        Some(l) => l != 0 && l <= GREATEST_LABEL,
        None => true,
    }
}

// Whether the jumps among fields all name labels.
pub fn good_jumps(fields: &[u64]) -> bool
    ensures { result ≡ all is_label (field_jumps (fields_at 0 fields.now)) }
{
    fields.iter().all(|w| good_jump(jump_of(field_in(*w))))
}
