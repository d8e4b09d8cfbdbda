// A sheet in memory: an array of its fields, each one number, in the order of its text. The number of a field, and back: `field_word`
// and `field_in` of specs/Memory.antt.
#![tactic(auto)]

ghost use Rattle.std.specs.Prelude.{◌≡◌, ◌<◌, get_or};
ghost use Rattle.word.specs.declared.Relation.TheVariants.{AtLeast};
ghost use Rattle.sheet.specs.Orders.{operation, opposite};
ghost use Rattle.sheet.specs.declared.Operator.TheVariants.{Unlike};
ghost use Rattle.sheet.specs.declared.Joining.TheVariants.{Or};
ghost use Rattle.sheet.specs.declared.Field.TheVariants.{Not, Run};
ghost use Rattle.sheet_field.specs.Memory.{operator_number, relation_number, joining_number, kind, carried, operators, relations, bare_fields, numbered_fields, field_of};
ghost use Rattle.sheet_field.specs.Memory.{field_word, field_in};

use order::Operation;
use sheet::{Field, Joining, Operator};
use word::Relation;

// `most_fields` of specs/Memory.antt.
pub const MOST_FIELDS: usize = 2 * order::MOST_ORDERS as usize;

// `most_levels` of sheet's specs/Within.antt.
pub const MOST_LEVELS: u32 = 16;

// `most_comparisons` of sheet's specs/Condition.antt.
pub const MOST_COMPARISONS: u32 = 16;

pub fn operator_number(o: Operator) -> u8
    ensures numbered { result ≡ operator_number o }
    ensures few { result < 10 }
{
    o as u8
}

pub fn relation_number(s: Relation) -> u8
    ensures numbered { result ≡ relation_number s }
    ensures few { result < 6 }
{
    s as u8
}

pub fn joining_number(w: Joining) -> u8
    ensures numbered { result ≡ joining_number w }
    ensures few { result < 2 }
{
    w as u8
}

// The number of a field's kind.
pub fn kind_of(f: Field) -> u8
    ensures { result ≡ kind f }
{
    match f {
        Field::Else => 0,
        Field::Start => 1,
        Field::Finish => 2,
        Field::If => 3,
        Field::Send => 4,
        Field::Neg => 5,
        Field::Not => 6,
        Field::Binary(o) => 7 + operator_number(o),
        Field::Compare(s) => 17 + relation_number(s),
        Field::Word(_) => 23,
        Field::Constant(_) => 24,
        Field::Set(_) => 25,
        Field::Goto(_) => 26,
        Field::Run(w, _) => 27 + joining_number(w),
    }
}

// The number that a field carries.
pub fn value_of(f: Field) -> u32
    ensures { result ≡ carried f }
{
    match f {
        Field::Word(w) | Field::Set(w) => w,
        Field::Constant(n) | Field::Run(_, n) => n,
        Field::Goto(s) => s,
        _ => 0,
    }
}

// The operator with a number below 10; !! for any other.
pub fn operator(k: u8) -> Operator
    ensures { result ≡ get_or operators k Unlike }
{
    match k {
        0 => Operator::Plus,
        1 => Operator::Minus,
        2 => Operator::Times,
        3 => Operator::Over,
        4 => Operator::Power,
        5 => Operator::Left,
        6 => Operator::Right,
        7 => Operator::And,
        8 => Operator::Or,
        _ => Operator::Unlike,
    }
}

// The relation with a number below 6; >= for any other.
pub fn relation(k: u8) -> Relation
    ensures { result ≡ get_or relations k AtLeast }
{
    match k {
        0 => Relation::Equal,
        1 => Relation::Unequal,
        2 => Relation::Less,
        3 => Relation::AtMost,
        4 => Relation::Greater,
        _ => Relation::AtLeast,
    }
}

// The field with a number below 7, which carries nothing; NOT for any other.
fn bare_field(k: u8) -> Field
    ensures { result ≡ get_or bare_fields k Not }
{
    match k {
        0 => Field::Else,
        1 => Field::Start,
        2 => Field::Finish,
        3 => Field::If,
        4 => Field::Send,
        5 => Field::Neg,
        _ => Field::Not,
    }
}

// The field with a number from 23 to 28, which carries the number v; OR for any other.
fn numbered_field(k: u8, v: u32) -> Field
    ensures { result ≡ get_or numbered_fields k (Run Or) v }
{
    match k {
        0 => Field::Word(v),
        1 => Field::Constant(v),
        2 => Field::Set(v),
        3 => Field::Goto(v),
        4 => Field::Run(Joining::And, v),
        _ => Field::Run(Joining::Or, v),
    }
}

// The field of a kind and what it carries; ELSE where no field has the kind.
fn field_of(k: u8, v: u32) -> Field
    ensures { result ≡ field_of k v }
{
    if k < 7 {
        return bare_field(k);
    }
    if k < 17 {
        return Field::Binary(operator(k - 7));
    }
    if k < 23 {
        return Field::Compare(relation(k - 17));
    }
    if k < 29 {
        return numbered_field(k - 23, v);
    }
    Field::Else
}

// A field as one number.
pub fn field_word(f: Field) -> u64
    ensures { result ≡ field_word f }
{
    kind_of(f) as u64 * 4294967296 + value_of(f) as u64
}

// The field that a number stands for.
pub fn field_in(w: u64) -> Field
    ensures { result ≡ field_in w }
{
    let k = w / 4294967296;
    if 29 <= k {
        return Field::Else;
    }
    field_of(k as u8, (w % 4294967296) as u32)
}

// The operation of an operator's order.
pub fn operation_of(o: Operator) -> Operation
    ensures { result ≡ operation o }
{
    match o {
        Operator::Plus => Operation::Add,
        Operator::Minus => Operation::Sub,
        Operator::Times => Operation::Mlt,
        Operator::Over => Operation::Div,
        Operator::Power => Operation::Exp,
        Operator::Left => Operation::Shl,
        Operator::Right => Operation::Shr,
        Operator::And => Operation::And,
        Operator::Or => Operation::Or,
        Operator::Unlike => Operation::Xor,
    }
}

// The relation that holds where s does not.
pub fn opposite_of(s: Relation) -> Relation
    ensures { result ≡ opposite s }
{
    match s {
        Relation::Equal => Relation::Unequal,
        Relation::Unequal => Relation::Equal,
        Relation::Less => Relation::AtLeast,
        Relation::AtMost => Relation::Greater,
        Relation::Greater => Relation::AtMost,
        Relation::AtLeast => Relation::Less,
    }
}

// The field at a place of an array; ELSE where it has ended.
pub fn field_at(fields: &[u64], at: usize) -> Field
    ensures { result ≡ field_in (get_or fields.now at 0) }
{
    field_in(base::at(fields, at, 0))
}
