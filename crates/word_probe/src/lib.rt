// The word operations for the tests in rust/ to call. Not part of the product's interface (include/skimp.h).
#![tactic(auto)]

ghost use Rattle.std.specs.Prelude.{◌≡◌};
ghost use Rattle.word.specs.Word.{sum, difference, product, negation, and_bits, or_bits, xor_bits, not_bits};
ghost use Rattle.word.specs.Word.{comparison, related_to_zero, quotient, power, shift_left, shift_right};
ghost use Rattle.word_arithmetic.specs.Answers.{outcome};
ghost use Rattle.word_probe.specs.Reply.{reply, truth, relation_of};

use word::Relation;
use word_arithmetic::Fault;

#[unsafe(no_mangle)]
pub extern "C" fn word_probe_add(a: u32, b: u32) -> u32
    ensures { result ≡ sum a b }
{
    word_arithmetic::add(a, b)
}

#[unsafe(no_mangle)]
pub extern "C" fn word_probe_sub(a: u32, b: u32) -> u32
    ensures { result ≡ difference a b }
{
    word_arithmetic::sub(a, b)
}

#[unsafe(no_mangle)]
pub extern "C" fn word_probe_mul(a: u32, b: u32) -> u32
    ensures { result ≡ product a b }
{
    word_arithmetic::mul(a, b)
}

#[unsafe(no_mangle)]
pub extern "C" fn word_probe_neg(a: u32) -> u32
    ensures { result ≡ negation a }
{
    word_arithmetic::neg(a)
}

#[unsafe(no_mangle)]
pub extern "C" fn word_probe_and(a: u32, b: u32) -> u32
    ensures { result ≡ and_bits a b }
{
    word_arithmetic::bit_and(a, b)
}

#[unsafe(no_mangle)]
pub extern "C" fn word_probe_or(a: u32, b: u32) -> u32
    ensures { result ≡ or_bits a b }
{
    word_arithmetic::bit_or(a, b)
}

#[unsafe(no_mangle)]
pub extern "C" fn word_probe_xor(a: u32, b: u32) -> u32
    ensures { result ≡ xor_bits a b }
{
    word_arithmetic::bit_xor(a, b)
}

#[unsafe(no_mangle)]
pub extern "C" fn word_probe_not(a: u32) -> u32
    ensures { result ≡ not_bits a }
{
    word_arithmetic::bit_not(a)
}

#[unsafe(no_mangle)]
pub extern "C" fn word_probe_cmp(a: u32, b: u32) -> u32
    ensures { result ≡ comparison a b }
{
    word_arithmetic::cmp(a, b)
}

fn relation(number: u32) -> Relation
    ensures { result ≡ relation_of number }
{
    match number {
        0 => Relation::Equal,
        1 => Relation::Unequal,
        2 => Relation::Less,
        3 => Relation::AtMost,
        4 => Relation::Greater,
        _ => Relation::AtLeast,
    }
}

#[unsafe(no_mangle)]
pub extern "C" fn word_probe_to_zero(number: u32, a: u32) -> u32
    ensures { result ≡ truth (related_to_zero (relation_of number) a) }
{
    word_arithmetic::to_zero(relation(number), a) as u32
}

fn pack(a: Result<u32, Fault>) -> u64
    ensures { result ≡ reply (outcome a) }
{
    match a {
        Ok(w) => w as u64,
        Err(fault) => fault.number() as u64 * 4294967296,
    }
}

#[unsafe(no_mangle)]
pub extern "C" fn word_probe_div(a: u32, b: u32) -> u64
    ensures { result ≡ reply (quotient a b) }
{
    pack(word_arithmetic::div(a, b))
}

#[unsafe(no_mangle)]
pub extern "C" fn word_probe_pow(a: u32, n: u32) -> u64
    ensures { result ≡ reply (power a n) }
{
    pack(word_arithmetic::pow(a, n))
}

#[unsafe(no_mangle)]
pub extern "C" fn word_probe_shl(a: u32, n: u32) -> u64
    ensures { result ≡ reply (shift_left a n) }
{
    pack(word_arithmetic::shl(a, n))
}

#[unsafe(no_mangle)]
pub extern "C" fn word_probe_shr(a: u32, n: u32) -> u64
    ensures { result ≡ reply (shift_right a n) }
{
    pack(word_arithmetic::shr(a, n))
}
