// Word arithmetic on u32 patterns, document 01 and 02, L3. Each public function's equation cites word's specs/Word.antt.
#![tactic(auto)]

ghost use Rattle.std.specs.Prelude.{◌≡◌, pos, negsuc, neg_ℤ, ◌≢◌, unsigned_abs};
ghost use Rattle.word.specs.Word.{sum, difference, product, negation, and_bits, or_bits, xor_bits, not_bits};
ghost use Rattle.word.specs.Word.{signed, word, related_to_zero, comparison, rounded, quotient, power, shift_left, shift_right};
ghost use Rattle.word_arithmetic.specs.Answers.{number, outcome};
ghost use Rattle.word_arithmetic.specs.Internal.{outward as spec-outward, PowerOf};

use std::cmp::Ordering;
use word::Relation;

// Why an operation gives no word.
#[derive(Clone, Copy, PartialEq, Eq, Debug)]
pub enum Fault {
    ZeroDivisor,
    NegativeExponent,
    ShiftCount,
}

impl Fault {
    // Document 01's number of the fault.
    pub fn number(self) -> u32
        ensures { result ≡ number self }
    {
        match self {
            Fault::ZeroDivisor => 1,
            Fault::NegativeExponent => 2,
            Fault::ShiftCount => 3,
        }
    }
}

pub fn add(a: u32, b: u32) -> u32
    ensures { result ≡ sum a b }
{
    a.wrapping_add(b)
}

pub fn sub(a: u32, b: u32) -> u32
    ensures { result ≡ difference a b }
{
    a.wrapping_sub(b)
}

// Document 01: "product and power as helpers modulo 2 to the 32".
pub fn mul(a: u32, b: u32) -> u32
    ensures { result ≡ product a b }
{
    (a as u64 * b as u64 % 4294967296) as u32
}

// The integer that a pattern stands for.
fn to_signed(a: u32) -> i32
    ensures { result ≡ signed a }
{
    if a < 2147483648 {
        a as i32
    } else {
        -1 - (4294967295 - a) as i32
    }
}

// The pattern of an integer.
fn to_word(x: i32) -> u32
    ensures { result ≡ word x }
{
    if 0 <= x {
        x as u32
    } else {
        4294967295 - (-1 - x) as u32
    }
}

// The least word is its own negation: it has none among the signed integers.
pub fn neg(a: u32) -> u32
    ensures { result ≡ negation a }
{
    if a == 2147483648 {
        return a;
    }
    to_word(0 - to_signed(a))
}

pub fn bit_and(a: u32, b: u32) -> u32
    ensures { result ≡ and_bits a b }
{
    a & b
}

pub fn bit_or(a: u32, b: u32) -> u32
    ensures { result ≡ or_bits a b }
{
    a | b
}

pub fn bit_xor(a: u32, b: u32) -> u32
    ensures { result ≡ xor_bits a b }
{
    a ^ b
}

pub fn bit_not(a: u32) -> u32
    ensures { result ≡ not_bits a }
{
    !a
}

// Comparison goes by the integers themselves: their difference could wrap.
pub fn cmp(a: u32, b: u32) -> u32
    ensures { result ≡ comparison a b }
{
    match to_signed(a).cmp(&to_signed(b)) {
        Ordering::Less => 4294967295,
        Ordering::Equal => 0,
        Ordering::Greater => 1,
    }
}

pub fn to_zero(relation: Relation, a: u32) -> bool
    ensures { result ≡ related_to_zero relation a }
{
    let x = to_signed(a);
    match relation {
        Relation::Equal => a == 0,
        Relation::Unequal => a != 0,
        Relation::Less => x < 0,
        Relation::AtMost => x <= 0,
        Relation::Greater => 0 < x,
        Relation::AtLeast => 0 <= x,
    }
}

// -|x|: below zero the least word has its size too.
fn minus_size(x: i32) -> i32
    ensures { result ≡ neg_ℤ (pos (unsigned_abs x)) }
{
    if 0 < x { 0 - x } else { x }
}

// The step from x / y away from zero: 1 where both are below zero or neither is, else -1.
fn outward(x: i32, y: i32) -> i32
    ensures { result ≡ spec-outward x y }
{
    if (x < 0) == (y < 0) { 1 } else { -1 }
}

// x / y rounded: the quotient toward zero or, where the rest is half of y or more, the next one away from zero. The step comes
// before the division, which leaves a machine few registers.
fn nearest(x: i32, y: i32) -> i32
    requires { (y ≢ pos 0) × (y ≢ negsuc 0) }
    ensures { result ≡ rounded x y }
{
    let mut step = outward(x, y);
    let toward_zero = x / y;
    let rest = minus_size(x % y);
    if minus_size(y) - rest < rest {
        step = 0;
    }
    toward_zero + step
}

// Division by -1 is the negation, so that the least word's quotient wraps to itself; every other quotient is a word.
pub fn div(a: u32, b: u32) -> Result<u32, Fault>
    ensures { outcome result ≡ quotient a b }
{
    if b == 0 {
        return Err(Fault::ZeroDivisor);
    }
    if b == 4294967295 {
        return Ok(neg(a));
    }
    Ok(to_word(nearest(to_signed(a), to_signed(b))))
}

// A power, and the number of products that it took.
#[derive(Clone, Copy)]
struct Power {
    word: u32,
    products: u32,
}

// By repeated squaring: acc * base ^ left stays the same modulo 2 to the 32 while left is halved.
fn power_of(a: u32, n: u32) -> Power
    ensures { PowerOf a n result.word result.products }
{
    let mut acc: u32 = 1;
    let mut base = a;
    let mut left = n;
    let mut products: u32 = 0;
    while 0 < left {
        if left % 2 == 1 {
            acc = mul(acc, base);
            products += 1;
        }
        base = mul(base, base);
        products += 1;
        left = left / 2;
    }
    Power {
        word: acc,
        products,
    }
}

pub fn pow(a: u32, n: u32) -> Result<u32, Fault>
    ensures { outcome result ≡ power a n }
{
    if to_signed(n) < 0 {
        return Err(Fault::NegativeExponent);
    }
    Ok(power_of(a, n).word)
}

// A shift count is 0 to 31.
const SHIFT_COUNTS: u32 = 32;

pub fn shl(a: u32, n: u32) -> Result<u32, Fault>
    ensures { outcome result ≡ shift_left a n }
{
    if n < SHIFT_COUNTS {
        Ok(a << n)
    } else {
        Err(Fault::ShiftCount)
    }
}

pub fn shr(a: u32, n: u32) -> Result<u32, Fault>
    ensures { outcome result ≡ shift_right a n }
{
    if n < SHIFT_COUNTS {
        Ok(a >> n)
    } else {
        Err(Fault::ShiftCount)
    }
}
