// What the orders do to the registers, the words and the output. `behind` is the place of the order behind.
#![tactic(auto)]

ghost use Rattle.std.specs.Prelude.{◌≡◌, get_or, set};
ghost use Rattle.base.specs.Choice.{pick};
ghost use Rattle.word.specs.Word.{related_to_zero};
ghost use Rattle.word_arithmetic.specs.Answers.{outcome};
ghost use Rattle.machine.specs.Machine.{go_to, end_with, operate};
ghost use Rattle.machine_effect.specs.Internal.{moved, settled, Sends};

use base::{at, put};
use machine::{OUTPUT_FULL, Registers};
use order::Operation;
use word::Relation;
use word_arithmetic::Fault;

pub fn advance(a: u32, behind: usize, r: Registers) -> Registers
    ensures { result ≡ moved a behind r }
{
    Registers {
        acc: a,
        next: behind,
        ..r
    }
}

pub fn go_to(a: u32, r: Registers) -> Registers
    ensures { result ≡ go_to a r }
{
    Registers {
        next: a as usize,
        ..r
    }
}

pub fn end_with(ending: u32, r: Registers) -> Registers
    ensures { result ≡ end_with ending r }
{
    Registers { ending, ..r }
}

// ---- the orders' effects

// What an operation gives, of the accumulator a and the operand x.
fn result_of(f: Operation, a: u32, x: u32) -> Result<u32, Fault>
    ensures { outcome result ≡ operate f a x }
{
    match f {
        Operation::Load => Ok(x),
        Operation::Add => Ok(word_arithmetic::add(a, x)),
        Operation::Sub => Ok(word_arithmetic::sub(a, x)),
        Operation::Mlt => Ok(word_arithmetic::mul(a, x)),
        Operation::Div => word_arithmetic::div(a, x),
        Operation::Exp => word_arithmetic::pow(a, x),
        Operation::Shl => word_arithmetic::shl(a, x),
        Operation::Shr => word_arithmetic::shr(a, x),
        Operation::And => Ok(word_arithmetic::bit_and(a, x)),
        Operation::Or => Ok(word_arithmetic::bit_or(a, x)),
        Operation::Xor => Ok(word_arithmetic::bit_xor(a, x)),
        Operation::Cmp => Ok(word_arithmetic::cmp(a, x)),
    }
}

fn settle(answer: Result<u32, Fault>, behind: usize, r: Registers) -> Registers
    ensures { result ≡ settled (outcome answer) behind r }
{
    match answer {
        Ok(a) => advance(a, behind, r),
        Err(fault) => end_with(fault.number(), r),
    }
}

pub fn on_number(f: Operation, x: u32, behind: usize, r: Registers) -> Registers
    ensures { result ≡ settled (operate f r.acc x) behind r }
{
    settle(result_of(f, r.acc, x), behind, r)
}

pub fn on_word(f: Operation, words: &[u32], w: u32, behind: usize, r: Registers) -> Registers
    ensures { result ≡ settled (operate f r.acc (get_or words.now w 0)) behind r }
{
    let held = at(words, w as usize, 0);
    settle(result_of(f, r.acc, held), behind, r)
}

pub fn store(words: &mut [u32], w: u32, a: u32)
    ensures { words.new ≡ set words.old w a }
{
    put(words, w as usize, a);
}

pub fn branch(relation: Relation, a: u32, behind: usize, r: Registers) -> Registers
    ensures { result ≡ pick (related_to_zero relation r.acc) (go_to a r) (moved r.acc behind r) }
{
    if word_arithmetic::to_zero(relation, r.acc) {
        return go_to(a, r);
    }
    advance(r.acc, behind, r)
}

// "sent word c, from 0, is bytes 4c to 4c+3, highest first"
pub fn send(output: &mut [u8], behind: usize, r: Registers) -> Registers
    ensures { Sends behind r output.old result output.new }
{
    let sent = r.sent;
    if sent < (output.len() / 4) as u64 {
        let start = 4 * sent as usize;
        output[start..start + 4].copy_from_slice(&r.acc.to_be_bytes());
        return Registers {
            next: behind,
            sent: sent + 1,
            ..r
        };
    }
    end_with(OUTPUT_FULL, r)
}
