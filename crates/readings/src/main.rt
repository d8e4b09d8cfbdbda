// Document 01's readings of word arithmetic and 02's of division (L3), worked out and written one to a line. The file stdout
// beside src/ has what the documents say of each.
#![tactic(auto)]

use std::io::{self, Print};
use word_arithmetic::Fault;

fn main(rt: HostRuntime) -> io::Result<()> {
    starred(&rt)?;
    quotients(&rt)?;
    faults(&rt)?;
    comparisons(&rt)
}

fn starred<R: Print>(rt: &R) -> io::Result<()> {
    show(rt, b"-7/2", negated(word_arithmetic::div(7, 2)))?;
    show(rt, b"2147483647+1", Ok(word_arithmetic::add(2147483647, 1)))?;
    show(
        rt,
        b"-(\\2147483647)",
        negated(Ok(word_arithmetic::bit_not(2147483647))),
    )?;
    show(rt, b"0**0", word_arithmetic::pow(0, 0))?;
    show(rt, b"2**31", word_arithmetic::pow(2, 31))?;
    show(rt, b"2**32", word_arithmetic::pow(2, 32))?;
    show(
        rt,
        b"(\\0)>>31",
        word_arithmetic::shr(word_arithmetic::bit_not(0), 31),
    )?;
    show(rt, b"1/3*3", times(word_arithmetic::div(1, 3), 3))?;
    show(rt, b"6!!3", Ok(word_arithmetic::bit_xor(6, 3)))?;
    show(rt, b"-2**2", negated(word_arithmetic::pow(2, 2)))
}

// Halves are rounded away from zero, also those of the least word.
fn quotients<R: Print>(rt: &R) -> io::Result<()> {
    let least = word_arithmetic::bit_not(2147483647);
    show(rt, b"7/2", word_arithmetic::div(7, 2))?;
    show(
        rt,
        b"(-7)/2",
        word_arithmetic::div(word_arithmetic::neg(7), 2),
    )?;
    show(rt, b"1/3", word_arithmetic::div(1, 3))?;
    show(rt, b"2/3", word_arithmetic::div(2, 3))?;
    show(rt, b"5/2", word_arithmetic::div(5, 2))?;
    show(
        rt,
        b"5/(-2)",
        word_arithmetic::div(5, word_arithmetic::neg(2)),
    )?;
    show(
        rt,
        b"(-4)/3",
        word_arithmetic::div(word_arithmetic::neg(4), 3),
    )?;
    show(
        rt,
        b"2147483647/(\\2147483647)",
        word_arithmetic::div(2147483647, least),
    )?;
    show(
        rt,
        b"1073741824/(\\2147483647)",
        word_arithmetic::div(1073741824, least),
    )?;
    show(
        rt,
        b"1073741823/(\\2147483647)",
        word_arithmetic::div(1073741823, least),
    )?;
    Ok(())
}

// The faults, and the quotient that wraps.
fn faults<R: Print>(rt: &R) -> io::Result<()> {
    let least = word_arithmetic::bit_not(2147483647);
    let minus_one = word_arithmetic::neg(1);
    show(rt, b"1<<32", word_arithmetic::shl(1, 32))?;
    show(rt, b"1>>(-1)", word_arithmetic::shr(1, minus_one))?;
    show(rt, b"1/0", word_arithmetic::div(1, 0))?;
    show(rt, b"2**(-1)", word_arithmetic::pow(2, minus_one))?;
    show(
        rt,
        b"(\\2147483647)/(-1)",
        word_arithmetic::div(least, minus_one),
    )?;
    show(rt, b"3**2147483647", word_arithmetic::pow(3, 2147483647))
}

// Document 01's first slip: 2147483647 is not below \2147483647.
fn comparisons<R: Print>(rt: &R) -> io::Result<()> {
    let least = word_arithmetic::bit_not(2147483647);
    show(
        rt,
        b"2147483647 against \\2147483647",
        Ok(word_arithmetic::cmp(2147483647, least)),
    )?;
    show(
        rt,
        b"\\2147483647 against 2147483647",
        Ok(word_arithmetic::cmp(least, 2147483647)),
    )?;
    show(rt, b"7 against 7", Ok(word_arithmetic::cmp(7, 7)))
}

fn negated(a: Result<u32, Fault>) -> Result<u32, Fault> {
    a.map(word_arithmetic::neg)
}

fn times(a: Result<u32, Fault>, factor: u32) -> Result<u32, Fault> {
    a.map(|w| word_arithmetic::mul(w, factor))
}

// A line: the expression, and the word that it gives or the fault that it meets.
fn show<R: Print>(rt: &R, expression: &[u8], a: Result<u32, Fault>) -> io::Result<()> {
    rt.write_all(expression)?;
    match a {
        Ok(w) => {
            rt.write_all(b" is ")?;
            print_word(rt, w)?;
        }
        Err(fault) => {
            let number = fault.number();
            print!(rt; " faults {number}")?;
        }
    }
    rt.write_all(b"\n")
}

// A word as the signed number that it stands for.
fn print_word<R: Print>(rt: &R, w: u32) -> io::Result<()> {
    if w < 2147483648 {
        print!(rt; "{w}")?;
    } else {
        let size = 4294967296 - w as u64;
        print!(rt; "-{size}")?;
    }
    Ok(())
}
