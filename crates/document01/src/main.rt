// Document 01's worked program ("One program whole"), its "Readings either side of a line" and its "Slips", each through the
// three calls: a source is compiled, its object read back and run. Then a source for each other refusal of a source, groups,
// objects that differ from a translation by little, and each refusal of an object. The file stdout beside src/ has what documents
// 01 and 02 say of each.
#![tactic(auto)]

use base::part;
use skimp::{MOST_OBJECT_BYTES, MOST_SHEET_BYTES};
use std::fmt;
use std::io::{self, Print};

fn main(rt: HostRuntime) -> io::Result<()> {
    worked(&rt)?;
    starred(&rt)?;
    quotients(&rt)?;
    constants(&rt)?;
    statements(&rt)?;
    slips(&rt)?;
    bytes_and_cells(&rt)?;
    programs(&rt)?;
    groups(&rt)?;
    short_buffers(&rt)?;
    choices(&rt)?;
    near_misses(&rt)?;
    faults(&rt)?;
    refusals(&rt)
}

// What a call replied: its number and its value.
#[derive(Clone, Copy)]
struct Reply(u64);

impl Reply {
    fn number(&self) -> u64 {
        self.0 / 4294967296
    }

    fn value(&self) -> u64 {
        self.0 % 4294967296
    }
}

impl fmt::Display for Reply {
    fn fmt<W: fmt::Write>(&self, f: &mut fmt::Formatter<W>) -> fmt::Result {
        write!(f, "{}, {}", self.number(), self.value())
    }
}

// Bytes in decimal, one line.
fn show_bytes<R: Print>(rt: &R, what: &str, bytes: &[u8]) -> io::Result<()> {
    print!(rt; "{what}")?;
    for byte in bytes {
        print!(rt; " {byte}")?;
    }
    println!(rt; "")
}

// The sheet of an object, or the refusal. Its buffer is on the stack while it runs and no longer, since it is part of no caller.
#[inline(never)]
fn read_back<R: Print>(rt: &R, object: &[u8]) -> io::Result<()> {
    let mut text = [0u8; MOST_SHEET_BYTES];
    let reply = Reply(skimp::skimp_read_back(object, &mut text));
    if reply.number() == 0 {
        rt.write_all(part(&text, 0, reply.value() as usize))
    } else {
        println!(rt; "gives {reply}")
    }
}

// Runs an object from the state in the lent bytes, and says how it ends and in how many steps.
fn run<R: Print>(
    rt: &R,
    what: &str,
    object: &[u8],
    state: &mut [u8],
    output: &mut [u8],
    budget: u32,
) -> io::Result<()> {
    let reply = Reply(skimp::skimp_run(object, state, output, budget));
    println!(rt; "{what}: {reply}")
}

// Document 01's worked program: its object, its sheet, and its run.
fn worked<R: Print>(rt: &R) -> io::Result<()> {
    let mut text = [0u8; MOST_OBJECT_BYTES];
    let source =
        b"%BEGIN\n%INTEGER A, B\nA = 3 ; B = A - (2 - 5) / 2\n%IF B > 4 %THEN SEND(B) %ELSE ->1\n1: SEND(A)\n%ENDOFPROGRAM\n";
    let reply = Reply(skimp::skimp_compile(source, &mut text));
    worked_object(rt, part(&text, 0, reply.value() as usize))
}

fn worked_object<R: Print>(rt: &R, object: &[u8]) -> io::Result<()> {
    rt.write_all(object)?;
    read_back(rt, object)?;
    whole(rt, object)?;
    slices(rt, object)
}

// 02, L3: it "now sends 5, then 3, in 20 steps." Called again, it reports its ending again. The state then has A = 3, B = 5 and
// the temporaries 3 and -2.
fn whole<R: Print>(rt: &R, object: &[u8]) -> io::Result<()> {
    let mut state = [0u8; 44];
    let mut output = [255u8; 9];
    run(rt, "whole", object, &mut state, &mut output, 1000)?;
    show_bytes(rt, "state", &state)?;
    show_bytes(rt, "output", &output)?;
    run(rt, "again", object, &mut state, &mut output, 1000)
}

// In slices of five steps, as a supervisor runs it.
fn slices<R: Print>(rt: &R, object: &[u8]) -> io::Result<()> {
    let mut state = [0u8; 44];
    let mut output = [0u8; 8];
    for _ in 0..4 {
        run(rt, "slice", object, &mut state, &mut output, 5)?;
    }
    show_bytes(rt, "output", &output)
}

// A reading as document 01 writes it: a title with the number that the source's program sends, with its fault, or with the
// refusal of the source; and the sheet. The program has no variables and uses no temporaries.
fn reading<R: Print>(rt: &R, title: &str, source: &[u8]) -> io::Result<()> {
    let mut state = [0u8; 28];
    reading_from(rt, title, source, &mut state)
}

// The same with a state of another length.
fn reading_from<R: Print>(rt: &R, title: &str, source: &[u8], state: &mut [u8]) -> io::Result<()> {
    let mut text = [0u8; MOST_OBJECT_BYTES];
    print!(rt; "{title}")?;
    let reply = Reply(skimp::skimp_compile(source, &mut text));
    if reply.number() == 0 {
        value(rt, part(&text, 0, reply.value() as usize), state)
    } else {
        println!(rt; " gives {reply}")
    }
}

// What an object sends, or its fault; and its sheet.
fn value<R: Print>(rt: &R, object: &[u8], state: &mut [u8]) -> io::Result<()> {
    let mut output = [0u8; 4];
    let reply = Reply(skimp::skimp_run(object, state, &mut output, 1000));
    if reply.number() == 20 {
        println!(rt; " is {}", i32::from_be_bytes(output))?;
    } else {
        println!(rt; " faults {}", reply.number())?;
    }
    read_back(rt, object)
}

// Readings, a line each: a title, a tab, and the source. One string for many of them is proved sooner than a string for each.
fn readings<R: Print>(rt: &R, table: &str) -> io::Result<()> {
    for case in table.lines() {
        if let Some((title, source)) = case.split_once('\t') {
            reading(rt, title, source.as_bytes())?;
        }
    }
    Ok(())
}

// Objects, parted by points: a title, a colon, and the object, whose sheet is told.
fn sheets<R: Print>(rt: &R, table: &str) -> io::Result<()> {
    for case in table.split('.') {
        if let Some((title, object)) = case.split_once(':') {
            print!(rt; "{title}: ")?;
            read_back(rt, object.as_bytes())?;
        }
    }
    Ok(())
}

// The same with a program that uses two temporaries.
fn with_temporaries<R: Print>(rt: &R, title: &str, source: &[u8]) -> io::Result<()> {
    let mut state = [0u8; 36];
    reading_from(rt, title, source, &mut state)
}

// The starred ones.
fn starred<R: Print>(rt: &R) -> io::Result<()> {
    readings(
        rt,
        "-7/2\t%BEGIN;SEND(-7/2);%ENDOFPROGRAM\n\
        2147483647+1\t%BEGIN;SEND(2147483647+1);%ENDOFPROGRAM\n\
        -(\\2147483647)\t%BEGIN;SEND(-(\\2147483647));%ENDOFPROGRAM\n\
        0**0\t%BEGIN;SEND(0**0);%ENDOFPROGRAM\n\
        2**31\t%BEGIN;SEND(2**31);%ENDOFPROGRAM\n\
        2**32\t%BEGIN;SEND(2**32);%ENDOFPROGRAM\n\
        (\\0)>>31\t%BEGIN;SEND((\\0)>>31);%ENDOFPROGRAM\n\
        1/3*3\t%BEGIN;SEND(1/3*3);%ENDOFPROGRAM\n\
        6!!3\t%BEGIN;SEND(6!!3);%ENDOFPROGRAM\n\
        -2**2\t%BEGIN;SEND(-2**2);%ENDOFPROGRAM\n\
        'FRED'\t%BEGIN;SEND('FRED');%ENDOFPROGRAM\n\
        ''''\t%BEGIN;SEND('''');%ENDOFPROGRAM",
    )
}

// 02, L3: "the nearest whole number, halves away from zero: 7/2 is 4, -7/2 is -4, 1/3 is 0, 2/3 is 1. The least word divided by
// -1 still wraps to itself".
fn quotients<R: Print>(rt: &R) -> io::Result<()> {
    readings(
        rt,
        "7/2\t%BEGIN;SEND(7/2);%ENDOFPROGRAM\n\
        (-7)/2\t%BEGIN;SEND((-7)/2);%ENDOFPROGRAM\n\
        1/3\t%BEGIN;SEND(1/3);%ENDOFPROGRAM\n\
        2/3\t%BEGIN;SEND(2/3);%ENDOFPROGRAM\n\
        5/2\t%BEGIN;SEND(5/2);%ENDOFPROGRAM",
    )?;
    with_temporaries(
        rt,
        "1073741824/(\\2147483647)",
        b"%BEGIN;SEND(1073741824/(\\2147483647));%ENDOFPROGRAM",
    )?;
    with_temporaries(
        rt,
        "1073741823/(\\2147483647)",
        b"%BEGIN;SEND(1073741823/(\\2147483647));%ENDOFPROGRAM",
    )?;
    with_temporaries(
        rt,
        "(\\2147483647)/(-1)",
        b"%BEGIN;SEND((\\2147483647)/(-1));%ENDOFPROGRAM",
    )
}

// "1<<32 faults 3. 2147483648 gives 6. Chapter 1's `'JIM''S'` (five characters) and `''` give 6. `'A' 'B'` is `'A''B'`,
// 4269890."
fn constants<R: Print>(rt: &R) -> io::Result<()> {
    readings(
        rt,
        "1<<32\t%BEGIN;SEND(1<<32);%ENDOFPROGRAM\n\
        2147483648\t%BEGIN;SEND(2147483648);%ENDOFPROGRAM\n\
        'JIM''S'\t%BEGIN;SEND('JIM''S');%ENDOFPROGRAM\n\
        ''\t%BEGIN;SEND('');%ENDOFPROGRAM\n\
        'A' 'B'\t%BEGIN;SEND('A' 'B');%ENDOFPROGRAM\n\
        'A''B'\t%BEGIN;SEND('A''B');%ENDOFPROGRAM",
    )
}

// "`10: ! note` gives 7. `%INTEGER NAME` declares NAME. Empty source: 10, place 0." Without the space NAME is keyword letters
// too.
fn statements<R: Print>(rt: &R) -> io::Result<()> {
    reading(rt, "10: ! note", b"%BEGIN\n10: ! note\n%ENDOFPROGRAM\n")?;
    let mut state = [0u8; 32];
    reading_from(
        rt,
        "%INTEGER NAME",
        b"%BEGIN\n%INTEGER NAME\nNAME = 7\nSEND(NAME)\n%ENDOFPROGRAM\n",
        &mut state,
    )?;
    reading(
        rt,
        "%INTEGERNAME",
        b"%BEGIN\n%INTEGERNAME\nNAME = 7\n%ENDOFPROGRAM\n",
    )?;
    reading(rt, "empty source", b"")
}

// "Comparing by subtraction: 2147483647 is not below \2147483647." "Listing line 467 compares a character's code with 7, so it
// loses 2147483640 to 2147483647." The other two are shown by `short_buffers` and `choices`.
fn slips<R: Print>(rt: &R) -> io::Result<()> {
    with_temporaries(
        rt,
        "2147483647 < \\2147483647",
        b"%BEGIN\n%IF 2147483647 < \\2147483647 %THEN SEND(1) %ELSE SEND(0)\n%ENDOFPROGRAM\n",
    )?;
    readings(
        rt,
        "2147483639\t%BEGIN;SEND(2147483639);%ENDOFPROGRAM\n\
        2147483640\t%BEGIN;SEND(2147483640);%ENDOFPROGRAM\n\
        2147483647\t%BEGIN;SEND(2147483647);%ENDOFPROGRAM",
    )
}

// The longest source, of newlines, and one byte more; a tab; quotes and a C that the source's end meets; and the most cells
// of a statement, and one more.
fn bytes_and_cells<R: Print>(rt: &R) -> io::Result<()> {
    reading(rt, "16384 bytes", &[10u8; 16384])?;
    reading(rt, "16385 bytes", &[10u8; 16385])?;
    reading(rt, "tab", b"%BEGIN\n\tSEND(1)\n%ENDOFPROGRAM\n")?;
    reading(rt, "open quotes", b"%BEGIN;SEND('A);%ENDOFPROGRAM")?;
    reading(rt, "C at the end", b"%BEGIN;SEND(1)%C")?;
    reading(rt, "256 cells", &[65u8; 255])?;
    reading(rt, "257 cells", &[65u8; 256])
}

// An end that is missing, an unknown name behind a jump to a label never set, labels, and one temporary too many.
fn programs<R: Print>(rt: &R) -> io::Result<()> {
    readings(
        rt,
        "no end\t%BEGIN;;SEND(1)\n\
        unknown name\t%BEGIN;->1;SEND(A);%ENDOFPROGRAM\n\
        label never set\t%BEGIN;SEND(1);->1;->2;%ENDOFPROGRAM\n\
        label at the end\t%BEGIN;SEND(5);->1;1:;%ENDOFPROGRAM\n\
        33 temporaries\t%BEGIN;SEND(0-(0-(0-(0-(0-(0-(0-(0-(0-(0-(0-(0-(0-(0-(0-(0-(0-(0-(0-(0-(0-(0-(0-(0-(0-(0-(0-(0-(0-(0-(0-(0-(0-0)))))))))))))))))))))))))))))))));%ENDOFPROGRAM",
    )
}

// Groups, document 02, L1: one in the first part of another, a label behind a first part, and the refusals 7, 11 and 13.
fn groups<R: Print>(rt: &R) -> io::Result<()> {
    readings(
        rt,
        "a group in a group\t%BEGIN;%IF 1=1 %THEN %START;%IF 1=2 %THEN %START;SEND(1);%FINISH %ELSE %START;SEND(2);%FINISH;%FINISH;%ENDOFPROGRAM\n\
        a label behind a first part\t%BEGIN;%IF 1=1 %THEN %START;->1;1:;%FINISH %ELSE %START;SEND(1);%FINISH;SEND(2);%ENDOFPROGRAM\n\
        labels alone in a group\t%BEGIN;%IF 1=1 %THEN %START;1:;%FINISH;%ENDOFPROGRAM\n\
        a group left open\t%BEGIN;%IF 1=1 %THEN %START;->1;%ENDOFPROGRAM\n\
        no group to close\t%BEGIN;SEND(1);%FINISH;%ENDOFPROGRAM\n\
        %FINISH %ELSE with an instruction\t%BEGIN;%IF 1=1 %THEN %START;SEND(1);%FINISH %ELSE SEND(2);%ENDOFPROGRAM\n\
        17 levels\t%BEGIN;%IF 1=1 %THEN %START;%IF 1=1 %THEN %START;%IF 1=1 %THEN %START;%IF 1=1 %THEN %START;%IF 1=1 %THEN %START;%IF 1=1 %THEN %START;%IF 1=1 %THEN %START;%IF 1=1 %THEN %START;%IF 1=1 %THEN %START;%IF 1=1 %THEN %START;%IF 1=1 %THEN %START;%IF 1=1 %THEN %START;%IF 1=1 %THEN %START;%IF 1=1 %THEN %START;%IF 1=1 %THEN %START;%IF 1=1 %THEN %START;%IF 1=1 %THEN SEND(1);%ENDOFPROGRAM",
    )
}

// "Writing orders until the buffer is full, then replying 0": one byte too few is refused, and nothing is written.
fn short_buffers<R: Print>(rt: &R) -> io::Result<()> {
    let mut object = [255u8; 36];
    let source = b"%BEGIN;SEND(1);%ENDOFPROGRAM";
    let reply = Reply(skimp::skimp_compile(source, &mut object));
    println!(rt; "object buffer one byte short: {reply}")?;
    show_bytes(rt, "object", &object)?;
    let mut sheet = [255u8; 17];
    let text = b"BOX\t0\t0\t3\nLOAD\tK\t1\nSEND\t-\t0\nSTOP\t-\t0\n";
    let reply = Reply(skimp::skimp_read_back(text, &mut sheet));
    println!(rt; "sheet buffer one byte short: {reply}")?;
    show_bytes(rt, "sheet", &sheet)
}

// "Taking a JMP after an IF for its ELSE wherever the branch leads": an ELSE where the branch leads past a SKIP, and nowhere else; a
// JMP is an instruction.
fn choices<R: Print>(rt: &R) -> io::Result<()> {
    sheets(
        rt,
        "a branch past a SKIP:BOX\t1\t0\t9\nLOAD\tD\t2\nCMP\tK\t0\nBNE\tA\t6\nLOAD\tK\t1\nSEND\t-\t0\nSKIP\tA\t8\nLOAD\tK\t2\nSEND\t-\t0\nSTOP\t-\t0\n.\
        a branch past a JMP:BOX\t1\t0\t9\nLOAD\tD\t2\nCMP\tK\t0\nBNE\tA\t6\nLOAD\tK\t1\nSEND\t-\t0\nJMP\tA\t8\nLOAD\tK\t2\nSEND\t-\t0\nSTOP\t-\t0\n.\
        a branch to a JMP:BOX\t1\t0\t9\nLOAD\tD\t2\nCMP\tK\t0\nBNE\tA\t5\nLOAD\tK\t1\nSEND\t-\t0\nJMP\tA\t8\nLOAD\tK\t2\nSEND\t-\t0\nSTOP\t-\t0\n.\
        a branch to a SKIP:BOX\t1\t0\t9\nLOAD\tD\t2\nCMP\tK\t0\nBNE\tA\t5\nLOAD\tK\t1\nSEND\t-\t0\nSKIP\tA\t8\nLOAD\tK\t2\nSEND\t-\t0\nSTOP\t-\t0\n.\
        a branch further on:BOX\t1\t0\t9\nLOAD\tD\t2\nCMP\tK\t0\nBNE\tA\t7\nLOAD\tK\t1\nSEND\t-\t0\nSKIP\tA\t8\nLOAD\tK\t2\nSEND\t-\t0\nSTOP\t-\t0\n",
    )
}

// Good objects that no sheet translates to, and the empty program, which is a sheet.
fn near_misses<R: Print>(rt: &R) -> io::Result<()> {
    sheets(
        rt,
        "T one more than is used:BOX\t1\t1\t3\nLOAD\tK\t7\nSTR\tD\t2\nSTOP\t-\t0\n.\
        a right operand that is plain and yet kept:BOX\t1\t2\t8\nLOAD\tK\t7\nSTR\tD\t3\nLOAD\tD\t2\nSTR\tD\t4\nLOAD\tD\t3\nADD\tD\t4\nSTR\tD\t2\nSTOP\t-\t0\n.\
        one temporary for both operands:BOX\t1\t2\t9\nLOAD\tK\t7\nSTR\tD\t3\nLOAD\tD\t2\nNEG\t-\t0\nSTR\tD\t3\nLOAD\tD\t3\nADD\tD\t3\nSTR\tD\t2\nSTOP\t-\t0\n.\
        a jump into the middle of an instruction:BOX\t1\t0\t4\nLOAD\tK\t7\nSTR\tD\t2\nJMP\tA\t1\nSTOP\t-\t0\n.\
        the empty program:BOX\t0\t0\t1\nSTOP\t-\t0\n",
    )
}

// "A fault is met even with no budget left": DIV behind the one step that there is budget for, and SEND with budget 0.
fn faults<R: Print>(rt: &R) -> io::Result<()> {
    let mut state = [0u8; 28];
    let mut output = [0u8; 4];
    run(
        rt,
        "fault 1",
        b"BOX\t0\t0\t3\nLOAD\tK\t7\nDIV\tK\t0\nSTOP\t-\t0\n",
        &mut state,
        &mut output,
        1,
    )?;
    state[19] = 0;
    let mut short = [0u8; 3];
    run(
        rt,
        "no room",
        b"BOX\t0\t0\t3\nNEG\t-\t0\nSEND\t-\t0\nSTOP\t-\t0\n",
        &mut state,
        &mut short,
        0,
    )?;
    show_bytes(rt, "state", &state)
}

// Each refusal of an object with its place, by run and by read-back. "Refused calls write nothing."
fn refusals<R: Print>(rt: &R) -> io::Result<()> {
    let mut state = [7u8; 28];
    refused(
        rt,
        "leading zero",
        b"BOX\t00\t0\t1\nSTOP\t-\t0\n",
        &mut state,
    )?;
    refused(
        rt,
        "wrong kind",
        b"BOX\t0\t0\t2\nNEG\tK\t0\nSTOP\t-\t0\n",
        &mut state,
    )?;
    refused(
        rt,
        "extra text",
        b"BOX\t0\t0\t1\nSTOP\t-\t0\n\n",
        &mut state,
    )?;
    refused(
        rt,
        "link word",
        b"BOX\t1\t0\t3\nSTR\tD\t2\nSTR\tD\t1\nSTOP\t-\t0\n",
        &mut state,
    )?;
    refused(
        rt,
        "far jump",
        b"BOX\t0\t0\t2\nJMP\tA\t2\nSTOP\t-\t0\n",
        &mut state,
    )?;
    refused(
        rt,
        "early stop",
        b"BOX\t0\t0\t2\nSTOP\t-\t0\nSTOP\t-\t0\n",
        &mut state,
    )?;
    refused(rt, "other state", b"BOX\t1\t0\t1\nSTOP\t-\t0\n", &mut state)?;
    show_bytes(rt, "state", &state)
}

// Runs an object from a state of no variables and temporaries, and reads it back.
fn refused<R: Print>(rt: &R, what: &str, object: &[u8], state: &mut [u8]) -> io::Result<()> {
    let mut output = [0u8; 4];
    run(rt, what, object, state, &mut output, 9)?;
    print!(rt; "read back: ")?;
    read_back(rt, object)
}
