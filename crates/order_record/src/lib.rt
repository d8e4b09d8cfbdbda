// The record of an order in object text: read at a place, and written.
#![tactic(auto)]

ghost use Rattle.std.specs.Prelude.{◌≡◌, ◌≤◌, length, drop};
ghost use Rattle.text.specs.Internal.{behind, placed, put_all};
ghost use Rattle.order.specs.Memory.{order_of};
ghost use Rattle.order.specs.Object.{heading, record_text, record_at};
ghost use Rattle.order_record.specs.Internal.{order_found, heading_at, number_after, Likely};

use base::part;
use order::Order;
use order_number::{number_of, operand_of, order_of};
use text::read::{fixed_at, numeral_at};
use text::write::{decimal_length, put_byte, put_decimal, put_fixed};

// The names and kinds of the orders, by their numbers, each with the tab behind it: seven bytes each, a shorter one with spaces
// behind it. These tables are statics, since a constant is stored anew at each call of a function that names it.
static HEADINGS: [u8; 266] = *b"STOP\t-\tSEND\t-\tNEG\t-\t NOT\t-\t JMP\tA\t BE\tA\t  \
    BNE\tA\t BLT\tA\t BLE\tA\t BGT\tA\t BGE\tA\t STR\tD\t \
    LOAD\tD\tADD\tD\t SUB\tD\t MLT\tD\t DIV\tD\t EXP\tD\t \
    SHL\tD\t SHR\tD\t AND\tD\t OR\tD\t  XOR\tD\t CMP\tD\t \
    LOAD\tK\tADD\tK\t SUB\tK\t MLT\tK\t DIV\tK\t EXP\tK\t \
    SHL\tK\t SHR\tK\t AND\tK\t OR\tK\t  XOR\tK\t CMP\tK\t SKIP\tA\tCOND\tK\t";

// The lengths of these, without the spaces.
static LENGTHS: [u8; 38] = [
    7, 7, 6, 6, 6, 5, 6, 6, 6, 6, 6, 6, 7, 6, 6, 6, 6, 6, 6, 6, 6, 5, 6, 6, 7, 6, 6, 6, 6, 6, 6, 6,
    6, 5, 6, 6, 7, 7,
];

// The number of an order by a sum of its first three letters. Orders with a word stand for those with a number too.
static BY_LETTERS: [u8; 64] = [
    0, 0, 17, 0, 0, 5, 16, 0, 7, 6, 18, 0, 0, 0, 0, 0, 19, 10, 0, 0, 0, 0, 23, 0, 3, 0, 0, 0, 4, 0,
    0, 36, 9, 0, 0, 0, 37, 0, 0, 0, 14, 0, 0, 0, 0, 0, 13, 21, 11, 12, 0, 0, 1, 0, 15, 0, 0, 8, 22,
    2, 0, 0, 20, 0,
];

// The name and kind of the order with the number k, those of STOP where there is none.
fn heading(k: u8) -> &'static [u8]
    ensures row { result.now ≡ heading (order_of k 0) }
    ensures some { 2 ≤ length result.now }
    ensures few { length result.now ≤ 7 }
{
    if k < 38 {
        return part(&HEADINGS, 7 * k as usize, LENGTHS[k as usize] as usize);
    }
    part(&HEADINGS, 0, 7)
}

// The place behind the name and kind of the order with the number k, if there is one and they stand there.
fn heading_at(s: &[u8], at: usize, k: u8) -> Option<usize>
    ensures { behind s.now result ≡ heading_at k (drop at s.now) }
{
    if k < 38 {
        fixed_at(s, at, heading(k))
    } else {
        None
    }
}

// The number in the record of an order with the number k. Kind - has number 0, the operand of its orders.
fn number_after(s: &[u8], at: usize, k: u8) -> Option<(Order, usize)>
    ensures { order_found s.now result ≡ number_after k (drop at s.now) }
{
    let (v, i) = numeral_at(s, at, b'\n')?;
    let o = order_of(k, v);
    if operand_of(o) == v {
        Some((o, i))
    } else {
        None
    }
}

// The number of the one order whose name and kind may stand at the front of a text. Free is what it is where none does.
fn likely(s: &[u8]) -> u8
    ensures { Likely s.now result }
{
    let a = base::at(s, 0, 0) as usize;
    let b = base::at(s, 1, 0) as usize;
    let c = base::at(s, 2, 0) as usize;
    let k = BY_LETTERS[(10 * a + 8 * b + c) % 64];
    // only an order with a word stands for one with a number too; SKIP and COND, from 24 on, do not, and COND has kind K
    if k < 24 && base::at(s, heading(k).len() - 2, 0) == b'K' {
        k + 12
    } else {
        k
    }
}

// The record at a place: the order whose name and kind stand there, with its number, and the place behind it.
pub fn record_at(s: &[u8], at: usize) -> Option<(Order, usize)>
    ensures { order_found s.now result ≡ record_at (drop at s.now) }
{
    let k = likely(part(s, at, 7));
    let i = heading_at(s, at, k)?;
    number_after(s, i, k)
}

// The record of an order.
pub fn put_record(buffer: &mut [u8], at: usize, o: Order) -> usize
    ensures { placed result buffer.new ≡ put_all (record_text o) (placed at buffer.old) }
{
    let i = put_fixed(buffer, at, heading(number_of(o)));
    let j = put_decimal(buffer, i, operand_of(o));
    put_byte(buffer, j, b'\n')
}

// The length of a record, with a bound by which no sum of lengths overflows.
pub fn record_length(o: Order) -> usize
    ensures exact { result ≡ length (record_text o) }
    ensures few { result ≤ 18 }
{
    heading(number_of(o)).len() + decimal_length(operand_of(o)) + 1
}
