// The text of an object, written into a lent buffer.
#![tactic(auto)]

ghost use Rattle.std.specs.Prelude.{◌≡◌, ◌≤◌, length};
ghost use Rattle.text.specs.Buffer.{filled_with};
ghost use Rattle.text.specs.Internal.{placed, put_all};
ghost use Rattle.order.specs.Limits.{most_orders};
ghost use Rattle.order.specs.Memory.{orders_in};
ghost use Rattle.order.specs.Object.{records_text, header_text, text};
ghost use Rattle.object_writer.specs.Answers.{written, reply_for, WhereFew};

use order::MOST_ORDERS;
use order_number::order_in;
use order_record::{put_record, record_length};
use text::write::{decimal_length, put_byte, put_decimal, put_fixed};

// The header: V, T and the number of orders.
fn put_header(buffer: &mut [u8], at: usize, v: u32, t: u32, n: u32) -> usize
    ensures { placed result buffer.new ≡ put_all (header_text v t n) (placed at buffer.old) }
{
    let a = put_fixed(buffer, at, b"BOX\t");
    let b = put_decimal(buffer, a, v);
    let c = put_byte(buffer, b, b'\t');
    let d = put_decimal(buffer, c, t);
    let e = put_byte(buffer, d, b'\t');
    let f = put_decimal(buffer, e, n);
    put_byte(buffer, f, b'\n')
}

// The length of the header, with a bound by which no sum of lengths overflows.
fn header_length(v: u32, t: u32, n: u32) -> usize
    ensures exact { result ≡ length (header_text v t n) }
    ensures few { result ≤ 37 }
{
    decimal_length(v) + decimal_length(t) + decimal_length(n) + 7
}

// The length of the text that `write` writes.
fn text_length(orders: &[u64], v: u32, t: u32) -> usize
    requires { length orders.now ≤ most_orders }
    ensures { result ≡ length (text v t (orders_in orders.now)) }
{
    let mut total = header_length(v, t, orders.len() as u32);
    for &w in orders {
        total += record_length(order_in(w));
    }
    total
}

// The records of the orders.
fn put_records(buffer: &mut [u8], at: usize, orders: &[u64]) -> usize
    ensures { placed result buffer.new ≡ put_all (records_text (orders_in orders.now)) (placed at buffer.old) }
{
    let mut j = at;
    for &w in orders {
        j = put_record(buffer, j, order_in(w));
    }
    j
}

// Writes the text of the object with V, T and the orders lent, of which an object has no more than MOST_ORDERS, and gives its length.
// The room for all of it is tested first, so a buffer that is too short keeps every byte.
pub fn write(orders: &[u64], v: u32, t: u32, buffer: &mut [u8]) -> Option<usize>
    ensures replied { WhereFew orders.now (written result ≡ reply_for (text v t (orders_in orders.now)) buffer.old) }
    ensures filled { WhereFew orders.now (buffer.new ≡ filled_with (text v t (orders_in orders.now)) buffer.old) }
{
    if (MOST_ORDERS as usize) < orders.len() {
        return None;
    }
    let total = text_length(orders, v, t);
    if buffer.len() < total {
        return None;
    }
    let at = put_header(buffer, 0, v, t, orders.len() as u32);
    put_records(buffer, at, orders);
    Some(total)
}
