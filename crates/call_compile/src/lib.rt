// Compile: from source bytes to the text of the object, or to a refusal.
#![tactic(auto)]

ghost use Rattle.std.specs.Prelude.{◌≡◌};
ghost use Rattle.call.specs.Reply.{wrote};
ghost use Rattle.call.specs.Compile.{compile_call};
ghost use Rattle.call_compile.specs.Internal.{OrdersWritten, ObjectWritten};

use call::{front, reply};
use front_end_forms::Failure;
use order::MOST_ORDERS;
use sheet_field::MOST_FIELDS;
use source::Refusal;

// The text of the object with V, T and the orders that are lent, or 12.
fn write_orders(orders: &[u64], v: u32, t: u32, object: &mut [u8]) -> u64
    ensures { OrdersWritten orders.now v t object.old result object.new }
{
    match object_writer::write(orders, v, t, object) {
        Some(length) => length as u64,
        None => reply(12, 0),
    }
}

// The text of the object of the sheet with V variables whose fields are lent. A source's sheet is within the limits.
fn write_object(fields: &[u64], v: u32, object: &mut [u8]) -> u64
    ensures { ObjectWritten fields.now v object.old result object.new }
{
    let mut orders = [0u64; MOST_ORDERS as usize];
    match translate::translate(fields, v, &mut orders) {
        Some(whole) => write_orders(
            front(&orders, whole.orders as usize),
            v,
            whole.temporaries,
            object,
        ),
        None => reply(Refusal::Limit.number(), 0),
    }
}

// The object of a source. The array has the places that `read` asks for, so it is never unfit. The reply is 0 with the length of its
// text, which fills the front of the buffer, or document 01's number and place of the refusal.
pub fn compile(source: &[u8], object: &mut [u8]) -> u64
    ensures { wrote result object.new ≡ compile_call source.now object.old }
{
    let mut fields = [0u64; MOST_FIELDS];
    match front_end::read(source, &mut fields) {
        Ok(sheet) => write_object(
            front(&fields, sheet.fields as usize),
            sheet.variables,
            object,
        ),
        Err(Failure::Refused(refusal, place)) => reply(refusal.number(), place),
        Err(Failure::Unfit) => reply(0, 0),
    }
}
