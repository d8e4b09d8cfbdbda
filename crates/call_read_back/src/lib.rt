// Read-back: from the text of an object to the text of the sheet that translates to it, or to a refusal.
#![tactic(auto)]

ghost use Rattle.std.specs.Prelude.{◌≡◌};
ghost use Rattle.sheet_field.specs.Memory.{fields_at};
ghost use Rattle.sheet_text.specs.TextOfFields.{text_of_fields};
ghost use Rattle.call.specs.Reply.{wrote, text_writing};
ghost use Rattle.call.specs.ReadingBack.{read_back_call};
ghost use Rattle.call_read_back.specs.Internal.{SheetWritten};

use call::{front, refusal, reply};
use order::MOST_ORDERS;
use sheet_field::MOST_FIELDS;

// The text of the sheet with V, a number of instructions and the fields that are lent, or 32.
fn write_fields(fields: &[u64], v: u32, instructions: u32, sheet: &mut [u8]) -> u64
    ensures { wrote result sheet.new
        ≡ text_writing 32 (text_of_fields v instructions (fields_at 0 fields.now)) sheet.old }
{
    match sheet_text::write(fields, v, instructions, sheet) {
        Some(length) => length as u64,
        None => reply(32, 0),
    }
}

// The text of the sheet whose translation has V variables, T temporaries and the orders that are lent, or 31.
fn write_sheet(orders: &[u64], v: u32, t: u32, sheet: &mut [u8]) -> u64
    ensures { SheetWritten orders.now v t sheet.old result sheet.new }
{
    let mut fields = [0; MOST_FIELDS];
    match untranslate::untranslate(orders, v, t, &mut fields) {
        Some(read) => write_fields(front(&fields, read.fields), v, read.instructions, sheet),
        None => reply(31, 0),
    }
}

// The sheet of an object. The reply is 0 with the length of its text, which fills the front of the buffer, or document 01's
// number and place of the refusal.
pub fn read_back(object: &[u8], sheet: &mut [u8]) -> u64
    ensures { wrote result sheet.new ≡ read_back_call object.now sheet.old }
{
    let mut orders = [0; MOST_ORDERS as usize];
    match object_reader::read(object, &mut orders) {
        Ok(frame) => write_sheet(
            front(&orders, frame.orders as usize),
            frame.variables,
            frame.temporaries,
            sheet,
        ),
        Err(reason) => refusal(Err(reason)),
    }
}
