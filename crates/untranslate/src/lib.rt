// Reading a sheet back from orders, document 01: a guess at its fields, whether they are a sheet's, and whether that sheet translates to
// the orders that were read.
#![tactic(auto)]

ghost use Rattle.std.specs.Prelude.{◌≤◌, ◌≡◌, length};
ghost use Rattle.untranslate.specs.Internal.{Same, Again};
ghost use Rattle.untranslate.specs.Answers.{Untranslates};

use order::MOST_ORDERS;
use sheet_check::check;
use translate::translate;
use untranslate_part::guess;

// A sheet: how many instructions it has, and how many fields, which fill the front of the array.
#[derive(Clone, Copy)]
pub struct Untranslated {
    pub instructions: u32,
    pub fields: usize,
}

// Whether the first words of one array are those of another. Word by word: must-fail/first_order_not_compared.edit leaves out the first.
fn same(front: &[u64], words: &[u64]) -> bool
    requires { length words.now ≤ length front.now }
    ensures { Same front.now words.now result }
{
    for i in 0..words.len() {
        if front[i] != words[i] {
            return false;
        }
    }
    true
}

// Whether the sheet with V variables that the fields are of translates to the orders, with T temporaries.
fn translates(fields: &[u64], v: u32, t: u32, orders: &[u64]) -> bool
    ensures { Again fields.now v t orders.now result }
{
    let mut out = [0; MOST_ORDERS as usize];
    let Some(again) = translate(fields, v, &mut out) else {
        return false;
    };
    if again.temporaries != t || again.orders as usize != orders.len() {
        return false;
    }
    if out.len() < orders.len() {
        return false;
    }
    same(&out, orders)
}

// The sheet whose translation has V variables, T temporaries and the orders that are lent, or none. Free is what the array holds behind
// its fields, and all that it holds where there is none.
pub fn untranslate(orders: &[u64], v: u32, t: u32, fields: &mut [u64]) -> Option<Untranslated>
    ensures { Untranslates orders.now v t fields.old result fields.new }
{
    let n = guess(orders, v, fields);
    let instructions = check(&fields[..n], v)?;
    if translates(&fields[..n], v, t, orders) {
        Some(Untranslated {
            instructions,
            fields: n,
        })
    } else {
        None
    }
}
