// A state as bytes: include/skimp.h says which.
#![tactic(auto)]

ghost use Rattle.std.specs.Prelude.{◌≡◌, ◌+◌, ◌*◌, ◌≤◌, length};
ghost use Rattle.std.proofs.lemmas.List.Edits.{sets};
ghost use Rattle.order.specs.Limits.{most_words};
ghost use Rattle.skimp_state.specs.State.{number_at, number_bytes, registers_of, register_bytes, words_at, words_bytes};

use base::{at, put};
use machine::Registers;

// The number in four bytes, highest first.
fn load_word(s: &[u8], i: usize) -> u32
    requires { i ≤ 20 + 4 * most_words }
    ensures { result ≡ number_at 4 i s.now }
{
    u32::from_be_bytes([
        at(s, i, 0),
        at(s, i + 1, 0),
        at(s, i + 2, 0),
        at(s, i + 3, 0),
    ])
}

pub fn registers(s: &[u8]) -> Registers
    ensures { result ≡ registers_of s.now }
{
    let high = load_word(s, 8) as u64;
    Registers {
        acc: load_word(s, 0),
        next: load_word(s, 4) as usize,
        sent: high * 4294967296 + load_word(s, 12) as u64,
        ending: load_word(s, 16),
    }
}

// The words of the frame, as many as fit.
pub fn load_words(s: &[u8], words: &mut [u32])
    requires { length words.old ≤ most_words }
    ensures { words.new ≡ words_at (length words.old) 20 s.now }
{
    for (i, w) in words.iter_mut().enumerate() {
        *w = load_word(s, 20 + 4 * i);
    }
}

// A number in four bytes, highest first.
fn store_word(s: &mut [u8], i: usize, w: u32)
    requires { i ≤ 20 + 4 * most_words }
    ensures { s.new ≡ sets s.old i (number_bytes 4 w) }
{
    let [a, b, c, d] = w.to_be_bytes();
    put(s, i, a);
    put(s, i + 1, b);
    put(s, i + 2, c);
    put(s, i + 3, d);
}

pub fn store_registers(s: &mut [u8], r: Registers)
    ensures { s.new ≡ sets s.old 0 (register_bytes r) }
{
    store_word(s, 0, r.acc);
    store_word(s, 4, (r.next % 4294967296) as u32);
    store_word(s, 8, (r.sent / 4294967296) as u32);
    store_word(s, 12, (r.sent % 4294967296) as u32);
    store_word(s, 16, r.ending);
}

pub fn store_words(s: &mut [u8], words: &[u32])
    requires { length words.now ≤ most_words }
    ensures { s.new ≡ sets s.old 20 (words_bytes words.now) }
{
    for (i, &w) in words.iter().enumerate() {
        store_word(s, 20 + 4 * i, w);
    }
}
