// Reading an object: its header, its records, and the checks 21 to 25 in document 01's order.
#![tactic(auto)]

ghost use Rattle.std.specs.Prelude.{◌≡◌, map, ◌<◌, drop};
ghost use Rattle.std.proofs.lemmas.List.Edits.{sets};
ghost use Rattle.order.specs.Memory.{order_word};
ghost use Rattle.order.specs.Object.{header_at, within_limits, lines_at, lines_of, reading};
ghost use Rattle.object_reader.specs.Answers.{verdict, verdict_of};
ghost use Rattle.object_reader.specs.Internal.{header_found, header_bounded, word_trouble, address_trouble, trouble_of};
ghost use Rattle.object_reader.specs.Internal.{noted_scan, ScanOf, stop_verdict, scan_verdict};

use order::{MOST_ORDERS, MOST_TEMPORARIES, MOST_VARIABLES, Order};
use order_number::put_order;
use order_record::record_at;
use text::read::{fixed_at, numeral_at};

// What a good object has: V, T and N.
#[derive(Clone, Copy)]
pub struct Frame {
    pub variables: u32,
    pub temporaries: u32,
    pub orders: u32,
}

// The first check that an object fails, with its place.
#[derive(Clone, Copy)]
pub enum Refusal {
    Header,
    Line(u32),
    Word(u32),
    Address(u32),
    Stop(u32),
}

// What is known after some records: the place behind them, how many they are, the first whose operand is no word of the frame or
// no address, and the place of the first STOP.
#[derive(Clone, Copy)]
struct Scan {
    at: usize,
    count: u32,
    trouble: Option<Refusal>,
    stop: Option<u32>,
}

#[tactic(auto, unfolding(base::specs::Choice::pick, order::specs::Object::within_limits))]
fn within_limits(v: u32, t: u32, n: u32) -> bool
    ensures { result ≡ within_limits v t n }
{
    v <= MOST_VARIABLES && t <= MOST_TEMPORARIES && n <= MOST_ORDERS && 0 < n
}

// The header and the place behind it, if there is a good one.
fn header_at(s: &[u8]) -> Option<(Frame, usize)>
    ensures found { header_found s.now result ≡ header_at s.now }
    ensures bounded { header_bounded result }
{
    let at = fixed_at(s, 0, b"BOX\t")?;
    let (variables, at) = numeral_at(s, at, b'\t')?;
    let (temporaries, at) = numeral_at(s, at, b'\t')?;
    let (orders, at) = numeral_at(s, at, b'\n')?;
    if within_limits(variables, temporaries, orders) {
        let frame = Frame {
            variables,
            temporaries,
            orders,
        };
        Some((frame, at))
    } else {
        None
    }
}

// 23: a word that is not in 2 to V+T+1; `words` is V+T+2.
#[tactic(auto, unfolding(base::specs::Choice::pick))]
fn word_trouble(w: u32, words: u32, place: u32) -> Option<Refusal>
    ensures { result ≡ word_trouble w words place }
{
    if 2 <= w && w < words {
        None
    } else {
        Some(Refusal::Word(place))
    }
}

// 24: an address that is n or more.
#[tactic(auto, unfolding(base::specs::Choice::pick))]
fn address_trouble(a: u32, n: u32, place: u32) -> Option<Refusal>
    ensures { result ≡ address_trouble a n place }
{
    if a < n {
        None
    } else {
        Some(Refusal::Address(place))
    }
}

fn trouble_of(o: Order, words: u32, n: u32, place: u32) -> Option<Refusal>
    ensures { result ≡ trouble_of words n place o }
{
    match o {
        Order::Word(_, w) | Order::Store(w) => word_trouble(w, words, place),
        Order::Jump(a) | Order::Skip(a) | Order::Branch(_, a) => address_trouble(a, n, place),
        _ => None,
    }
}

// What is known with one order more.
#[tactic(auto, unfolding(base::specs::Choice::pick))]
fn noted(scan: Scan, o: Order, at: usize, words: u32, n: u32) -> Scan
    requires { scan.count < n }
    ensures { result ≡ noted_scan words n o at scan }
{
    let place = scan.count;
    Scan {
        at,
        count: place + 1,
        trouble: scan.trouble.or(trouble_of(o, words, n, place)),
        stop: scan.stop.or(matches!(o, Order::Stop).then_some(place)),
    }
}

// Reads the good lines from a place on, at most n of them, into the array as far as it reaches.
fn read_lines(s: &[u8], at: usize, words: u32, n: u32, orders: &mut [u64]) -> Scan
    ensures scanned { ScanOf words n s.now (lines_at n (drop at s.now)) result }
    ensures ordered { orders.new ≡ sets orders.old 0 (map order_word (lines_at n (drop at s.now)).orders) }
{
    let mut scan = Scan {
        at,
        count: 0,
        trouble: None,
        stop: None,
    };
    for place in 0..n {
        let Some((o, behind)) = record_at(s, scan.at) else {
            return scan;
        };
        put_order(orders, place as usize, o);
        scan = noted(scan, o, behind, words, n);
    }
    scan
}

// 25: the last order is STOP, and no other.
#[tactic(auto, unfolding(base::specs::Choice::pick))]
fn stop_last(stop: Option<u32>, frame: Frame) -> Result<Frame, Refusal>
    requires { 0 < frame.orders }
    ensures { verdict result ≡ stop_verdict stop frame }
{
    let last = frame.orders - 1;
    match stop {
        Some(place) if place == last => Ok(frame),
        Some(place) => Err(Refusal::Stop(place)),
        None => Err(Refusal::Stop(last)),
    }
}

// The checks from 22 on.
#[tactic(auto, unfolding(base::specs::Choice::pick))]
fn judged(scan: Scan, len: usize, frame: Frame) -> Result<Frame, Refusal>
    requires { 0 < frame.orders }
    ensures { verdict result ≡ scan_verdict scan len frame }
{
    if scan.count < frame.orders {
        return Err(Refusal::Line(scan.count));
    }
    if scan.at < len {
        return Err(Refusal::Line(frame.orders));
    }
    if let Some(trouble) = scan.trouble {
        return Err(trouble);
    }
    stop_last(scan.stop, frame)
}

// Reads an object into an array of its orders, a number each. Where it is refused, the array holds the good lines before the
// first bad one.
pub fn read(s: &[u8], orders: &mut [u64]) -> Result<Frame, Refusal>
    ensures replied { verdict result ≡ verdict_of (reading s.now) }
    ensures ordered { orders.new ≡ sets orders.old 0 (map order_word (lines_of s.now)) }
{
    let Some((frame, at)) = header_at(s) else {
        return Err(Refusal::Header);
    };
    let words = frame.variables + frame.temporaries + 2;
    let scan = read_lines(s, at, words, frame.orders, orders);
    judged(scan, s.len(), frame)
}
