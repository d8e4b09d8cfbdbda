// The machine that carries out orders, document 01: what it holds, what an order does to it and what a run is (specs/), and
// the laws of runs (proofs/).
#![tactic(auto)]

// What the machine holds beside the words of the frame: the accumulator, the next order, the count of numbers sent, and the
// ending: 0 none, 1 to 4 that fault, 20 stopped.
// The ending is a number: a state's bytes carry document 01's number of it, and the definitions of specs/ speak of any number that a
// state may hold.
#[derive(Clone, Copy)]
pub struct Registers {
    pub acc: u32,
    pub next: usize,
    pub sent: u64,
    pub ending: u32,
}

// The endings: document 01's number of the fault that SEND meets where the output is full, and the number that stands for
// stopped.
pub const OUTPUT_FULL: u32 = 4;

pub const STOPPED: u32 = 20;
