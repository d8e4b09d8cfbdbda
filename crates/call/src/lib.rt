// The number in which a call replies, and the part of an array that it lends on.
#![tactic(auto)]

ghost use Rattle.std.specs.Prelude.{◌≡◌, take};
ghost use Rattle.object_reader.specs.Answers.{verdict};
ghost use Rattle.call.specs.Reply.{reply as reply_of};
ghost use Rattle.call.specs.Answers.{verdict_reply};

use object_reader::{Frame, Refusal};

pub fn reply(number: u32, value: u32) -> u64
    ensures { result ≡ reply_of number value }
{
    number as u64 * 4294967296 + value as u64
}

// The first n words of an array, or all of them.
pub fn front(words: &[u64], n: usize) -> &[u64]
    ensures { result.now ≡ take n words.now }
{
    &words[..n.min(words.len())]
}

// The reply to an object that is refused; 0 for one that is good.
pub fn refusal(reading: Result<Frame, Refusal>) -> u64
    ensures { result ≡ verdict_reply (verdict reading) }
{
    match reading {
        Ok(_) => reply(0, 0),
        Err(Refusal::Header) => reply(21, 0),
        Err(Refusal::Line(place)) => reply(22, place),
        Err(Refusal::Word(place)) => reply(23, place),
        Err(Refusal::Address(place)) => reply(24, place),
        Err(Refusal::Stop(place)) => reply(25, place),
    }
}
