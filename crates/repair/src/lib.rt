// Repair of received words: the code word within t places of the word received, if there is one.
//
// `repair` takes any input. What is done for an accepted code and any of its columns stands in `decoder`.
#![tactic(auto)]

pub mod decoder;

ghost use Rattle.std.specs.Prelude.{◌≡◌};
ghost use Rattle.repair.specs.Answers.{repair_answer, repair_after};

use columns::Room;
use field::Elem;
use params::Parameters;
use refusals::Refusal;
use shortened::{Lent, Setting, begin};

// Either the repaired word, in the second buffer, with the number of places turned, or the rule that refuses it. An enum of
// its own, and no Result, since 01 asks for the form by name.
#[derive(Clone, Copy, Debug, PartialEq, Eq)]
pub enum Recovery {
    Repaired(u32),
    Refused(Refusal),
}

// Repairs the word received into the buffer `repaired`, which is written only if it succeeds.
pub fn repair(
    c: Parameters,
    h: &[Elem],
    s: &Setting<'_>,
    received: &[u8],
    repaired: &mut [u8],
) -> Recovery
    ensures value { result ≡ repair_answer c h.now s.now received.now repaired.old }
    ensures repaired_after { repaired.new ≡ repair_after c h.now s.now received.now repaired.old }
{
    let sent = s.places();
    let lent = Lent {
        others: true,
        words: (received.len() == sent) & (repaired.len() == sent),
    };
    let mut room = Room::new();
    match begin(c, h, s, lent, &mut room) {
        Err(refusal) => Recovery::Refused(refusal),
        Ok(code) => decoder::repair(&code, received, repaired),
    }
}
