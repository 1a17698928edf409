// Gear rows: a gear and a lamp written as a code word, and read from a word received, which is repaired first.
//
// The calls take any input. What is done for an accepted code and any of its columns stands in `internal`, and what is done once the basis of the code
// is known in `based`.
#![tactic(auto)]

pub mod based;
mod internal;

ghost use Rattle.std.specs.Prelude.{◌≡◌};
ghost use Rattle.rows.specs.Answers.{write_answer, write_after, read_answer, read_after};

use columns::Room;
use field::Elem;
use gears::Row;
use params::Parameters;
use refusals::Refusal;
use shortened::{Lent, Setting, begin};

// What reading gives: the row, with the number of places in which the word was repaired, or the rule that refuses it. An enum of its
// own, and no Result, since 01 asks for the form by name.
#[derive(Clone, Copy, Debug, PartialEq, Eq)]
pub enum Reading {
    Read(Row, u32),
    Refused(Refusal),
}

// Writes the word of a row into the buffer `word`.
pub fn write_row(
    c: Parameters,
    h: &[Elem],
    s: &Setting<'_>,
    gear: u32,
    lamp: u32,
    word: &mut [u8],
) -> Result<(), Refusal>
    ensures value { result ≡ write_answer c h.now s.now gear lamp word.old }
    ensures word_after { word.new ≡ write_after c h.now s.now gear lamp word.old }
{
    let lent = Lent {
        others: true,
        words: word.len() == s.places(),
    };
    let mut room = Room::new();
    match begin(c, h, s, lent, &mut room) {
        Ok(code) => internal::write(&code, gear, lamp, word),
        Err(refusal) => Err(refusal),
    }
}

// Reads the row that the word received carries, repairing it into the buffer `repaired`, which is written only if a row is read.
pub fn read_row(
    c: Parameters,
    h: &[Elem],
    s: &Setting<'_>,
    received: &[u8],
    repaired: &mut [u8],
) -> Reading
    ensures value { result ≡ read_answer c h.now s.now received.now repaired.old }
    ensures repaired_after { repaired.new ≡ read_after c h.now s.now received.now repaired.old }
{
    let sent = s.places();
    let lent = Lent {
        others: true,
        words: (received.len() == sent) & (repaired.len() == sent),
    };
    let mut room = Room::new();
    match begin(c, h, s, lent, &mut room) {
        Err(refusal) => Reading::Refused(refusal),
        Ok(code) => internal::read(&code, received, repaired),
    }
}
