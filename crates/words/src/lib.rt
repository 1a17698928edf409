// Words of an accepted code: syndrome, message and check columns, encoding, and the message of a word.
//
// The calls of this file take any input: they find the columns of the places that the setting sends. What is done for an accepted code and any of its
// columns stands in `internal`.
#![tactic(auto)]

pub mod internal;

ghost use Rattle.std.specs.Prelude.{◌≡◌};
ghost use Rattle.words.specs.Answers.{roles_answer, roles_after, syndrome_answer, syndrome_after};
ghost use Rattle.words.specs.Answers.{encode_answer, encode_after, message_answer, message_after};

use columns::{Lengths, Room, choose_columns, is_all_places};
use field::Elem;
use params::Parameters;
use refusals::Refusal;
use shortened::{Lent, Setting, begin};

// 1 for each message column and 0 for each check column into `out`, hidden or sent, and k, the number of sent message columns. It does not begin by
// `begin`, since it is of all places.
pub fn roles(c: Parameters, h: &[Elem], s: &Setting<'_>, out: &mut [u8]) -> Result<u32, Refusal>
    ensures value { result ≡ roles_answer c h.now s.now out.old }
    ensures out_after { out.new ≡ roles_after c h.now s.now out.old }
{
    let lent = Lengths {
        others: true,
        places: is_all_places(c, s.choice, s.hidden.len()) & is_all_places(c, s.choice, out.len()),
    };
    let mut room = Room::new();
    let n = choose_columns(c, h, s.choice, lent, &mut room.inverses, &mut room.columns)?;
    internal::short_roles(c, h, &room.columns[..n], s.hidden, out)
}

// The t sums of the word's columns, row by row.
pub fn syndrome(
    c: Parameters,
    h: &[Elem],
    s: &Setting<'_>,
    word: &[u8],
    out: &mut [Elem],
) -> Result<(), Refusal>
    ensures value { result ≡ syndrome_answer c h.now s.now word.now out.old }
    ensures out_after { out.new ≡ syndrome_after c h.now s.now word.now out.old }
{
    let lent = Lent {
        others: out.len() == c.t as usize,
        words: word.len() == s.places(),
    };
    let mut room = Room::new();
    match begin(c, h, s, lent, &mut room) {
        Ok(code) => internal::syndrome(code.c, code.h, code.cols, word, out),
        Err(refusal) => Err(refusal),
    }
}

// The code word that carries the message.
pub fn encode(
    c: Parameters,
    h: &[Elem],
    s: &Setting<'_>,
    message: &[u8],
    word: &mut [u8],
) -> Result<(), Refusal>
    ensures value { result ≡ encode_answer c h.now s.now message.now word.old }
    ensures word_after { word.new ≡ encode_after c h.now s.now message.now word.old }
{
    let lent = Lent {
        others: true,
        words: word.len() == s.places(),
    };
    let mut room = Room::new();
    match begin(c, h, s, lent, &mut room) {
        Ok(code) => internal::encode(code.c, code.h, code.cols, message, word),
        Err(refusal) => Err(refusal),
    }
}

// The word's entries at the message columns.
pub fn message(
    c: Parameters,
    h: &[Elem],
    s: &Setting<'_>,
    word: &[u8],
    message: &mut [u8],
) -> Result<(), Refusal>
    ensures value { result ≡ message_answer c h.now s.now word.now message.old }
    ensures message_after { message.new ≡ message_after c h.now s.now word.now message.old }
{
    let lent = Lent {
        others: true,
        words: word.len() == s.places(),
    };
    let mut room = Room::new();
    match begin(c, h, s, lent, &mut room) {
        Ok(code) => internal::message(code.c, code.h, code.cols, word, message),
        Err(refusal) => Err(refusal),
    }
}
