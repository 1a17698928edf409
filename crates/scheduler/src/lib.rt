// Several senders on one code. Each has at most one word waiting; a round hands out the waiting words that are code words, and repairs the others in
// turn, so many in a round, so that no sender starves.
//
// The caller keeps the state: `waiting`, a mark for each sender, 1 where it has a word waiting; `words`, a word for each, one after the other; and
// `next`, a single number, the sender whose turn it is. C lends them one by one, and they go on so: `waiting` and `next` are written, and a struct that
// held their `&mut` would need a clause in each contract that it keeps them. The code is checked once a call.
#![tactic(auto)]

mod faults;
mod rounds;

ghost use Rattle.std.specs.Prelude.{◌≡◌, length};
ghost use Rattle.shortened.specs.Setting.{short_code};
ghost use Rattle.scheduler.specs.State.{state_of};
ghost use Rattle.scheduler.specs.Answers.{start_answer, start_waiting, start_next, offer_answer, offer_waiting, offer_words};
ghost use Rattle.scheduler.specs.Answers.{round_answer, waiting_after, next_after, answers_after, handed_after};
ghost use Rattle.scheduler.specs.Parts.{StartEnded, OfferEnded, LentOffer};

use columns::{Room, is_parts_length};
use field::Elem;
use params::Parameters;
use refusals::Refusal;
use shortened::{Lent, Setting, begin};
use slices::copy;

// The most senders, and the most repairs in a round.
pub const MOST_SENDERS: usize = 8;

pub const MOST_REPAIRS: u32 = 8;

// The answer to a sender whose word did not leave: the pattern of INT32_MIN, a number as the others are in the list that C lends.
pub const NONE: u32 = 1 << 31;

// How many senders a dash listens to, and how many words it repairs in a round.
#[derive(Clone, Copy, Debug, PartialEq, Eq)]
pub struct Dash {
    pub senders: u32,
    pub repairs: u32,
}

// Starts a dash: no word waits, and it is the turn of sender 0.
pub fn start(
    c: Parameters,
    h: &[Elem],
    hidden: &[u8],
    d: Dash,
    waiting: &mut [u8],
    next: &mut [u32],
) -> Result<(), Refusal>
    ensures value { result ≡ start_answer c h.now (short_code hidden.now) d waiting.old next.old }
    ensures waiting_after { waiting.new ≡ start_waiting c h.now (short_code hidden.now) d waiting.old next.old }
    ensures next_after { next.new ≡ start_next c h.now (short_code hidden.now) d waiting.old next.old }
{
    let s = Setting::whole_code(hidden);
    let lent = Lent {
        others: (waiting.len() == d.senders as usize) & (next.len() == 1),
        words: true,
    };
    let mut room = Room::new();
    match begin(c, h, &s, lent, &mut room) {
        Ok(_) => start_on(d, waiting, next),
        Err(refusal) => Err(refusal),
    }
}

// The start for an accepted code, or 18.
fn start_on(d: Dash, waiting: &mut [u8], next: &mut [u32]) -> Result<(), Refusal>
    requires { (length waiting.old ≡ d.senders) × (length next.old ≡ 1) }
    ensures { StartEnded d waiting.old next.old result waiting.new next.new }
{
    faults::check_dash(d)?;
    waiting.fill(0);
    next[0] = 0;
    Ok(())
}

// Offers a word of a sender, which then waits.
pub fn offer(
    c: Parameters,
    h: &[Elem],
    hidden: &[u8],
    d: Dash,
    sender: u32,
    word: &[u8],
    waiting: &mut [u8],
    words: &mut [u8],
) -> Result<(), Refusal>
    ensures value { result ≡ offer_answer c h.now (short_code hidden.now) d sender word.now waiting.old
        words.old }
    ensures waiting_after { waiting.new
        ≡ offer_waiting c h.now (short_code hidden.now) d sender word.now waiting.old
        words.old }
    ensures words_after { words.new
        ≡ offer_words c h.now (short_code hidden.now) d sender word.now waiting.old words.old }
{
    let s = Setting::whole_code(hidden);
    let senders = d.senders as usize;
    let sent = s.places();
    let lent = Lent {
        others: waiting.len() == senders,
        words: (word.len() == sent) & is_parts_length(words.len(), senders, sent),
    };
    let mut room = Room::new();
    match begin(c, h, &s, lent, &mut room) {
        Ok(_) => offer_on(d, sender as usize, word, waiting, words),
        Err(refusal) => Err(refusal),
    }
}

// The offer for an accepted code, or 18, 19 or 8.
fn offer_on(
    d: Dash,
    sender: usize,
    word: &[u8],
    waiting: &mut [u8],
    words: &mut [u8],
) -> Result<(), Refusal>
    requires { LentOffer d word.now waiting.old words.old }
    ensures { OfferEnded d sender word.now waiting.old words.old result waiting.new words.new }
{
    faults::check_offer(d, sender, word, waiting)?;
    // Cut by hand, as in `rounds`.
    let start = sender * word.len();
    let end = start + word.len();
    copy(word, &mut words[start..end]);
    waiting[sender] = 1;
    Ok(())
}

// Makes a round. Every word that leaves is told in `answers` what repair alone answers for it, and handed out in its part of `handed`.
pub fn round(
    c: Parameters,
    h: &[Elem],
    hidden: &[u8],
    d: Dash,
    waiting: &mut [u8],
    words: &[u8],
    next: &mut [u32],
    answers: &mut [u32],
    handed: &mut [u8],
) -> Result<(), Refusal>
    ensures value { result
        ≡ round_answer c h.now (short_code hidden.now) d (state_of waiting.old words.now next.old)
        answers.old handed.old }
    ensures waiting_after { waiting.new
        ≡ waiting_after c h.now (short_code hidden.now) d (state_of waiting.old words.now
        next.old)
        answers.old handed.old }
    ensures next_after { next.new
        ≡ next_after c h.now (short_code hidden.now) d (state_of waiting.old words.now next.old)
        answers.old handed.old }
    ensures answers_after { answers.new
        ≡ answers_after c h.now (short_code hidden.now) d (state_of waiting.old words.now
        next.old)
        answers.old handed.old }
    ensures handed_after { handed.new
        ≡ handed_after c h.now (short_code hidden.now) d (state_of waiting.old words.now next.old)
        answers.old handed.old }
{
    let s = Setting::whole_code(hidden);
    let senders = d.senders as usize;
    let others = (waiting.len() == senders) & (next.len() == 1) & (answers.len() == senders);
    let sent = s.places();
    let words_long = is_parts_length(words.len(), senders, sent);
    let handed_long = is_parts_length(handed.len(), senders, sent);
    let lent = Lent {
        others,
        words: words_long & handed_long,
    };
    let mut room = Room::new();
    match begin(c, h, &s, lent, &mut room) {
        Ok(code) => rounds::round_on(&code, d, waiting, words, next, answers, handed),
        Err(refusal) => Err(refusal),
    }
}
