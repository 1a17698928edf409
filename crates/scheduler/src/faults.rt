// What refuses a call for an accepted code: the numbers of senders and of repairs, a word that is offered, and a state, which may be any.
ghost use Rattle.std.specs.Prelude.{◌≡◌, [], ◌∷◌, ◌++◌, not, ◌||◌, ◌*◌, ◌<◌, eqb, length};
ghost use Rattle.algebra.specs.Lists.{entry_of};
ghost use Rattle.algebra.specs.Parts.{part};
ghost use Rattle.refusals.specs.Outcome.{tested};
ghost use Rattle.refusals.specs.Rules.{fault};
ghost use Rattle.slices.specs.Bits.{all_bits};
ghost use Rattle.scheduler.specs.State.{state_of, all_words, dash_rules, offer_rules, state_rules};

use crate::{Dash, MOST_REPAIRS, MOST_SENDERS};
use refusals::{Refusal, Rule};
use slices::all_bits;

// Whether the numbers of senders and of repairs are in range: 18.
pub(crate) fn check_dash(d: Dash) -> Result<(), Refusal>
    ensures { result ≡ tested (fault (dash_rules d)) }
{
    if !(1..=MOST_SENDERS as u32).contains(&d.senders) {
        return Err(Refusal(Rule::Sender));
    }
    if !(1..=MOST_REPAIRS).contains(&d.repairs) {
        return Err(Refusal(Rule::Sender));
    }
    Ok(())
}

// Whether a sender may offer a word: 18, 19, or 8.
pub(crate) fn check_offer(
    d: Dash,
    sender: usize,
    word: &[u8],
    waiting: &[u8],
) -> Result<(), Refusal>
    requires { length waiting.now ≡ d.senders }
    ensures { result ≡ tested (fault (dash_rules d ++ offer_rules d sender word.now waiting.now)) }
{
    check_dash(d)?;
    if waiting.len() <= sender {
        return Err(Refusal(Rule::Sender));
    }
    let waits = waiting[sender] != 0;
    if waits {
        return Err(Refusal(Rule::Waiting));
    }
    if !all_bits(word) {
        return Err(Refusal(Rule::Bit));
    }
    Ok(())
}

// Whether the word of sender p is a word of bits, if it waits.
fn is_word(n: usize, p: usize, waiting: &[u8], words: &[u8]) -> bool
    requires { (p < length waiting.now) × (length words.now ≡ length waiting.now * n) }
    ensures { result ≡ (not (eqb (entry_of waiting.now p) 1) || all_bits (part n words.now p)) }
{
    if waiting[p] != 1 {
        return true;
    }
    // Cut by hand: `chunks_exact` asks that n is not 0, which the number of places of a code does not tell.
    let start = p * n;
    let end = start + n;
    all_bits(&words[start..end])
}

// Whether all words that wait are words of bits.
fn are_words(n: usize, waiting: &[u8], words: &[u8]) -> bool
    requires { length words.now ≡ length waiting.now * n }
    ensures { result ≡ all_words n waiting.now words.now (length waiting.now) }
{
    (0..waiting.len()).all(|p| is_word(n, p, waiting, words))
}

// Whether a state is one, of words of n places: 18, or 8.
pub(crate) fn check_state(
    d: Dash,
    n: usize,
    waiting: &[u8],
    words: &[u8],
    next: u32,
) -> Result<(), Refusal>
    requires { (length waiting.now ≡ d.senders) × (length words.now ≡ length waiting.now * n) }
    ensures { result ≡ tested (fault (dash_rules d ++ state_rules d n (state_of waiting.now words.now (next ∷ [])))) }
{
    check_dash(d)?;
    if d.senders <= next {
        return Err(Refusal(Rule::Sender));
    }
    if !all_bits(waiting) {
        return Err(Refusal(Rule::Bit));
    }
    if !are_words(n, waiting, words) {
        return Err(Refusal(Rule::Bit));
    }
    Ok(())
}
