// The calls on codes (01's cards): whether one is accepted, and whether two are the same. They take any input, and refuse what breaks a rule by its
// number.
#![tactic(auto)]

ghost use Rattle.std.specs.Prelude.{◌≡◌, ℕ};
ghost use Rattle.refusals.specs.Outcome.{tested};
ghost use Rattle.refusals.specs.Rules.{fault};
ghost use Rattle.codes.specs.Answers.{check_answer, roots_after, support_after, lowest, card_rules, same_answer};
ghost use Rattle.codes.specs.Same.{same_code};

use basis::Column;
use columns::Room;
use field::Elem;
use params::Parameters;
use parity::points;
use refusals::Refusal;
use shortened::{Lent, Setting, begin, list_sent};
use slices::LONGEST;

// Whether a code is accepted, with its marks. Where it is, `roots` holds z_i = 1/h_i + ω and `support` L_j = 1/h_j + 1/h_0 + ω, n of each.
pub fn check(
    c: Parameters,
    h: &[Elem],
    hidden: &[u8],
    roots: &mut [Elem],
    support: &mut [Elem],
) -> Result<(), Refusal>
    ensures value { result ≡ check_answer c h.now hidden.now roots.old support.old }
    ensures roots_after { roots.new ≡ roots_after c h.now hidden.now roots.old support.old }
    ensures support_after { support.new ≡ support_after c h.now hidden.now roots.old support.old }
{
    let n = c.n as usize;
    let lent = Lent {
        others: (roots.len() == n) & (support.len() == n),
        words: true,
    };
    let s = Setting::whole_code(hidden);
    let mut room = Room::new();
    match begin(c, h, &s, lent, &mut room) {
        Ok(code) => {
            points::roots(&code, roots);
            points::support(&code, support);
            Ok(())
        }
        Err(refusal) => Err(refusal),
    }
}

// Whether two codes are the same: whether m, n, t, ω, h and the marks agree.
pub fn same(
    c1: Parameters,
    h1: &[Elem],
    hidden1: &[u8],
    c2: Parameters,
    h2: &[Elem],
    hidden2: &[u8],
) -> Result<bool, Refusal>
    ensures { result ≡ same_answer c1 h1.now hidden1.now c2 h2.now hidden2.now }
{
    lower(check_card(c1, h1, hidden1), check_card(c2, h2, hidden2))?;
    Ok(agree(c1, h1, hidden1, c2, h2, hidden2))
}

// Whether a code is accepted with its marks, where nothing is lent.
fn check_card(c: Parameters, h: &[Elem], hidden: &[u8]) -> Result<(), Refusal>
    ensures { result ≡ tested (fault (card_rules c h.now hidden.now)) }
{
    let lent = Lent {
        others: true,
        words: true,
    };
    let s = Setting::whole_code(hidden);
    let mut columns: [Column; LONGEST] = [0; LONGEST];
    list_sent(c, h, &s, lent, &mut columns)?;
    Ok(())
}

// Of two tests the refusal with the lower number, or the only one.
fn lower(a: Result<(), Refusal>, b: Result<(), Refusal>) -> Result<(), Refusal>
    ensures { (j k : ℕ) → a ≡ tested j → b ≡ tested k → result ≡ tested (lowest j k) }
{
    let Err(first) = a else {
        return b;
    };
    let Err(second) = b else {
        return a;
    };
    if second.0 < first.0 {
        return b;
    }
    a
}

// Part by part, as C lends them: a struct of them would be taken apart at each definition.
fn agree(
    c1: Parameters,
    h1: &[Elem],
    hidden1: &[u8],
    c2: Parameters,
    h2: &[Elem],
    hidden2: &[u8],
) -> bool
    ensures { result ≡ same_code c1 h1.now hidden1.now c2 h2.now hidden2.now }
{
    (c1 == c2) & (h1 == h2) & (hidden1 == hidden2)
}
