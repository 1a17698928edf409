// Essences: document 004's short form of a signature, e + 1 values for 2^e entries. The values are 1/h at 2^s plus 1/h_0, for each s below e, and
// then 1/h_0; and 1/h_i is the sum of the last value and of those at the bits of i.
//
// The calls of this file take any input: what breaks a rule is refused by its number, and the lent buffer is written only where the call is Ok.
#![tactic(auto)]

ghost use Rattle.std.specs.Prelude.{◌≡◌, true, not, [], ◌∷◌, ℕ, suc, ◌+◌, ◌-◌, ◌^◌, ◌≤◌, length};
ghost use Rattle.algebra.specs.Lists.{entry_of};
ghost use Rattle.algebra.specs.Tabulate.{tabulate};
ghost use Rattle.refusals.specs.Rules.{◌unless◌, fault};
ghost use Rattle.refusals.specs.Outcome.{Done, tested};
ghost use Rattle.refusals.specs.Ending.{Ended};
ghost use Rattle.signature.specs.Inverses.{Inverted};
ghost use Rattle.slices.specs.Lengths.{longest, longest_log};
ghost use Rattle.essence.specs.Answers.{is_value_count, shape_rules, essence_fault, essence_answer, essence_after, signature_answer, signature_after};
ghost use Rattle.essence.specs.Choices.{choice_sum, dependent};
ghost use Rattle.essence.specs.Essence.{essence_from, signature_of};
ghost use Rattle.essence.specs.Shape.{Shape};

use field::Elem;
use field::internal::is_width;
use refusals::{Refusal, Rule};
use signature::{all_different, check_signature, invert, no_zero};
use slices::{LONGEST, LONGEST_LOG};

// The essence of a signature.
pub fn essence(m: u32, h: &[Elem], out: &mut [Elem]) -> Result<(), Refusal>
    ensures value { result ≡ essence_answer m h.now out.old }
    ensures out_after { out.new ≡ essence_after m h.now out.old }
{
    let mut inverses: [Elem; LONGEST] = [0; LONGEST];
    check_essence(m, h, out.len(), &mut inverses)?;
    store_essence(&inverses, out);
    Ok(())
}

// The signature of an essence.
pub fn signature(m: u32, essence: &[Elem], out: &mut [Elem]) -> Result<(), Refusal>
    ensures value { result ≡ signature_answer m essence.now out.old }
    ensures out_after { out.new ≡ signature_after m essence.now out.old }
{
    let mut inverses: [Elem; LONGEST] = [0; LONGEST];
    let n = out.len();
    check_shape(m, essence, n, essence.len())?;
    convert(m, essence, &mut inverses[..n], out)
}

// 1 to 3, for a signature of n entries and an essence of k values, of which a is given.
fn check_shape(m: u32, a: &[Elem], n: usize, k: usize) -> Result<(), Refusal>
    ensures { result ≡ tested (fault (shape_rules m a.now n k)) }
{
    if !is_width(m) {
        return Err(Refusal(Rule::Width));
    }
    if !is_value_count(k) {
        return Err(Refusal(Rule::Length));
    }
    if n != power(k - 1) {
        return Err(Refusal(Rule::Length));
    }
    if !slices::all_elements(m, a) {
        return Err(Refusal(Rule::Range));
    }
    Ok(())
}

// Whether an essence may have k values.
fn is_value_count(k: usize) -> bool
    ensures { result ≡ is_value_count k }
{
    (2..=LONGEST_LOG + 1).contains(&k)
}

// 2^e, where that is no more than the longest length.
fn power(e: usize) -> usize
    requires { e ≤ longest_log }
    ensures { result ≡ 2 ^ e }
{
    1 << e
}

// Whether a signature, whose essence has room for k values, is what it should be, and then `inverses` begins with the inverses of the entries.
fn check_essence(m: u32, h: &[Elem], k: usize, inverses: &mut [Elem]) -> Result<(), Refusal>
    requires { longest ≤ length inverses.old }
    ensures value { result ≡ tested (essence_fault m h.now k) }
    ensures inverted { result ≡ Done → Inverted m h.now inverses.new }
{
    check_shape(m, h, h.len(), k)?;
    check_signature(m, h, inverses)
}

// The essence from the inverses of the entries, as many values as the buffer holds: two or more, by the lemma that is named.
#[tactic(auto, using(crate::proofs::ShapeLaws::value_count_is))]
fn store_essence(inverses: &[Elem], out: &mut [Elem])
    requires { (is_value_count (length out.old) ≡ true) × (2 ^ (length out.old - 1) ≤ length inverses.now) }
    ensures { out.new ≡ essence_from (length out.old - 1) (entry_of inverses.now) }
{
    let first = inverses[0];
    let e = out.len() - 1;
    for (s, value) in out[..e].iter_mut().enumerate() {
        *value = inverses[power(s)] ^ first;
    }
    out[e] = first;
}

// The sum of the values at the bits of `choice` that are 1, which is the same at every width.
fn choice_sum(values: &[Elem], choice: usize) -> Elem
    requires { length values.now ≤ suc longest_log }
    ensures { (m : ℕ) → result ≡ choice_sum m values.now choice }
{
    let mut sum: Elem = 0;
    for (s, value) in values.iter().enumerate() {
        let taken = (choice >> s) % 2;
        sum ^= taken as Elem * *value;
    }
    sum
}

// The inverses of the signature's entries, as many as the buffer holds: the bit above those of i takes the last value.
fn store_inverses(essence: &[Elem], inverses: &mut [Elem])
    requires { (length essence.now ≤ suc longest_log) × (length inverses.old ≤ longest) }
    ensures { (m : ℕ)
        → inverses.new
        ≡ tabulate (length inverses.old) (λ (i : ℕ). choice_sum m essence.now (length inverses.old + i)) }
{
    let n = inverses.len();
    for (i, inverse) in inverses.iter_mut().enumerate() {
        *inverse = choice_sum(essence, n + i);
    }
}

// Stores the signature of the essence, if that is independent. The inverses of the entries tell: none is zero and no two are equal exactly if no choice
// of values, but the empty one, sums to zero.
fn convert(m: u32, essence: &[Elem], inverses: &mut [Elem], out: &mut [Elem]) -> Result<(), Refusal>
    requires { Shape m essence.now (length inverses.old) (length essence.now) × (length out.old ≡ length inverses.old) }
    ensures { Ended result ((17 unless not (dependent m essence.now)) ∷ []) out.old (signature_of m (length essence.now - 1) essence.now) out.new }
{
    store_inverses(essence, inverses);
    if !(no_zero(inverses) & all_different(inverses)) {
        return Err(Refusal(Rule::Dependent));
    }
    invert(m, inverses, out);
    Ok(())
}
