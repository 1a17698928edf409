// Dyadic blocks over the fields GF(2^m). A block is given by its signature, s elements, s a power of two from 1 to the longest; its matrix has
// entry i, j equal to the signature at i ⊕ j.
//
// The calls of this file take any input: what is out of range is refused by its number, and the lent buffer is written only where the call is
// Ok. What they are made of, for slices that have been checked, stands in `dyadic`.
#![tactic(auto)]

ghost use Rattle.std.specs.Prelude.{◌≡◌};
ghost use Rattle.refusals.specs.Outcome.{tested};
ghost use Rattle.blocks.specs.Answers.{size_fault, pair_fault, block_fault};
ghost use Rattle.blocks.specs.Answers.{sum_answer, sum_after, product_answer, product_after, inverse_answer, inverse_after};

use field::Elem;
use refusals::{Refusal, Rule};

pub fn sum(m: u32, a: &[Elem], b: &[Elem], out: &mut [Elem]) -> Result<(), Refusal>
    ensures value { result ≡ sum_answer m a.now b.now out.old }
    ensures out_after { out.new ≡ sum_after m a.now b.now out.old }
{
    check_pair(m, a, b, out.len())?;
    dyadic::sum(a, b, out);
    Ok(())
}

pub fn product(m: u32, a: &[Elem], b: &[Elem], out: &mut [Elem]) -> Result<(), Refusal>
    ensures value { result ≡ product_answer m a.now b.now out.old }
    ensures out_after { out.new ≡ product_after m a.now b.now out.old }
{
    check_pair(m, a, b, out.len())?;
    out.fill(0);
    dyadic::add_product(m, a, b, out);
    Ok(())
}

pub fn inverse(m: u32, a: &[Elem], out: &mut [Elem]) -> Result<(), Refusal>
    ensures value { result ≡ inverse_answer m a.now out.old }
    ensures out_after { out.new ≡ inverse_after m a.now out.old }
{
    check_block(m, a, out.len())?;
    let sum = dyadic::total(a);
    let zero = sum == 0;
    if zero {
        return Err(Refusal(Rule::Singular));
    }
    dyadic::divide(m, a, field::internal::product(m, sum, sum), out);
    Ok(())
}

// Whether a width, a block's length s and the length n of the buffer for a result are what they should be.
fn check_size(m: u32, s: usize, n: usize) -> Result<(), Refusal>
    ensures { result ≡ tested (size_fault m s n) }
{
    if !field::internal::is_width(m) {
        return Err(Refusal(Rule::Width));
    }
    if !slices::is_power(s) {
        return Err(Refusal(Rule::Length));
    }
    if n != s {
        return Err(Refusal(Rule::Length));
    }
    Ok(())
}

// The same for a block.
fn check_block(m: u32, a: &[Elem], n: usize) -> Result<(), Refusal>
    ensures { result ≡ tested (block_fault m a.now n) }
{
    check_size(m, a.len(), n)?;
    if !slices::all_elements(m, a) {
        return Err(Refusal(Rule::Range));
    }
    Ok(())
}

// The same for two blocks.
fn check_pair(m: u32, a: &[Elem], b: &[Elem], n: usize) -> Result<(), Refusal>
    ensures { result ≡ tested (pair_fault m a.now b.now n) }
{
    check_size(m, a.len(), n)?;
    let same = b.len() == a.len();
    if !same {
        return Err(Refusal(Rule::Length));
    }
    if !slices::all_elements(m, a) {
        return Err(Refusal(Rule::Range));
    }
    if !slices::all_elements(m, b) {
        return Err(Refusal(Rule::Range));
    }
    Ok(())
}
