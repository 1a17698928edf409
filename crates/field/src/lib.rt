// The fields GF(2^m) of 01's table, m from 2 to 16. An element is a number below 2^m; bit i is the coefficient of u^i.
//
// The calls of this file take any input: what is out of range is refused by its number. Calls for code that has checked its numbers already
// stand in `internal`.
#![tactic(auto)]

pub mod internal;

ghost use Rattle.std.specs.Prelude.{◌≡◌};
ghost use Rattle.refusals.specs.Outcome.{tested};
ghost use Rattle.field.specs.Answers.{element_fault, pair_fault, sum_answer, product_answer, inverse_answer};

use refusals::{Refusal, Rule};

// An element of any of the fields.
pub type Elem = u16;

pub fn sum(m: u32, a: u32, b: u32) -> Result<Elem, Refusal>
    ensures { result ≡ sum_answer m a b }
{
    check_pair(m, a, b)?;
    Ok((a ^ b) as Elem)
}

pub fn product(m: u32, a: u32, b: u32) -> Result<Elem, Refusal>
    ensures { result ≡ product_answer m a b }
{
    check_pair(m, a, b)?;
    Ok(internal::product(m, a as Elem, b as Elem))
}

pub fn inverse(m: u32, a: u32) -> Result<Elem, Refusal>
    ensures { result ≡ inverse_answer m a }
{
    check_element(m, a)?;
    Ok(internal::inverse(m, a as Elem))
}

// Whether a width and an element of it are what they should be.
fn check_element(m: u32, a: u32) -> Result<(), Refusal>
    ensures { result ≡ tested (element_fault m a) }
{
    if !internal::is_width(m) {
        return Err(Refusal(Rule::Width));
    }
    if !internal::is_element(m, a) {
        return Err(Refusal(Rule::Range));
    }
    Ok(())
}

// The same for two elements.
fn check_pair(m: u32, a: u32, b: u32) -> Result<(), Refusal>
    ensures { result ≡ tested (pair_fault m a b) }
{
    // Returned by hand and not by `?`, so that a must-fail edit can change what is returned here alone.
    if let Err(refusal) = check_element(m, a) {
        return Err(refusal);
    }
    if !internal::is_element(m, b) {
        return Err(Refusal(Rule::Range));
    }
    Ok(())
}
