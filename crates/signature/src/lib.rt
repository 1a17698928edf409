// 01's three conditions on a signature, for a signature of elements whose length is a power of two, and the roots and the support of one that keeps
// them. What they are made of, a test for zeros, one for equal entries and the inverses of all entries, serves other lists of elements too.
#![tactic(auto)]

ghost use Rattle.std.specs.Prelude.{◌≡◌, true, ◌≤◌, ◌<◌, ◌^◌, length};
ghost use Rattle.algebra.specs.Distinct.{distinct};
ghost use Rattle.algebra.specs.Lists.{entry_of};
ghost use Rattle.algebra.specs.Tabulate.{tabulate};
ghost use Rattle.algebra.specs.Filling.{filled};
ghost use Rattle.refusals.specs.Rules.{fault};
ghost use Rattle.refusals.specs.Outcome.{Done, tested};
ghost use Rattle.slices.specs.Lengths.{is_power};
ghost use Rattle.signature.specs.Inverses.{added, Entries, Inverted, before};
ghost use Rattle.signature.specs.Tests.{no_zero, affine, linear, signature_rules};
ghost use Rattle.signature.specs.TestLaws.{EqualToFirst};

use field::Elem;
use field::internal::{inverse, product};
use refusals::{Refusal, Rule};

// 4 to 6: 01's three conditions on a signature.
pub fn check_signature(m: u32, h: &[Elem], inverses: &mut [Elem]) -> Result<(), Refusal>
    requires { Entries m h.now inverses.old }
    ensures value { result ≡ tested (fault (signature_rules m h.now)) }
    ensures inverted { result ≡ Done → Inverted m h.now inverses.new }
{
    if !no_zero(h) {
        return Err(Refusal(Rule::Zero));
    }
    if !is_linear(m, h, inverses) {
        return Err(Refusal(Rule::NotLinear));
    }
    if !all_different(h) {
        return Err(Refusal(Rule::Repeated));
    }
    Ok(())
}

// Whether no entry is zero.
pub fn no_zero(h: &[Elem]) -> bool
    ensures { result ≡ no_zero h.now }
{
    !h.contains(&0)
}

// 01's rule for 1/h. The inverses are computed once.
fn is_linear(m: u32, h: &[Elem], inverses: &mut [Elem]) -> bool
    requires { Entries m h.now inverses.old × (no_zero h.now ≡ true) }
    ensures value { result ≡ linear m h.now }
    ensures inverted { Inverted m h.now inverses.new }
{
    invert(m, h, inverses);
    is_affine(h.len(), inverses)
}

// The inverses of the entries, at their places, for the cost of one inverse: with P_i the product of the entries before place i, 1/h_i is
// P_i · 1/P_(i+1), and 1/P_i is 1/P_(i+1) · h_i.
pub fn invert(m: u32, h: &[Elem], inverses: &mut [Elem])
    requires { Entries m h.now inverses.old × (no_zero h.now ≡ true) }
    ensures { Inverted m h.now inverses.new }
{
    let all = multiply(m, h, inverses);
    let mut rest = inverse(m, all);
    // By index, downwards: two lists are read at it, and one is written.
    for i in (0..h.len()).rev() {
        inverses[i] = product(m, inverses[i], rest);
        rest = product(m, rest, h[i]);
    }
}

// The product of the entries before each place, at the place, and the product of all.
fn multiply(m: u32, h: &[Elem], products: &mut [Elem]) -> Elem
    requires { Entries m h.now products.old }
    ensures value { (result ≡ before m h.now (length h.now)) × (result < 2 ^ m) }
    ensures products_after { products.new ≡ filled (before m h.now) (length h.now) products.old }
{
    let mut before: Elem = 1;
    // By index: the list that is written may be longer than the signature.
    for (i, entry) in h.iter().enumerate() {
        products[i] = before;
        before = product(m, before, *entry);
    }
    before
}

// The rule at every pair, i from 0 and, for each i, j from 0, up to the first pair that breaks it.
fn is_affine(n: usize, inverses: &[Elem]) -> bool
    requires { (is_power n ≡ true) × (n ≤ length inverses.now) }
    ensures { result ≡ affine n (entry_of inverses.now) }
{
    let mut kept = true;
    // Nested loops left by a label: the form that the owner asks for here.
    'scan: for i in 0..n {
        let sum = inverses[i] ^ inverses[0];
        for j in 0..n {
            let at = inverses[i ^ j];
            let expected = inverses[j] ^ sum;
            if at != expected {
                kept = false;
                break 'scan;
            }
        }
    }
    kept
}

// Whether no two entries are equal, in a list where that need only be asked of the first entry and the others.
pub fn all_different(h: &[Elem]) -> bool
    requires { EqualToFirst h.now }
    ensures { result ≡ distinct h.now }
{
    match h.split_first() {
        Some((first, others)) => !others.contains(first),
        None => true,
    }
}

// The roots that the inverses and the offset give, as many as the buffer holds.
pub fn store_roots(inverses: &[Elem], offset: Elem, roots: &mut [Elem])
    requires { length roots.old ≤ length inverses.now }
    ensures { roots.new ≡ tabulate (length roots.old) (added inverses.now offset) }
{
    // By index: std says nothing of what is written after an adapter of `iter_mut` other than `enumerate`, as `zip`.
    for (i, root) in roots.iter_mut().enumerate() {
        *root = inverses[i] ^ offset;
    }
}

// The support that they give: what an offset with 1/h_0 in it gives for roots.
pub fn store_support(inverses: &[Elem], offset: Elem, support: &mut [Elem])
    requires { (0 < length inverses.now) × (length support.old ≤ length inverses.now) }
    ensures { support.new
        ≡ tabulate (length support.old) (added inverses.now (added inverses.now offset 0)) }
{
    let first = inverses[0];
    store_roots(inverses, first ^ offset, support);
}
