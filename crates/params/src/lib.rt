// The parameters of a code (01's card): width m, length n, number t of roots, offset ω and signature h; and their tests, for every call that is
// handed some.
#![tactic(auto)]

ghost use Rattle.std.specs.Prelude.{◌≡◌, ◌≤◌, length};
ghost use Rattle.refusals.specs.Outcome.{Done, tested};
ghost use Rattle.refusals.specs.Rules.{fault};
ghost use Rattle.slices.specs.Lengths.{longest};
ghost use Rattle.params.specs.Code.{is_length, is_root_count, shape_rules, code_fault};
ghost use Rattle.signature.specs.Inverses.{Inverted};

use field::Elem;
use field::internal::{is_element, is_width};
use refusals::{Refusal, Rule};
use signature::check_signature;

// The numbers of a code. Its signature goes beside them, as a slice: the definitions and their laws take the two apart, and what a call is handed may
// be no code. Once it is accepted, they go on together (`Code` of parity), while its marks are those of a call (`Setting` of shortened).
#[derive(Clone, Copy, Debug, PartialEq, Eq)]
pub struct Parameters {
    pub m: u32,
    pub n: u32,
    pub t: u32,
    pub omega: u32,
}

// Whether a code is accepted, where `buffers` says whether the call's lent buffers have their lengths. Where it is, `inverses` begins with the inverses
// of the entries. It is a slice with room for the longest code, as docs/CONTRACTS.md names it to callers, and no array.
pub fn check_code(
    c: Parameters,
    h: &[Elem],
    buffers: bool,
    inverses: &mut [Elem],
) -> Result<(), Refusal>
    requires { longest ≤ length inverses.old }
    ensures value { result ≡ tested (code_fault buffers c h.now) }
    ensures inverted { result ≡ Done → Inverted c.m h.now inverses.new }
{
    check_shape(c, h, buffers)?;
    check_signature(c.m, h, inverses)?;
    if !is_root_count(c.n, c.t) {
        return Err(Refusal(Rule::RootCount));
    }
    Ok(())
}

fn is_length(n: u32) -> bool
    ensures { result ≡ is_length n }
{
    (2 <= n) & slices::is_power(n as usize)
}

fn is_root_count(n: u32, t: u32) -> bool
    ensures { result ≡ is_root_count n t }
{
    slices::is_power(t as usize) & (t <= n / 2)
}

// 1 to 3: numbers and lengths.
fn check_shape(c: Parameters, h: &[Elem], buffers: bool) -> Result<(), Refusal>
    ensures { result ≡ tested (fault (shape_rules buffers c h.now)) }
{
    if !is_width(c.m) {
        return Err(Refusal(Rule::Width));
    }
    if !(is_length(c.n) & (h.len() == c.n as usize) & buffers) {
        return Err(Refusal(Rule::Length));
    }
    if !slices::all_elements(c.m, h) {
        return Err(Refusal(Rule::Range));
    }
    if !is_element(c.m, c.omega) {
        return Err(Refusal(Rule::Range));
    }
    Ok(())
}
