// The message columns of an accepted code, for any list of its columns, where place j of a word is column cols_j: a basis that says which they are
// and what a word that carries a message holds elsewhere, and the test of a message.
#![tactic(auto)]

ghost use Rattle.std.specs.Prelude.{◌≡◌, ◌≤◌, length};
ghost use Rattle.refusals.specs.Rules.{fault};
ghost use Rattle.refusals.specs.Outcome.{tested};
ghost use Rattle.slices.specs.Bits.{all_bits};
ghost use Rattle.basis.specs.Table.{Room};
ghost use Rattle.parity.specs.Selected.{OnColumns};
ghost use Rattle.messages.specs.CodeBasis.{MessageColumns, CodeBasis};
ghost use Rattle.messages.specs.MessageRules.{message_rules};

use basis::Column;
use basis::elimination::parity_basis;
use basis::packed::ROW;
use field::Elem;
use params::Parameters;
use refusals::{Refusal, Rule};
use slices::{LONGEST, all_bits};

// The basis of the code in `rows` and `leads`, and k, the number of message columns.
pub fn code_basis(
    c: Parameters,
    h: &[Elem],
    cols: &[Column],
    rows: &mut [u64],
    leads: &mut [u8],
) -> usize
    requires { OnColumns c h.now cols.now × Room (length cols.now) rows.old leads.old }
    ensures { CodeBasis c h.now cols.now rows.new leads.new result }
{
    let t = c.t as usize;
    cols.len() - parity_basis(c.m, t, h, cols, rows, leads)
}

// The message columns, which are the free places of `leads`, and k. The rows of the basis are off the stack afterwards.
#[inline(never)]
pub fn message_columns(c: Parameters, h: &[Elem], cols: &[Column], leads: &mut [u8]) -> usize
    requires { OnColumns c h.now cols.now × (length cols.now ≤ length leads.old) }
    ensures { MessageColumns c h.now cols.now leads.new result }
{
    let mut rows: [u64; LONGEST * ROW] = [0; LONGEST * ROW];
    code_basis(c, h, cols, &mut rows, leads)
}

// Whether a message has the length k that is due, and `read`, where it is to hold bits, does.
pub fn check_message(k: usize, long: usize, read: &[u8]) -> Result<(), Refusal>
    ensures { result ≡ tested (fault (message_rules k long (all_bits read.now))) }
{
    if long != k {
        return Err(Refusal(Rule::Length));
    }
    if !all_bits(read) {
        return Err(Refusal(Rule::Bit));
    }
    Ok(())
}
