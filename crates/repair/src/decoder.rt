// Repair of words over any list of an accepted code's columns.
ghost use Rattle.std.specs.Prelude.{◌≡◌, length};
ghost use Rattle.parity.specs.OfCode.{of_code, OfCode};
ghost use Rattle.repair.specs.Decoding.{word_answer, word_after, Decoded};

use crate::Recovery;
use nearest::{candidate, is_code_word};
use parity::Code;
use refusals::{Refusal, Rule};
use slices::{LONGEST, all_bits, copy};

// Repair into `word`, which is used as room where there is none: 8, 10, or the number of places turned. A code word needs no locator. What the pass
// finds is the repair if few places were turned and it is a code word, and else there is none.
pub fn decode(code: &Code<'_>, received: &[u8], word: &mut [u8]) -> Recovery
    requires { (length received.now ≡ length code.now.cols.now) × (length word.old ≡ length code.now.cols.now) }
    ensures { OfCode Decoded code.now received.now result word.new }
{
    if !all_bits(received) {
        return Recovery::Refused(Refusal(Rule::Bit));
    }
    if is_code_word(code.c, code.h, code.cols, received) {
        copy(received, word);
        return Recovery::Repaired(0);
    }
    let turned = candidate(code, received, word) as u32;
    if code.c.t < turned {
        return Recovery::Refused(Refusal(Rule::TooFar));
    }
    if !is_code_word(code.c, code.h, code.cols, word) {
        return Recovery::Refused(Refusal(Rule::TooFar));
    }
    Recovery::Repaired(turned)
}

// Repair into the buffer `repaired`, which is written only if it succeeds.
pub fn repair(code: &Code<'_>, received: &[u8], repaired: &mut [u8]) -> Recovery
    requires { (length received.now ≡ length code.now.cols.now) × (length repaired.old ≡ length code.now.cols.now) }
    ensures value { result ≡ of_code word_answer code.now received.now }
    ensures repaired_after { repaired.new ≡ of_code word_after code.now received.now repaired.old }
{
    let mut word: [u8; LONGEST] = [0; LONGEST];
    let n = code.cols.len();
    let recovery = decode(code, received, &mut word[..n]);
    if let Recovery::Repaired(_) = recovery {
        repaired.copy_from_slice(&word[..n]);
    }
    recovery
}
