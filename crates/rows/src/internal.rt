// Rows of an accepted code, for any list of its columns: place j of a word is column cols_j.
ghost use Rattle.std.specs.Prelude.{◌≡◌, length};
ghost use Rattle.refusals.specs.Ending.{Ended};
ghost use Rattle.parity.specs.OfCode.{of_code};
ghost use Rattle.rows.specs.Answers.{write_rules, row_word, reading_answer, reading_after};

use crate::{Reading, based};
use basis::elimination::Basis;
use gears::{ROW_BITS, Row};
use messages::{code_basis, message_columns};
use parity::Code;
use refusals::{Refusal, Rule};
use slices::LONGEST;

// The word of a row into `word`, or 12 or 11. Gear and lamp are numbers as C hands them in, since 12 comes before 11. Its basis is on the stack only here.
#[inline(never)]
pub fn write(code: &Code<'_>, gear: u32, lamp: u32, word: &mut [u8]) -> Result<(), Refusal>
    requires { length word.old ≡ length code.now.cols.now }
    ensures { Ended result (of_code write_rules code.now gear lamp) word.old
        (of_code row_word code.now gear lamp) word.new }
{
    let mut basis = Basis::new();
    let mut message: [u8; LONGEST] = [0; LONGEST];
    let k = code_basis(code.c, code.h, code.cols, &mut basis.rows, &mut basis.leads);
    if k < ROW_BITS {
        return Err(Refusal(Rule::TooFewBits));
    }
    let Some(row) = Row::allowed(gear, lamp) else {
        return Err(Refusal(Rule::NoSuchRow));
    };
    based::write(
        row.gear,
        row.lamp.into(),
        &basis.rows,
        &basis.leads,
        &mut message[..k],
        word,
    );
    Ok(())
}

// The row that the word received carries: 12, what repair refuses it by, 11, or the row with the repaired word in `repaired`. The word is repaired
// apart, and copied out only if it carries a row.
pub fn read(code: &Code<'_>, received: &[u8], repaired: &mut [u8]) -> Reading
    requires { (length received.now ≡ length code.now.cols.now) × (length repaired.old ≡ length code.now.cols.now) }
    ensures value { result ≡ of_code reading_answer code.now received.now }
    ensures repaired_after { repaired.new ≡ of_code reading_after code.now received.now repaired.old }
{
    let mut leads: [u8; LONGEST] = [0; LONGEST];
    let mut word: [u8; LONGEST] = [0; LONGEST];
    let mut message: [u8; LONGEST] = [0; LONGEST];
    let k = message_columns(code.c, code.h, code.cols, &mut leads);
    if k < ROW_BITS {
        return Reading::Refused(Refusal(Rule::TooFewBits));
    }
    let n = code.cols.len();
    let reading = based::read(code, &leads, received, &mut message[..k], &mut word[..n]);
    if let Reading::Read(_, _) = reading {
        repaired.copy_from_slice(&word[..n]);
    }
    reading
}
