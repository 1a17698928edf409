// Rows of an accepted code whose basis is known, for any list of its columns: place j of a word is column cols_j.
//
// The basis is only looked at, so that a caller who keeps it can write and read many rows.
ghost use Rattle.std.specs.Prelude.{◌≡◌, ◌≤◌, length};
ghost use Rattle.basis.specs.Table.{free_count, Form, Carried};
ghost use Rattle.messages.specs.CodeBasis.{MessageColumns};
ghost use Rattle.parity.specs.OfCode.{OfCode};
ghost use Rattle.gears.specs.Rows.{row_bits, row_message};
ghost use Rattle.rows.specs.Parts.{ReadInto};

use crate::Reading;
use gears::{is_row_message, place_row, row_in};
use parity::Code;
use refusals::{Refusal, Rule};
use repair::Recovery;
use repair::decoder::decode;
use systematic::{carry, take_out};

// The word with the row's message, which is made in `message`, at the free places, and the others as the rows of the basis say.
pub fn write(gear: u32, lamp: u32, rows: &[u64], leads: &[u8], message: &mut [u8], word: &mut [u8])
    requires { Form (length word.old) rows.now leads.now × (free_count (length word.old) leads.now ≤ length message.old) }
    ensures { Carried (length word.old) rows.now leads.now
        (row_message (length message.old) gear lamp) word.new }
{
    place_row(gear, lamp, message);
    carry(message, rows, leads, word);
}

// The row that the word received carries: what repair refuses it by, 11, or the row. The word is repaired into `word`, which is used as room where no
// row is read; what it carries is taken out into `message`, and looked at only if the repair succeeded.
pub fn read(
    code: &Code<'_>,
    leads: &[u8],
    received: &[u8],
    message: &mut [u8],
    word: &mut [u8],
) -> Reading
    requires message_columns { OfCode MessageColumns code.now leads.now (length message.old) × (row_bits ≤ length message.old) }
    requires received_len { (length received.now ≡ length code.now.cols.now) × (length word.old ≡ length code.now.cols.now) }
    ensures { OfCode ReadInto code.now received.now result word.new }
{
    let recovery = decode(code, received, word);
    // The form that 01 asks for here.
    let Recovery::Repaired(turned) = recovery else {
        let Recovery::Refused(refusal) = recovery else {
            unreachable!()
        };
        return Reading::Refused(refusal);
    };
    take_out(word, leads, message);
    if !is_row_message(message) {
        return Reading::Refused(Refusal(Rule::NoSuchRow));
    }
    Reading::Read(row_in(message), turned)
}
