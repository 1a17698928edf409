// The listing of the code on a sheet, printed.
//
// The calls of this file take any text: what is no sheet, or the sheet of a code that is refused, is refused by its number.
#![tactic(auto)]

ghost use Rattle.std.specs.Prelude.{◌≡◌, [], ◌∷◌};
ghost use Rattle.fields.specs.Fields.{line_text};
ghost use Rattle.sheets.specs.Held.{SheetRead};
ghost use Rattle.listing.specs.Answers.{sheet_listing, stored_answer, stored_after, listing_answer, listing_after, printed_answer, printed_after};

use field::Elem;
use fields::FIELD;
use lines::{CODE_LINE, COLUMN_LINE};
use refusals::{Refusal, Rule};
use sheets::{check_sheet, parameters_of};
use slices::LONGEST;

// The listing of the code on a sheet at the front of `out`, and its length.
pub fn listing(text: &[u8], out: &mut [u8]) -> Result<u32, Refusal>
    ensures value { result ≡ listing_answer text.now out.old }
    ensures out_after { out.new ≡ listing_after text.now out.old }
{
    let mut h: [Elem; LONGEST] = [0; LONGEST];
    let mut inverses: [Elem; LONGEST] = [0; LONGEST];
    check_sheet(text, &mut h, &mut inverses)?;
    sheet_listing(text, &h, &inverses, out)
}

// The same, with the line of its number in place of the listing where the text is refused: only a short buffer is refused.
pub fn printed(text: &[u8], out: &mut [u8]) -> Result<u32, Refusal>
    ensures value { result ≡ printed_answer text.now out.old }
    ensures out_after { out.new ≡ printed_after text.now out.old }
{
    let mut h: [Elem; LONGEST] = [0; LONGEST];
    let mut inverses: [Elem; LONGEST] = [0; LONGEST];
    if let Err(refusal) = check_sheet(text, &mut h, &mut inverses) {
        return number_line(refusal.into(), out);
    }
    sheet_listing(text, &h, &inverses, out)
}

// The listing of the code on a sheet at the front of `out`, where the signature and its inverses were read.
fn sheet_listing(text: &[u8], h: &[Elem], inverses: &[Elem], out: &mut [u8]) -> Result<u32, Refusal>
    requires { SheetRead text.now h.now inverses.now }
    ensures value { result ≡ stored_answer (sheet_listing text.now) out.old }
    ensures out_after { out.new ≡ stored_after (sheet_listing text.now) out.old }
{
    let c = parameters_of(text);
    let n = c.n as usize;
    let length = CODE_LINE + n * COLUMN_LINE;
    if out.len() < length {
        return Err(Refusal(Rule::Length));
    }
    lines::write_listing(c, &h[..n], inverses, out);
    Ok(length as u32)
}

// The line of a number at the front of `out`.
fn number_line(number: u32, out: &mut [u8]) -> Result<u32, Refusal>
    ensures value { result ≡ stored_answer (line_text (number ∷ [])) out.old }
    ensures out_after { out.new ≡ stored_after (line_text (number ∷ [])) out.old }
{
    if out.len() < FIELD + 1 {
        return Err(Refusal(Rule::Length));
    }
    let line = [number];
    Ok(fields::put_line(&line, 0, out) as u32)
}
