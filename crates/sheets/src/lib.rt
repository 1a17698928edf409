// A sheet read: whether a text is one, and the code on it.
#![tactic(auto)]

ghost use Rattle.std.specs.Prelude.{◌≡◌, true, ◌≤◌, length, take};
ghost use Rattle.refusals.specs.Outcome.{Done, tested};
ghost use Rattle.slices.specs.Lengths.{longest};
ghost use Rattle.sheets.specs.Sheet.{second, sheet_parameters, sheet_n, sheet_h, is_sheet};
ghost use Rattle.sheets.specs.Fault.{sheet_fault};
ghost use Rattle.sheets.specs.Held.{SheetRead};

use field::Elem;
use fields::FIELD;
use params::{Parameters, check_code};
use refusals::{Refusal, Rule};
use slices::LONGEST;

// Where line two of a sheet begins.
const SECOND: usize = 4 * FIELD + 1;

// The length of the longest sheet.
pub const LONGEST_SHEET: usize = SECOND + LONGEST * FIELD + 1;

fn is_sheet(text: &[u8]) -> bool
    ensures { result ≡ is_sheet text.now }
{
    if text.len() < SECOND {
        return false;
    }
    if !fields::is_line(text, 0, 4) {
        return false;
    }
    let n = fields::value_at(text, FIELD) as usize;
    if LONGEST < n {
        return false;
    }
    if text.len() != SECOND + n * FIELD + 1 {
        return false;
    }
    fields::is_line(text, SECOND, n)
}

// The numbers of line one.
pub fn parameters_of(text: &[u8]) -> Parameters
    requires { second ≤ length text.now }
    ensures { result ≡ sheet_parameters text.now }
{
    Parameters {
        m: fields::value_at(text, 0),
        n: fields::value_at(text, FIELD),
        t: fields::value_at(text, 2 * FIELD),
        omega: fields::value_at(text, 3 * FIELD),
    }
}

// The entries of the signature on a sheet, as the first n of `h`.
fn read_signature(text: &[u8], h: &mut [Elem])
    requires { (is_sheet text.now ≡ true) × (longest ≤ length h.old) }
    ensures { take (sheet_n text.now) h.new ≡ sheet_h text.now }
{
    let n = fields::value_at(text, FIELD) as usize;
    fields::read_line(text, SECOND, &mut h[..n]);
}

// Whether a text is the sheet of an accepted code. Then `h` begins with the entries of the signature, and `inverses` with their inverses.
pub fn check_sheet(text: &[u8], h: &mut [Elem], inverses: &mut [Elem]) -> Result<(), Refusal>
    requires { (longest ≤ length h.old) × (longest ≤ length inverses.old) }
    ensures value { result ≡ tested (sheet_fault text.now) }
    ensures sheet_read { result ≡ Done → SheetRead text.now h.new inverses.new }
{
    if !is_sheet(text) {
        return Err(Refusal(Rule::NoSheet));
    }
    read_signature(text, h);
    let c = parameters_of(text);
    let n = c.n as usize;
    check_code(c, &h[..n], true, inverses)
}
