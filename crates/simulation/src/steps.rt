// The steps of a ride, for an accepted code and any list of its columns: place j of a word is column cols_j. The code's basis is known, with k
// message columns.
ghost use Rattle.std.specs.Prelude.{◌≡◌, ◌≤◌, length};
ghost use Rattle.refusals.specs.Rules.{fault, unless_refused};
ghost use Rattle.slices.specs.Bits.{Bits};
ghost use Rattle.basis.specs.Table.{Form, free_count};
ghost use Rattle.parity.specs.OfCode.{of_code, OfCode};
ghost use Rattle.messages.specs.CodeBasis.{CodeBasis};
ghost use Rattle.nearest.specs.Turned.{turned};
ghost use Rattle.gears.specs.Rows.{row_bits, row_message, lamp_number, row_of};
ghost use Rattle.simulation.specs.Steps.{step_rules};
ghost use Rattle.simulation.specs.Lending.{steps_in};
ghost use Rattle.simulation.specs.Ride.{verdict_of, is_marked, step_verdict};
ghost use Rattle.simulation.specs.Lent.{LentSteps};
ghost use Rattle.simulation.specs.Parts.{tallied, Countable, Sent, StepsRidden};

use crate::Verdict;
use basis::elimination::Basis;
use gears::Row;
use parity::Code;
use refusals::{Refusal, Rule};
use rows::{Reading, based};
use slices::{LONGEST, all_bits};

// The steps that are lent to a ride: the gears, the lamps, and the marks of all steps one after the other, three lists as C lends them.
#[derive(Clone, Copy)]
pub struct Steps<'a> {
    pub gears: &'a [u8],
    pub lamps: &'a [u8],
    pub turned: &'a [u8],
}

// Where the counts stand in the list that C lends.
const STEPS: usize = 0;

const RIGHT: usize = 1;

const HELD: usize = 2;

const WRONG: usize = 3;

pub const COUNTS: usize = 4;

// The row of a step that can be made: 8 before 11.
fn check_step(gear: u32, lamp: u32, marks: &[u8]) -> Result<Row, Refusal>
    ensures { result ≡ unless_refused (fault (step_rules gear lamp marks.now)) Err (Ok (row_of gear lamp)) }
{
    let bits = all_bits(marks);
    let row = Row::allowed(gear, lamp);
    if !bits {
        return Err(Refusal(Rule::Bit));
    }
    row.ok_or(Refusal(Rule::NoSuchRow))
}

// Turns the bits that are marked.
fn turn(marks: &[u8], word: &mut [u8])
    requires { Bits marks.now × (length marks.now ≡ length word.old) }
    ensures { word.new ≡ turned (length word.old) (is_marked marks.now) word.old }
{
    slices::add(marks, word);
}

// What was read, beside what was sent.
fn verdict(reading: Reading, sent: Row) -> Verdict
    ensures { result ≡ verdict_of sent.gear (lamp_number sent.lamp) reading }
{
    match reading {
        Reading::Read(row, _) => {
            let as_sent = row == sent;
            if as_sent {
                Verdict::Right
            } else {
                Verdict::Wrong
            }
        }
        Reading::Refused(_) => Verdict::Held,
    }
}

// Counts a step that was made.
fn tally(verdict: Verdict, counts: &mut [u32])
    requires { Countable counts.old }
    ensures { counts.new ≡ tallied verdict counts.old }
{
    counts[STEPS] += 1;
    match verdict {
        Verdict::Right => counts[RIGHT] += 1,
        Verdict::Held => counts[HELD] += 1,
        Verdict::Wrong => counts[WRONG] += 1,
    }
}

// The word of a row, which is made in `message` first, with the marked bits turned.
fn send(row: Row, basis: &Basis, marks: &[u8], message: &mut [u8], word: &mut [u8])
    requires form { Form (length word.old) basis.now.rows basis.now.leads × (free_count (length word.old) basis.now.leads ≤ length message.old) }
    requires bits { Bits marks.now × (length marks.now ≡ length word.old) }
    ensures { Sent (length word.old) basis.now.rows basis.now.leads
        (row_message (length message.old) row.gear (lamp_number row.lamp)) marks.now word.new }
{
    based::write(
        row.gear,
        row.lamp.into(),
        &basis.rows,
        &basis.leads,
        message,
        word,
    );
    turn(marks, word);
}

// Makes a step: the row is written, the marked bits are turned, and what arrives is read.
fn make(code: &Code<'_>, basis: &Basis, k: usize, row: Row, marks: &[u8]) -> Verdict
    requires code_basis { OfCode CodeBasis code.now basis.now.rows basis.now.leads k × (row_bits ≤ k) }
    requires bits { Bits marks.now × (length marks.now ≡ length code.now.cols.now) }
    ensures { result ≡ of_code step_verdict code.now row.gear (lamp_number row.lamp) marks.now }
{
    let mut message: [u8; LONGEST] = [0; LONGEST];
    let mut word: [u8; LONGEST] = [0; LONGEST];
    let mut repaired: [u8; LONGEST] = [0; LONGEST];
    let n = code.cols.len();
    send(row, basis, marks, &mut message[..k], &mut word[..n]);
    let reading = based::read(
        code,
        &basis.leads,
        &word[..n],
        &mut message[..k],
        &mut repaired[..n],
    );
    verdict(reading, row)
}

// Makes one step after the other, and counts them, up to the first that cannot be made.
pub fn make_all(
    code: &Code<'_>,
    basis: &Basis,
    k: usize,
    steps: &Steps<'_>,
    counts: &mut [u32],
) -> Result<(), Refusal>
    requires code_basis { OfCode CodeBasis code.now basis.now.rows basis.now.leads k × (row_bits ≤ k) }
    requires lent_steps { LentSteps (length code.now.cols.now) (steps_in steps.now) counts.old }
    ensures { OfCode StepsRidden code.now (steps_in steps.now) result counts.new }
{
    counts.fill(0);
    let n = code.cols.len();
    // Cut by hand: `chunks_exact` asks that n is not 0, which a code on its columns does not tell.
    for (i, gear) in steps.gears.iter().enumerate() {
        let gear = u32::from(*gear);
        let lamp = u32::from(steps.lamps[i]);
        let start = i * n;
        let end = start + n;
        let marks = &steps.turned[start..end];
        let row = check_step(gear, lamp, marks)?;
        let verdict = make(code, basis, k, row, marks);
        tally(verdict, counts);
    }
    Ok(())
}
