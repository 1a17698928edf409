// A ride on the bench: rows of a code are written, turned and read, step by step, and what becomes of them is counted, so that a loom can be tried
// before its code is chosen.
//
// The code is checked once, and its basis made once, for all the steps of a ride.
#![tactic(auto)]

mod steps;

ghost use Rattle.std.specs.Prelude.{◌≡◌, length};
ghost use Rattle.parity.specs.OfCode.{OfCode};
ghost use Rattle.shortened.specs.Setting.{short_code};
ghost use Rattle.simulation.specs.Steps.{steps_of};
ghost use Rattle.simulation.specs.Lending.{steps_in};
ghost use Rattle.simulation.specs.Answers.{ride_answer, ride_after};
ghost use Rattle.simulation.specs.Lent.{LentSteps};
ghost use Rattle.simulation.specs.Parts.{RideEnded};

use basis::elimination::Basis;
use columns::{Room, is_parts_length};
use field::Elem;
use gears::ROW_BITS;
use messages::code_basis;
use params::Parameters;
use parity::Code;
use refusals::{Refusal, Rule};
use shortened::{Lent, Setting, begin};
use steps::Steps;

// The most steps of a ride.
const LONGEST_RIDE: usize = 1000;

// What a step ends in: the row is read as it was sent, reading refuses it, or another row is read.
#[derive(Clone, Copy, Debug, PartialEq, Eq)]
pub enum Verdict {
    Right,
    Held,
    Wrong,
}

// Rides the steps, and counts into the buffer `counts`: the steps, those that were right, those that were held, and those that were wrong. Where a
// step cannot be made the ride ends, with the counts of the steps before it.
pub fn ride(
    c: Parameters,
    h: &[Elem],
    hidden: &[u8],
    gears: &[u8],
    lamps: &[u8],
    turned: &[u8],
    counts: &mut [u32],
) -> Result<(), Refusal>
    ensures value { result
        ≡ ride_answer c h.now (short_code hidden.now) (steps_of gears.now lamps.now turned.now)
        counts.old }
    ensures counts_after { counts.new
        ≡ ride_after c h.now (short_code hidden.now) (steps_of gears.now lamps.now turned.now)
        counts.old }
{
    let s = Setting::whole_code(hidden);
    let count = gears.len();
    let others = (count <= LONGEST_RIDE) & (lamps.len() == count) & (counts.len() == steps::COUNTS);
    let lent = Lent {
        others,
        words: is_parts_length(turned.len(), count, s.places()),
    };
    let mut room = Room::new();
    match begin(c, h, &s, lent, &mut room) {
        Ok(code) => {
            let steps = Steps {
                gears,
                lamps,
                turned,
            };
            ride_on(&code, &steps, counts)
        }
        Err(refusal) => Err(refusal),
    }
}

// The ride for an accepted code and any list of its columns: 12, or what ends the ride.
#[inline(never)]
fn ride_on(code: &Code<'_>, steps: &Steps<'_>, counts: &mut [u32]) -> Result<(), Refusal>
    requires { LentSteps (length code.now.cols.now) (steps_in steps.now) counts.old }
    ensures { OfCode RideEnded code.now (steps_in steps.now) counts.old result counts.new }
{
    let mut basis = Basis::new();
    let k = code_basis(code.c, code.h, code.cols, &mut basis.rows, &mut basis.leads);
    if k < ROW_BITS {
        return Err(Refusal(Rule::TooFewBits));
    }
    steps::make_all(code, &basis, k, steps, counts)
}
