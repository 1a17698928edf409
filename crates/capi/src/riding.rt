// A ride on the bench.
ghost use Rattle.std.specs.Prelude.{◌≡◌};
ghost use Rattle.shortened.specs.Setting.{short_code};
ghost use Rattle.simulation.specs.Steps.{steps_of};
ghost use Rattle.simulation.specs.Answers.{ride_answer, ride_after};
ghost use Rattle.wire.specs.Wire.{code, outcome_code};

use field::Elem;
use params::Parameters;

#[unsafe(no_mangle)]
pub extern "C" fn zov_ride(
    m: u32,
    n: u32,
    t: u32,
    omega: u32,
    h: &[Elem],
    hidden: &[u8],
    gears: &[u8],
    lamps: &[u8],
    turned: &[u8],
    counts: &mut [u32],
) -> u32
    ensures value { result
        ≡ outcome_code
        (ride_answer (code m n t omega) h.now (short_code hidden.now) (steps_of gears.now lamps.now
        turned.now)
        counts.old) }
    ensures counts_after { counts.new
        ≡ ride_after (code m n t omega) h.now (short_code hidden.now) (steps_of gears.now lamps.now
        turned.now)
        counts.old }
{
    wire::outcome_code(simulation::ride(
        Parameters { m, n, t, omega },
        h,
        hidden,
        gears,
        lamps,
        turned,
        counts,
    ))
}
