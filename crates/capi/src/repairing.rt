// Repair of received words.
ghost use Rattle.std.specs.Prelude.{◌≡◌};
ghost use Rattle.shortened.specs.Setting.{short_code};
ghost use Rattle.repair.specs.Answers.{repair_answer, repair_after};
ghost use Rattle.wire.specs.Wire.{code, recovery_code};

use field::Elem;
use params::Parameters;
use shortened::Setting;

#[unsafe(no_mangle)]
pub extern "C" fn zov_repair(
    m: u32,
    n: u32,
    t: u32,
    omega: u32,
    h: &[Elem],
    hidden: &[u8],
    received: &[u8],
    repaired: &mut [u8],
) -> u32
    ensures value { result
        ≡ recovery_code
        (repair_answer (code m n t omega) h.now (short_code hidden.now) received.now repaired.old) }
    ensures repaired_after { repaired.new
        ≡ repair_after (code m n t omega) h.now (short_code hidden.now) received.now repaired.old }
{
    let s = Setting::whole_code(hidden);
    wire::recovery_code(repair::repair(Parameters { m, n, t, omega }, h, &s, received, repaired))
}
