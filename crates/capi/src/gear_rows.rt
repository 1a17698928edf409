// Gear rows.
ghost use Rattle.std.specs.Prelude.{◌≡◌};
ghost use Rattle.shortened.specs.Setting.{short_code};
ghost use Rattle.rows.specs.Answers.{write_answer, write_after, read_answer, read_after};
ghost use Rattle.wire.specs.Wire.{code, outcome_code, reading_code};

use field::Elem;
use params::Parameters;
use shortened::Setting;

#[unsafe(no_mangle)]
pub extern "C" fn zov_write_row(
    m: u32,
    n: u32,
    t: u32,
    omega: u32,
    h: &[Elem],
    hidden: &[u8],
    gear: u32,
    lamp: u32,
    word: &mut [u8],
) -> u32
    ensures value { result ≡ outcome_code (write_answer (code m n t omega) h.now (short_code hidden.now) gear lamp word.old) }
    ensures word_after { word.new ≡ write_after (code m n t omega) h.now (short_code hidden.now) gear lamp word.old }
{
    let s = Setting::whole_code(hidden);
    wire::outcome_code(rows::write_row(Parameters { m, n, t, omega }, h, &s, gear, lamp, word))
}

#[unsafe(no_mangle)]
pub extern "C" fn zov_read_row(
    m: u32,
    n: u32,
    t: u32,
    omega: u32,
    h: &[Elem],
    hidden: &[u8],
    received: &[u8],
    repaired: &mut [u8],
) -> u32
    ensures value { result
        ≡ reading_code
        (read_answer (code m n t omega) h.now (short_code hidden.now) received.now repaired.old) }
    ensures repaired_after { repaired.new
        ≡ read_after (code m n t omega) h.now (short_code hidden.now) received.now repaired.old }
{
    let s = Setting::whole_code(hidden);
    wire::reading_code(rows::read_row(Parameters { m, n, t, omega }, h, &s, received, repaired))
}
