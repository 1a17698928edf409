// The calls on words for a selection of a code's blocks, a shift for each. Any number may stand in either list. C has a function of its own for each.
ghost use Rattle.std.specs.Prelude.{◌≡◌};
ghost use Rattle.shortened.specs.Setting.{short_selection};
ghost use Rattle.words.specs.Answers.{roles_answer, roles_after, syndrome_answer, syndrome_after, encode_answer, encode_after, message_answer, message_after};
ghost use Rattle.repair.specs.Answers.{repair_answer, repair_after};
ghost use Rattle.rows.specs.Answers.{write_answer, write_after, read_answer, read_after};
ghost use Rattle.wire.specs.Wire.{code, outcome_code, counted_code, recovery_code, reading_code};

use field::Elem;
use params::Parameters;
use shortened::Setting;

#[unsafe(no_mangle)]
pub extern "C" fn zov_selection_roles(
    m: u32,
    n: u32,
    t: u32,
    omega: u32,
    h: &[Elem],
    blocks: &[u32],
    shifts: &[u32],
    hidden: &[u8],
    roles: &mut [u8],
) -> u32
    ensures value { result
        ≡ counted_code
        (roles_answer (code m n t omega) h.now (short_selection blocks.now shifts.now hidden.now)
        roles.old) }
    ensures roles_after { roles.new
        ≡ roles_after (code m n t omega) h.now (short_selection blocks.now shifts.now hidden.now)
        roles.old }
{
    let c = Parameters { m, n, t, omega };
    let s = Setting::selection(blocks, shifts, hidden);
    wire::value_code(words::roles(c, h, &s, roles))
}

#[unsafe(no_mangle)]
pub extern "C" fn zov_selection_syndrome(
    m: u32,
    n: u32,
    t: u32,
    omega: u32,
    h: &[Elem],
    blocks: &[u32],
    shifts: &[u32],
    hidden: &[u8],
    word: &[u8],
    out: &mut [Elem],
) -> u32
    ensures value { result
        ≡ outcome_code
        (syndrome_answer (code m n t omega) h.now (short_selection blocks.now shifts.now hidden.now)
        word.now out.old) }
    ensures out_after { out.new
        ≡ syndrome_after (code m n t omega) h.now (short_selection blocks.now shifts.now hidden.now)
        word.now out.old }
{
    let c = Parameters { m, n, t, omega };
    let s = Setting::selection(blocks, shifts, hidden);
    wire::outcome_code(words::syndrome(c, h, &s, word, out))
}

#[unsafe(no_mangle)]
pub extern "C" fn zov_selection_encode(
    m: u32,
    n: u32,
    t: u32,
    omega: u32,
    h: &[Elem],
    blocks: &[u32],
    shifts: &[u32],
    hidden: &[u8],
    message: &[u8],
    word: &mut [u8],
) -> u32
    ensures value { result
        ≡ outcome_code
        (encode_answer (code m n t omega) h.now (short_selection blocks.now shifts.now hidden.now)
        message.now word.old) }
    ensures word_after { word.new
        ≡ encode_after (code m n t omega) h.now (short_selection blocks.now shifts.now hidden.now)
        message.now word.old }
{
    let c = Parameters { m, n, t, omega };
    let s = Setting::selection(blocks, shifts, hidden);
    wire::outcome_code(words::encode(c, h, &s, message, word))
}

#[unsafe(no_mangle)]
pub extern "C" fn zov_selection_message(
    m: u32,
    n: u32,
    t: u32,
    omega: u32,
    h: &[Elem],
    blocks: &[u32],
    shifts: &[u32],
    hidden: &[u8],
    word: &[u8],
    message: &mut [u8],
) -> u32
    ensures value { result
        ≡ outcome_code
        (message_answer (code m n t omega) h.now (short_selection blocks.now shifts.now hidden.now)
        word.now message.old) }
    ensures message_after { message.new
        ≡ message_after (code m n t omega) h.now (short_selection blocks.now shifts.now hidden.now)
        word.now message.old }
{
    let c = Parameters { m, n, t, omega };
    let s = Setting::selection(blocks, shifts, hidden);
    wire::outcome_code(words::message(c, h, &s, word, message))
}

#[unsafe(no_mangle)]
pub extern "C" fn zov_selection_repair(
    m: u32,
    n: u32,
    t: u32,
    omega: u32,
    h: &[Elem],
    blocks: &[u32],
    shifts: &[u32],
    hidden: &[u8],
    received: &[u8],
    repaired: &mut [u8],
) -> u32
    ensures value { result
        ≡ recovery_code
        (repair_answer (code m n t omega) h.now (short_selection blocks.now shifts.now hidden.now)
        received.now repaired.old) }
    ensures repaired_after { repaired.new
        ≡ repair_after (code m n t omega) h.now (short_selection blocks.now shifts.now hidden.now)
        received.now repaired.old }
{
    let c = Parameters { m, n, t, omega };
    let s = Setting::selection(blocks, shifts, hidden);
    wire::recovery_code(repair::repair(c, h, &s, received, repaired))
}

#[unsafe(no_mangle)]
pub extern "C" fn zov_selection_write_row(
    m: u32,
    n: u32,
    t: u32,
    omega: u32,
    h: &[Elem],
    blocks: &[u32],
    shifts: &[u32],
    hidden: &[u8],
    gear: u32,
    lamp: u32,
    word: &mut [u8],
) -> u32
    ensures value { result
        ≡ outcome_code
        (write_answer (code m n t omega) h.now (short_selection blocks.now shifts.now
        hidden.now) gear lamp word.old) }
    ensures word_after { word.new
        ≡ write_after (code m n t omega) h.now (short_selection blocks.now shifts.now
        hidden.now) gear lamp word.old }
{
    let c = Parameters { m, n, t, omega };
    let s = Setting::selection(blocks, shifts, hidden);
    wire::outcome_code(rows::write_row(c, h, &s, gear, lamp, word))
}

#[unsafe(no_mangle)]
pub extern "C" fn zov_selection_read_row(
    m: u32,
    n: u32,
    t: u32,
    omega: u32,
    h: &[Elem],
    blocks: &[u32],
    shifts: &[u32],
    hidden: &[u8],
    received: &[u8],
    repaired: &mut [u8],
) -> u32
    ensures value { result
        ≡ reading_code
        (read_answer (code m n t omega) h.now (short_selection blocks.now shifts.now hidden.now)
        received.now repaired.old) }
    ensures repaired_after { repaired.new
        ≡ read_after (code m n t omega) h.now (short_selection blocks.now shifts.now hidden.now)
        received.now repaired.old }
{
    let c = Parameters { m, n, t, omega };
    let s = Setting::selection(blocks, shifts, hidden);
    wire::reading_code(rows::read_row(c, h, &s, received, repaired))
}
