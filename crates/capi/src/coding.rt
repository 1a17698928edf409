// Words of a code.
ghost use Rattle.std.specs.Prelude.{◌≡◌};
ghost use Rattle.shortened.specs.Setting.{short_code};
ghost use Rattle.words.specs.Answers.{roles_answer, roles_after, syndrome_answer, syndrome_after, encode_answer, encode_after, message_answer, message_after};
ghost use Rattle.wire.specs.Wire.{code, outcome_code, counted_code};

use field::Elem;
use params::Parameters;
use shortened::Setting;

#[unsafe(no_mangle)]
pub extern "C" fn zov_roles(
    m: u32,
    n: u32,
    t: u32,
    omega: u32,
    h: &[Elem],
    hidden: &[u8],
    roles: &mut [u8],
) -> u32
    ensures value { result ≡ counted_code (roles_answer (code m n t omega) h.now (short_code hidden.now) roles.old) }
    ensures roles_after { roles.new ≡ roles_after (code m n t omega) h.now (short_code hidden.now) roles.old }
{
    let s = Setting::whole_code(hidden);
    wire::value_code(words::roles(Parameters { m, n, t, omega }, h, &s, roles))
}

#[unsafe(no_mangle)]
pub extern "C" fn zov_syndrome(
    m: u32,
    n: u32,
    t: u32,
    omega: u32,
    h: &[Elem],
    hidden: &[u8],
    word: &[u8],
    out: &mut [Elem],
) -> u32
    ensures value { result ≡ outcome_code (syndrome_answer (code m n t omega) h.now (short_code hidden.now) word.now
        out.old) }
    ensures out_after { out.new ≡ syndrome_after (code m n t omega) h.now (short_code hidden.now) word.now
        out.old }
{
    let s = Setting::whole_code(hidden);
    wire::outcome_code(words::syndrome(Parameters { m, n, t, omega }, h, &s, word, out))
}

#[unsafe(no_mangle)]
pub extern "C" fn zov_encode(
    m: u32,
    n: u32,
    t: u32,
    omega: u32,
    h: &[Elem],
    hidden: &[u8],
    message: &[u8],
    word: &mut [u8],
) -> u32
    ensures value { result ≡ outcome_code (encode_answer (code m n t omega) h.now (short_code hidden.now) message.now
        word.old) }
    ensures word_after { word.new ≡ encode_after (code m n t omega) h.now (short_code hidden.now) message.now
        word.old }
{
    let s = Setting::whole_code(hidden);
    wire::outcome_code(words::encode(Parameters { m, n, t, omega }, h, &s, message, word))
}

#[unsafe(no_mangle)]
pub extern "C" fn zov_message(
    m: u32,
    n: u32,
    t: u32,
    omega: u32,
    h: &[Elem],
    hidden: &[u8],
    word: &[u8],
    message: &mut [u8],
) -> u32
    ensures value { result ≡ outcome_code (message_answer (code m n t omega) h.now (short_code hidden.now) word.now
        message.old) }
    ensures message_after { message.new ≡ message_after (code m n t omega) h.now (short_code hidden.now) word.now
        message.old }
{
    let s = Setting::whole_code(hidden);
    wire::outcome_code(words::message(Parameters { m, n, t, omega }, h, &s, word, message))
}
