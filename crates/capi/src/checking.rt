// A code's parameters.
ghost use Rattle.std.specs.Prelude.{◌≡◌};
ghost use Rattle.codes.specs.Answers.{check_answer, roots_after, support_after, same_answer};
ghost use Rattle.wire.specs.Wire.{code, outcome_code, sameness_code};

use field::Elem;
use params::Parameters;

#[unsafe(no_mangle)]
pub extern "C" fn zov_check(
    m: u32,
    n: u32,
    t: u32,
    omega: u32,
    h: &[Elem],
    hidden: &[u8],
    roots: &mut [Elem],
    support: &mut [Elem],
) -> u32
    ensures value { result ≡ outcome_code (check_answer (code m n t omega) h.now hidden.now roots.old support.old) }
    ensures roots_after { roots.new ≡ roots_after (code m n t omega) h.now hidden.now roots.old support.old }
    ensures support_after { support.new ≡ support_after (code m n t omega) h.now hidden.now roots.old support.old }
{
    wire::outcome_code(codes::check(Parameters { m, n, t, omega }, h, hidden, roots, support))
}

#[unsafe(no_mangle)]
pub extern "C" fn zov_same(
    m1: u32,
    n1: u32,
    t1: u32,
    omega1: u32,
    h1: &[Elem],
    hidden1: &[u8],
    m2: u32,
    n2: u32,
    t2: u32,
    omega2: u32,
    h2: &[Elem],
    hidden2: &[u8],
) -> u32
    ensures { result
        ≡ sameness_code
        (same_answer (code m1 n1 t1 omega1) h1.now hidden1.now (code m2 n2 t2 omega2) h2.now
        hidden2.now) }
{
    wire::value_code(codes::same(
        Parameters {
            m: m1,
            n: n1,
            t: t1,
            omega: omega1,
        },
        h1,
        hidden1,
        Parameters {
            m: m2,
            n: n2,
            t: t2,
            omega: omega2,
        },
        h2,
        hidden2,
    ))
}
