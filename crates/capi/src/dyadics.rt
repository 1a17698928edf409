// Dyadic blocks, and formulas of them.
ghost use Rattle.std.specs.Prelude.{◌≡◌};
ghost use Rattle.blocks.specs.Answers.{sum_answer, sum_after, product_answer, product_after, inverse_answer, inverse_after};
ghost use Rattle.refusals.specs.Outcome.{Outcome};
ghost use Rattle.formula.specs.Letters.{lending};
ghost use Rattle.formula.specs.Answers.{Answered};
ghost use Rattle.wire.specs.Wire.{outcome_code};

use field::Elem;

#[unsafe(no_mangle)]
pub extern "C" fn zov_block_sum(m: u32, a: &[Elem], b: &[Elem], out: &mut [Elem]) -> u32
    ensures value { result ≡ outcome_code (sum_answer m a.now b.now out.old) }
    ensures out_after { out.new ≡ sum_after m a.now b.now out.old }
{
    wire::outcome_code(blocks::sum(m, a, b, out))
}

#[unsafe(no_mangle)]
pub extern "C" fn zov_block_product(m: u32, a: &[Elem], b: &[Elem], out: &mut [Elem]) -> u32
    ensures value { result ≡ outcome_code (product_answer m a.now b.now out.old) }
    ensures out_after { out.new ≡ product_after m a.now b.now out.old }
{
    wire::outcome_code(blocks::product(m, a, b, out))
}

#[unsafe(no_mangle)]
pub extern "C" fn zov_block_inverse(m: u32, a: &[Elem], out: &mut [Elem]) -> u32
    ensures value { result ≡ outcome_code (inverse_answer m a.now out.old) }
    ensures out_after { out.new ≡ inverse_after m a.now out.old }
{
    wire::outcome_code(blocks::inverse(m, a, out))
}

#[unsafe(no_mangle)]
pub extern "C" fn zov_formula(
    m: u32,
    text: &[u8],
    a: &[Elem],
    b: &[Elem],
    c: &[Elem],
    d: &[Elem],
    out: &mut [Elem],
) -> u32
    ensures { (o : Outcome) × (result ≡ outcome_code o) × Answered m text.now
        (lending a.now b.now c.now d.now) out.old o out.new }
{
    wire::outcome_code(formula::formula(m, text, a, b, c, d, out))
}
