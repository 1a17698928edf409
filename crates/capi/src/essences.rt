// Signatures and their essences.
ghost use Rattle.std.specs.Prelude.{◌≡◌};
ghost use Rattle.essence.specs.Answers.{essence_answer, essence_after, signature_answer, signature_after};
ghost use Rattle.wire.specs.Wire.{outcome_code};

use field::Elem;

#[unsafe(no_mangle)]
pub extern "C" fn zov_essence(m: u32, h: &[Elem], essence: &mut [Elem]) -> u32
    ensures value { result ≡ outcome_code (essence_answer m h.now essence.old) }
    ensures essence_after { essence.new ≡ essence_after m h.now essence.old }
{
    wire::outcome_code(essence::essence(m, h, essence))
}

#[unsafe(no_mangle)]
pub extern "C" fn zov_signature(m: u32, essence: &[Elem], h: &mut [Elem]) -> u32
    ensures value { result ≡ outcome_code (signature_answer m essence.now h.old) }
    ensures h_after { h.new ≡ signature_after m essence.now h.old }
{
    wire::outcome_code(essence::signature(m, essence, h))
}
