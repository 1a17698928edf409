// Answers as numbers, since no enum crosses into C: the value, or minus the refusal's number.
//
// An answer whose value converts to a number has one function for every kind. `()` converts to none, and a repair and a reading are no `Result`, so
// that each of these has its own.
#![tactic(auto)]

ghost use Rattle.std.specs.Prelude.{◌≡◌, ℕ, Ok, Err};
ghost use Rattle.wire.specs.Wire.{minus, outcome_code, recovery_code, reading_code};

use refusals::Refusal;
use repair::Recovery;
use rows::Reading;

// `element_code`, `sameness_code` and `counted_code` of specs/Wire.antt are what this comes to for an element, a truth value and a count.
pub fn value_code<V: Into<u32>>(answer: Result<V, Refusal>) -> u32
    ensures value { (x : V) → answer ≡ Ok x → V.converts x result }
    ensures refusal { (n : ℕ) → answer ≡ Err n → result ≡ minus n }
{
    match answer {
        Ok(value) => value.into(),
        Err(refusal) => minus(refusal),
    }
}

pub fn outcome_code(outcome: Result<(), Refusal>) -> u32
    ensures { result ≡ outcome_code outcome }
{
    match outcome {
        Ok(()) => 0,
        Err(refusal) => minus(refusal),
    }
}

pub fn recovery_code(recovery: Recovery) -> u32
    ensures { result ≡ recovery_code recovery }
{
    match recovery {
        Recovery::Repaired(count) => count,
        Recovery::Refused(refusal) => minus(refusal),
    }
}

// gear + 8 × lamp + 32 × count, in 32 bits. No row that is read needs more (`reading_whole` of specs/Readings.antt).
pub fn reading_code(reading: Reading) -> u32
    ensures { result ≡ reading_code reading }
{
    match reading {
        Reading::Read(row, count) => {
            let lamp = u32::from(row.lamp);
            let shown = row.gear.wrapping_add(8 * lamp);
            shown.wrapping_add(count << 5)
        }
        Reading::Refused(refusal) => minus(refusal),
    }
}

// The pattern of minus the refusal's number in 32 bits.
fn minus(refusal: Refusal) -> u32
    ensures { result ≡ minus refusal }
{
    u32::from(refusal).wrapping_neg()
}
