// Formulas of blocks, as the people who design looms type them: A+B*C'. Letters A to D stand for blocks that are lent, ' after a term is its inverse,
// * and / bind before +, and round brackets hold a whole formula again.
//
// The call of this file takes any input: what is out of range is refused by its number, and the lent buffer is written only where the call is Ok.
#![tactic(auto)]

mod evaluators;
mod values;

ghost use Rattle.std.specs.Prelude.{◌≡◌, length};
ghost use Rattle.refusals.specs.Outcome.{tested};
ghost use Rattle.field.specs.Gf.{Width};
ghost use Rattle.slices.specs.Elements.{all_elements};
ghost use Rattle.formula.specs.Letters.{lending};
ghost use Rattle.formula.specs.Lending.{lent};
ghost use Rattle.formula.specs.Answers.{fits_buffer, every, lent_fault, Answered};
ghost use Rattle.formula.specs.Evaluated.{Worked};

use evaluators::Cursor;
use field::Elem;
use refusals::{Refusal, Rule};
use slices::{LONGEST, all_elements};
use values::{Blocks, Letters};

// The longest text, in bytes.
const LONGEST_TEXT: usize = 128;

// How deep brackets may nest.
const DEEPEST: u32 = 8;

// The block of a formula, in the buffer `out`. A block that is not lent is an empty slice.
pub fn formula(
    m: u32,
    text: &[u8],
    a: &[Elem],
    b: &[Elem],
    c: &[Elem],
    d: &[Elem],
    out: &mut [Elem],
) -> Result<(), Refusal>
    ensures { Answered m text.now (lending a.now b.now c.now d.now) out.old result
        out.new }
{
    let blocks = Blocks { a, b, c, d };
    check_lent(m, &blocks, out.len())?;
    let s = out.len();
    let letters = Letters { m, size: s, blocks };
    let mut value: [Elem; LONGEST] = [0; LONGEST];
    evaluate(text, &letters, &mut value[..s])?;
    out.copy_from_slice(&value[..s]);
    Ok(())
}

// Whether the text is a formula, and every inverse that it asks for exists; the block is then the value.
fn evaluate(text: &[u8], letters: &Letters, value: &mut [Elem]) -> Result<(), Refusal>
    requires { length value.old ≡ letters.now.size }
    ensures { Worked letters.now.m text.now (lent letters.now.blocks) result
        value.new }
{
    if LONGEST_TEXT < text.len() {
        return Err(Refusal(Rule::NoFormula));
    }
    let start = Cursor {
        at: 0,
        exists: true,
    };
    let Some(end) = evaluators::sum(text, letters, DEEPEST, start, value) else {
        return Err(Refusal(Rule::NoFormula));
    };
    evaluators::check_end(end, text.len())
}

// Whether a width, the blocks that are lent and the length n of the buffer for the result are what they should be.
fn check_lent(m: u32, blocks: &Blocks, n: usize) -> Result<(), Refusal>
    ensures { result ≡ tested (lent_fault m (lent blocks.now) n) }
{
    if !field::internal::is_width(m) {
        return Err(Refusal(Rule::Width));
    }
    if !slices::is_power(n) {
        return Err(Refusal(Rule::Length));
    }
    if !all_fit(blocks, n) {
        return Err(Refusal(Rule::Length));
    }
    if !all_in_field(m, blocks) {
        return Err(Refusal(Rule::Range));
    }
    Ok(())
}

// Two tests of the four blocks, each written out: what a closure is asked would be longer than both.
fn all_fit(blocks: &Blocks, n: usize) -> bool
    ensures { result ≡ every (fits_buffer n) (lent blocks.now) }
{
    fits(blocks.a, n) & fits(blocks.b, n) & fits(blocks.c, n) & fits(blocks.d, n)
}

fn all_in_field(m: u32, blocks: &Blocks) -> bool
    requires { Width m }
    ensures { result ≡ every (all_elements m) (lent blocks.now) }
{
    all_elements(m, blocks.a)
        & all_elements(m, blocks.b)
        & all_elements(m, blocks.c)
        & all_elements(m, blocks.d)
}

// Whether a block is as long as the buffer, or not lent.
fn fits(a: &[Elem], n: usize) -> bool
    ensures { result ≡ fits_buffer n a.now }
{
    a.is_empty() | (a.len() == n)
}
