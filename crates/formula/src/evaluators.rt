// The evaluators of sums, products and terms, which call each other in a cycle: a sum is made of products, a product of terms, and a term may be a
// sum in brackets. The allowance of brackets falls with each pair, and the text that remains with every byte.
//
// A formula is worked out as it is read. A block that has no inverse is noted and the reading goes on: a text that is no formula is refused for that
// first.
ghost use Rattle.std.specs.Prelude.{◌≡◌, true, ◌||◌, [], ◌∷◌, ℕ, ◌+◌, ◌<◌, ◌^◌, eqb, length, get_or};
ghost use Rattle.refusals.specs.Rules.{◌unless◌, fault};
ghost use Rattle.refusals.specs.Outcome.{tested};
ghost use Rattle.field.specs.Gf.{Width};
ghost use Rattle.slices.specs.Elements.{Elements};
ghost use Rattle.formula.specs.declared.evaluators.Cursor.{Cursor};
ghost use Rattle.formula.specs.Letters.{Lent, plus_byte, times_byte, over_byte};
ghost use Rattle.formula.specs.OfLetters.{OfLetters};
ghost use Rattle.formula.specs.Evaluated.{sums, products, terms, Held, Ends, Finds, Moves};

use crate::values::{self, Letters};
use field::Elem;
use refusals::{Refusal, Rule};
use slices::{LONGEST, copy};

// A place in the text, and whether every inverse that was asked for before it exists.
#[derive(Clone, Copy)]
pub struct Cursor {
    pub at: usize,
    pub exists: bool,
}

// The byte at a place, and 0 past the end.
fn byte_at(text: &[u8], at: usize) -> u8
    ensures { result ≡ get_or text.now at 0 }
{
    text.get(at).copied().unwrap_or(0)
}

// The place after a byte.
fn after(from: Cursor) -> Cursor
    requires { from.at + 1 < 2 ^ 64 }
    ensures { result ≡ record { at = from.at + 1; exists = from.exists } }
{
    Cursor {
        at: from.at + 1,
        exists: from.exists,
    }
}

// Whether a product goes on.
fn is_operator(byte: u8) -> bool
    ensures { result ≡ (eqb byte times_byte || eqb byte over_byte) }
{
    (byte == b'*') | (byte == b'/')
}

// Each evaluator reads the text from a place on, puts the block of what it reads into `value`, and answers the place after it, or None where the text is
// no formula; `brackets` may still be opened. The text goes beside the letters, as in the definitions: it is read, and they are what it stands for.
#[cycle(evaluators)]
pub fn sum(
    text: &[u8],
    letters: &Letters,
    brackets: u32,
    from: Cursor,
    value: &mut [Elem],
) -> Option<Cursor>
    requires { length value.old ≡ letters.now.size }
    ensures { OfLetters (Finds sums sums) letters.now brackets text.now from value.new result }
{
    let mut cursor = product(text, letters, brackets, from, value)?;
    // Nothing counts here: the cursor moves as far as a product is read.
    while byte_at(text, cursor.at) == b'+' {
        cursor = add_product(text, letters, brackets, cursor, value)?;
    }
    Some(cursor)
}

// The product after a +, added to the sum that stands before it.
#[cycle(evaluators)]
fn add_product(
    text: &[u8],
    letters: &Letters,
    brackets: u32,
    from: Cursor,
    value: &mut [Elem],
) -> Option<Cursor>
    requires value_len { length value.old ≡ letters.now.size }
    requires at_value { get_or text.now from.at 0 ≡ plus_byte }
    ensures finds { (start : Cursor)
        → OfLetters (Held sums) letters.now brackets text.now start from value.old
        → OfLetters (Finds sums products) letters.now brackets text.now start value.new result }
    ensures moves { Moves from.at result }
{
    let mut room: [Elem; LONGEST] = [0; LONGEST];
    let s = value.len();
    let found = product(text, letters, brackets, after(from), &mut room[..s]);
    // Where nothing was found, what the value becomes is of no use to anyone.
    dyadic::add(value, &room[..s]);
    found
}

#[cycle(evaluators)]
fn product(
    text: &[u8],
    letters: &Letters,
    brackets: u32,
    from: Cursor,
    value: &mut [Elem],
) -> Option<Cursor>
    requires { length value.old ≡ letters.now.size }
    ensures { OfLetters (Finds products products) letters.now brackets text.now from value.new result }
{
    let mut cursor = term(text, letters, brackets, from, value)?;
    // As in `sum`, as far as a term is read.
    while is_operator(byte_at(text, cursor.at)) {
        cursor = multiply_term(text, letters, brackets, cursor, value)?;
    }
    Some(cursor)
}

// The term after a * or a /, by which the product that stands before it is multiplied or divided.
#[cycle(evaluators)]
fn multiply_term(
    text: &[u8],
    letters: &Letters,
    brackets: u32,
    from: Cursor,
    value: &mut [Elem],
) -> Option<Cursor>
    requires value_len { length value.old ≡ letters.now.size }
    requires over_byte_value { ((eqb (get_or text.now from.at 0) times_byte || eqb (get_or text.now from.at 0) over_byte) ≡ true) × Elements letters.now.m value.old }
    ensures finds { (start : Cursor)
        → OfLetters (Held products) letters.now brackets text.now start from value.old
        → OfLetters (Finds products terms) letters.now brackets text.now start value.new result }
    ensures moves { Moves from.at result }
{
    let mut room: [Elem; LONGEST] = [0; LONGEST];
    let s = value.len();
    let end = term(text, letters, brackets, after(from), &mut room[..s])?;
    let times = byte_at(text, from.at) == b'*';
    if times {
        values::multiply(letters.m, value, &mut room[..s]);
        return Some(end);
    }
    let exists = values::divide(letters.m, value, &mut room[..s]);
    Some(Cursor {
        at: end.at,
        exists: end.exists & exists,
    })
}

// The marks ' after a term.
fn marks(m: u32, text: &[u8], from: Cursor, value: &mut [Elem]) -> Cursor
    requires { Width m × Elements m value.old }
    ensures { ((β : Lent) (k : ℕ) (start : Cursor) → Held terms m β k text.now start from value.old
        → Held terms m β k text.now start result value.new) × Ends terms (get_or text.now result.at 0) }
{
    let mut cursor = from;
    // As in `sum`, as far as there are marks.
    while byte_at(text, cursor.at) == b'\'' {
        let exists = values::invert(m, value);
        cursor = Cursor {
            at: cursor.at + 1,
            exists: cursor.exists & exists,
        };
    }
    cursor
}

#[cycle(evaluators)]
fn term(
    text: &[u8],
    letters: &Letters,
    brackets: u32,
    from: Cursor,
    value: &mut [Elem],
) -> Option<Cursor>
    requires { length value.old ≡ letters.now.size }
    ensures { OfLetters (Finds terms terms) letters.now brackets text.now from value.new result }
{
    let byte = byte_at(text, from.at);
    if byte != b'(' {
        let block = letters.lent(byte)?;
        copy(block, value);
        return Some(marks(letters.m, text, after(from), value));
    }
    if brackets == 0 {
        return None;
    }
    let inner = sum(text, letters, brackets - 1, after(from), value)?;
    if byte_at(text, inner.at) != b')' {
        return None;
    }
    Some(marks(letters.m, text, after(inner), value))
}

// Whether a text of this length that was read up to the cursor is a formula, and every inverse that it asks for exists.
pub fn check_end(end: Cursor, length: usize) -> Result<(), Refusal>
    ensures { result ≡ tested (fault ((16 unless eqb end.at length) ∷ (9 unless end.exists) ∷ [])) }
{
    let whole = end.at == length;
    let exists = end.exists;
    if !whole {
        return Err(Refusal(Rule::NoFormula));
    }
    if !exists {
        return Err(Refusal(Rule::Singular));
    }
    Ok(())
}
