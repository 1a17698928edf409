// Blocks worked in place, as the evaluators need it: the result takes the place of `value`.
ghost use Rattle.std.specs.Prelude.{◌≡◌, ◌≤◌, true};
ghost use Rattle.std.specs.Option.{option_copied};
ghost use Rattle.field.specs.Gf.{Width, gf};
ghost use Rattle.slices.specs.Elements.{Elements};
ghost use Rattle.slices.specs.Lengths.{longest, is_power};
ghost use Rattle.dyadic.specs.Block.{block_product, block_inverse};
ghost use Rattle.dyadic.specs.Callers.{Factors};
ghost use Rattle.formula.specs.Letters.{Letter, block_of};
ghost use Rattle.formula.specs.Lending.{lent};
ghost use Rattle.dyadic.specs.Invertible.{is_invertible};
ghost use Rattle.formula.specs.Callers.{Sized, LentFor};

use field::Elem;
use field::internal::product;
use slices::LONGEST;

// The blocks that are lent for the letters; a block that is not lent is an empty slice, as the definitions read it (`lent`).
#[derive(Clone, Copy)]
pub struct Blocks<'a> {
    pub a: &'a [Elem],
    pub b: &'a [Elem],
    pub c: &'a [Elem],
    pub d: &'a [Elem],
}

// What the letters of a formula stand for: blocks that are lent and have passed the tests of the call. They are of the field of width m, and each has
// `size` elements, a power of two, as has every buffer that a part of the formula is worked out in.
#[derive(Clone, Copy)]
pub struct Letters<'a> {
    pub m: u32,
    pub size: usize,
    pub blocks: Blocks<'a>,
    ghost width: { Width m },
    ghost power: { is_power size ≡ true },
    ghost room: { size ≤ longest },
    ghost sized: { Sized size (lent blocks) },
    ghost elements: { (l : Letter) → Elements m (block_of (lent blocks) l) },
}

impl<'a> Letters<'a> {
    // The block that is lent for a letter.
    pub fn lent(&self, byte: u8) -> Option<&'a [Elem]>
        ensures { LentFor (lent self.now.blocks) byte (option_copied result) }
    {
        let block = match byte {
            b'A' => self.blocks.a,
            b'B' => self.blocks.b,
            b'C' => self.blocks.c,
            b'D' => self.blocks.d,
            _ => &[],
        };
        (!block.is_empty()).then_some(block)
    }
}

// The product with another block, which is written to on the way and is then as it was.
pub fn multiply(m: u32, value: &mut [Elem], other: &mut [Elem])
    requires { Factors m value.old other.old value.old }
    ensures value_after { value.new ≡ block_product (gf m) value.old other.old }
    ensures other_unchanged { other.new ≡ other.old }
{
    let mut room: [Elem; LONGEST] = [0; LONGEST];
    let s = value.len();
    room[..s].copy_from_slice(value);
    value.fill(0);
    dyadic::add_by_halves(m, &mut room[..s], other, value);
}

// The inverse, and whether there is one: without one the value becomes zeros, since the inverse of 0 is 0. No Option, since the reading goes on with them.
pub fn invert(m: u32, value: &mut [Elem]) -> bool
    requires { Width m × Elements m value.old }
    ensures value { result ≡ is_invertible m value.old }
    ensures value_after { value.new ≡ block_inverse (gf m) value.old }
{
    let sum = dyadic::total(value);
    dyadic::divide_in_place(m, product(m, sum, sum), value);
    sum != 0
}

// The quotient by another block, and whether that block has an inverse, which takes its place.
pub fn divide(m: u32, value: &mut [Elem], other: &mut [Elem]) -> bool
    requires { Factors m value.old other.old value.old }
    ensures value { result ≡ is_invertible m other.old }
    ensures value_after { value.new ≡ block_product (gf m) value.old (block_inverse (gf m) other.old) }
{
    let exists = invert(m, other);
    multiply(m, value, other);
    exists
}
