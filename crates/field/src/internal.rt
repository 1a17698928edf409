// Field arithmetic for callers that know their numbers to be in range: m a width of the table, elements below 2^m.
ghost use Rattle.std.specs.Prelude.{◌≡◌, ◌<◌, ◌^◌};
ghost use Rattle.field.specs.Range.{is_width, is_element};
ghost use Rattle.field.specs.Words.{word};
ghost use Rattle.field.specs.Product.{product, inverse};
ghost use Rattle.field.specs.Gf.{Width};

use crate::Elem;

const NARROWEST: u32 = 2;

const WIDEST: u32 = 16;

// The reduction word of each width, at the width: bit i is the coefficient of u^i. There is none for widths 0 and 1.
const WORDS: [u32; WIDEST as usize + 1] = [
    0, 0, 0x7, 0xB, 0x13, 0x25, 0x43, 0x83, 0x11D, 0x211, 0x409, 0x805, 0x1053, 0x201B, 0x4443,
    0x8003, 0x1100B,
];

// Whether the table has a word for the width.
pub fn is_width(m: u32) -> bool
    ensures { result ≡ is_width m }
{
    (NARROWEST..=WIDEST).contains(&m)
}

// Whether the number is an element of the field of width m.
pub fn is_element(m: u32, a: u32) -> bool
    requires { Width m }
    ensures { result ≡ is_element m a }
{
    a >> m == 0
}

// u times an element, u being the number 2: the element shifted, and cut back by the width's word times the bit that ran over. There is no branch, so
// that all products of a width take the same steps.
fn times_u(m: u32, reduction: u32, a: u32) -> u32
    requires { Width m × (reduction ≡ word m) × (a < 2 ^ m) }
    ensures { (result ≡ product m (word m) 2 a) × (result < 2 ^ m) }
{
    let shifted = a * 2;
    shifted ^ (shifted >> m) * reduction
}

// a·b: the sum of a·u^i over the bits i of b.
pub fn product(m: u32, a: Elem, b: Elem) -> Elem
    requires { Width m × (a < 2 ^ m) × (b < 2 ^ m) }
    ensures { (result ≡ product m (word m) a b) × (result < 2 ^ m) }
{
    let reduction = WORDS[m as usize];
    let mut sum: u32 = 0;
    let mut shifted = a as u32;
    let mut bits = b as u32;
    for _ in 0..m {
        sum ^= bits % 2 * shifted;
        shifted = times_u(m, reduction, shifted);
        bits /= 2;
    }
    sum as Elem
}

// a^(2^m − 2), the product of a², a⁴, .., a^(2^(m−1)): the inverse of every element but 0, and 0 for 0.
pub fn inverse(m: u32, a: Elem) -> Elem
    requires { Width m × (a < 2 ^ m) }
    ensures { (result ≡ inverse m (word m) a) × (result < 2 ^ m) }
{
    let mut squared = a;
    let mut result: Elem = 1;
    for _ in 1..m {
        squared = product(m, squared, squared);
        result = product(m, result, squared);
    }
    result
}
