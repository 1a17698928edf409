// A polynomial over a field, kept by its halves. A half is HALF coefficients, the lowest first, nought past the degree, and only the coefficients up to
// the degree are worked on.
ghost use Rattle.std.specs.Prelude.{◌≡◌, ◌+◌, ◌<◌, ◌≤◌, ◌^◌};
ghost use Rattle.field.specs.Gf.{Width, gf};
ghost use Rattle.slices.specs.Lengths.{longest};
ghost use Rattle.locator.specs.Halves.{half, evaluate, Half, Pair};

use field::Elem;
use field::internal::product;
use slices::LONGEST;

// The number of coefficients of a half: of two polynomials in t turns, t at most LONGEST / 2, the larger one's degree can reach 2t + 1.
pub const HALF: usize = LONGEST / 2 + 2;

// The polynomial even(x²) + x·odd(x²) over the field of width m, of this degree at most.
#[derive(Clone, Copy)]
pub struct Polynomial {
    pub m: u32,
    pub degree: usize,
    pub even: [Elem; HALF],
    pub odd: [Elem; HALF],
    ghost width: { Width m },
    ghost fits: { degree ≤ longest + 1 },
    ghost pair: { Pair m degree even odd },
}

// The value at y of the first n coefficients, by Horner's rule; the others are nought.
fn evaluate(m: u32, n: usize, coefficients: &[Elem], y: Elem) -> Elem
    requires { Width m × Half m n coefficients.now × (n ≤ half) × (y < 2 ^ m) }
    ensures { (result ≡ evaluate (gf m) coefficients.now y) × (result < 2 ^ m) }
{
    let Some((highest, lower)) = coefficients[..n].split_last() else {
        return 0;
    };
    let mut value = *highest;
    for coefficient in lower.iter().rev() {
        value = *coefficient ^ product(m, y, value);
    }
    value
}

impl Polynomial {
    ghost use Rattle.std.specs.Prelude.{eqb};
    ghost use Rattle.algebra.specs.Locator.Split.{value, discrepancy};
    ghost use Rattle.locator.specs.Coefficients.{halves_of};

    // How far the polynomial is from solving the equation of the root z with the syndrome s.
    pub(crate) fn discrepancy(&self, z: Elem, s: Elem) -> Elem
        requires { (z < 2 ^ self.now.m) × (s < 2 ^ self.now.m) }
        ensures { (result ≡ discrepancy (gf self.now.m) z s (halves_of (gf self.now.m) self.now)) × (result < 2 ^ self.now.m) }
    {
        let m = self.m;
        let y = product(m, z, z);
        let slope = evaluate(m, (self.degree + 1) / 2, &self.odd, y);
        let level = evaluate(m, self.degree / 2 + 1, &self.even, y);
        product(m, 1 ^ product(m, s, z), slope) ^ product(m, s, level)
    }

    // Whether x is a root.
    pub fn is_root(&self, x: Elem) -> bool
        requires { x < 2 ^ self.now.m }
        ensures { result ≡ eqb (value (gf self.now.m) (halves_of (gf self.now.m) self.now) x) 0 }
    {
        let m = self.m;
        let y = product(m, x, x);
        let level = evaluate(m, self.degree / 2 + 1, &self.even, y);
        let slope = evaluate(m, (self.degree + 1) / 2, &self.odd, y);
        level ^ product(m, x, slope) == 0
    }
}
