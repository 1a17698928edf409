// The pass of repair over the roots of the code: it finds the error locator, a polynomial whose roots in the support are the places in error.
#![tactic(auto)]

mod polynomial;

ghost use Rattle.std.specs.Prelude.{◌≡◌, ℕ, ◌<◌, ◌≤◌, ◌^◌, length};
ghost use Rattle.algebra.specs.Locator.Nodal.{Points};
ghost use Rattle.algebra.specs.Locator.Pass.{Pivot};
ghost use Rattle.field.specs.Gf.{Width, gf};
ghost use Rattle.slices.specs.Lengths.{longest};
ghost use Rattle.algebra.specs.Lists.{entry_of};
ghost use Rattle.locator.specs.Halves.{half, Half, Combined, Lifted, Constant};
ghost use Rattle.locator.specs.Coefficients.{Turned, Choice, Advanced, Started, Syndrome, Located};

use field::Elem;
use field::internal::product;
use polynomial::HALF;
pub use polynomial::Polynomial;

// other := a·other + b·pivot, over the n coefficients that the other one has. The pivot has no more, or it is not added at all.
fn combine(m: u32, n: usize, a: Elem, b: Elem, pivot: &[Elem], other: &mut [Elem])
    requires width { Width m × (n ≤ half) × (a < 2 ^ m) × (b < 2 ^ m) }
    requires half { Half m half pivot.now × Half m n other.old × ((k : ℕ) → n ≤ k → (gf m).mul b (entry_of pivot.now k) ≡ 0) }
    ensures { Combined m n a b pivot.now other.old other.new }
{
    // By index: std says nothing of what is written after an adapter of `iter_mut` other than `enumerate`, as `zip`.
    for (k, coefficient) in other[..n].iter_mut().enumerate() {
        *coefficient = product(m, a, *coefficient) ^ product(m, b, pivot[k]);
    }
}

// pivot := (y + r)·pivot: each coefficient times r, and the one before it added.
fn raise(m: u32, n: usize, r: Elem, pivot: &mut [Elem])
    requires { Width m × (n < half) × (r < 2 ^ m) × Half m n pivot.old }
    ensures { Lifted m n r pivot.old pivot.new }
{
    let mut lower: Elem = 0;
    for coefficient in pivot[..n + 1].iter_mut() {
        let here = *coefficient;
        *coefficient = lower ^ product(m, r, here);
        lower = here;
    }
}

// A turn at a root whose square is r: the pivot has the discrepancy a, and the other polynomial has b. The pivot's degree grows by two.
fn turn(r: Elem, a: Elem, b: Elem, pivot: &mut Polynomial, other: &mut Polynomial)
    requires width { (other.old.m ≡ pivot.old.m) × (r < 2 ^ pivot.old.m) × (a < 2 ^ pivot.old.m) × (b < 2 ^ pivot.old.m) }
    requires pivot { (pivot.old.degree < longest) × Pivot (gf pivot.old.m) a b pivot.old.degree other.old.degree }
    ensures { Turned pivot.old.m r a b pivot.old other.old pivot.new other.new }
{
    let m = pivot.m;
    let p = pivot.degree;
    let q = other.degree;
    combine(m, q / 2 + 1, a, b, &pivot.even, &mut other.even);
    combine(m, (q + 1) / 2, a, b, &pivot.odd, &mut other.odd);
    raise(m, p / 2 + 1, r, &mut pivot.even);
    raise(m, (p + 1) / 2, r, &mut pivot.odd);
    pivot.degree = p + 2;
}

// Whether the first of two polynomials, of the degrees p and q and with the discrepancies a and b, is the pivot: the one of smaller degree is if its
// discrepancy is not nought, else the other one.
fn leads(p: usize, q: usize, a: Elem, b: Elem) -> bool
    ensures { (m : ℕ) → Choice m a b p q result }
{
    if p <= q {
        return a != 0;
    }
    b == 0
}

// One turn of the pass, at the root z with the syndrome s.
fn advance(z: Elem, s: Elem, first: &mut Polynomial, second: &mut Polynomial)
    requires width { (second.old.m ≡ first.old.m) × (z < 2 ^ first.old.m) × (s < 2 ^ first.old.m) }
    requires degree { (first.old.degree < longest) × (second.old.degree < longest) }
    ensures { Advanced first.old.m z s first.old second.old first.new second.new }
{
    let a = first.discrepancy(z, s);
    let b = second.discrepancy(z, s);
    let square = product(first.m, z, z);
    if leads(first.degree, second.degree, a, b) {
        turn(square, a, b, first, second);
        return;
    }
    turn(square, b, a, second, first);
}

// The half that is c everywhere.
fn constant(c: Elem) -> [Elem; HALF]
    ensures { Constant c result }
{
    let mut coefficients: [Elem; HALF] = [0; HALF];
    coefficients[0] = c;
    coefficients
}

// What the pass starts with: 1, of degree 0, and x, of degree 1.
fn start(m: u32) -> (Polynomial, Polynomial)
    requires { Width m }
    ensures { Started m result.0 result.1 }
{
    let first = Polynomial {
        m,
        degree: 0,
        even: constant(1),
        odd: constant(0),
    };
    let second = Polynomial {
        m,
        degree: 1,
        even: constant(0),
        odd: constant(1),
    };
    (first, second)
}

// The locator of the errors that explain the syndrome at the roots, if any do: of the two polynomials that the pass over all roots leaves, the one of
// smaller degree.
pub fn locate(m: u32, roots: &[Elem], syndrome: &[Elem]) -> Polynomial
    requires { Width m × Points (gf m) (length roots.now) (entry_of roots.now) × Syndrome m roots.now syndrome.now }
    ensures { Located m roots.now syndrome.now result }
{
    let (mut first, mut second) = start(m);
    for (root, s) in roots.iter().zip(syndrome) {
        advance(*root, *s, &mut first, &mut second);
    }
    if second.degree < first.degree {
        return second;
    }
    first
}
