// What every call asks of the slices that it is lent, what is added in place, whatever the entries are, and what is copied from one to another.
#![tactic(auto)]

ghost use Rattle.std.specs.Prelude.{◌≡◌, ℕ, ◌<◌, length, get_or};
ghost use Rattle.field.specs.Gf.{Width};
ghost use Rattle.slices.specs.Lengths.{is_power};
ghost use Rattle.slices.specs.Elements.{all_elements};
ghost use Rattle.slices.specs.Bits.{all_bits};

use field::Elem;
use field::internal::is_element;
use std::ops::BitXorAssign;

// The longest block and the longest word have 2^LONGEST_LOG entries.
pub const LONGEST_LOG: usize = 9;

pub const LONGEST: usize = 1 << LONGEST_LOG;

// Whether s is a power of two from 1 to LONGEST.
pub fn is_power(s: usize) -> bool
    ensures { result ≡ is_power s }
{
    (s <= LONGEST) & s.is_power_of_two()
}

// Whether every entry is an element of the field of width m.
pub fn all_elements(m: u32, a: &[Elem]) -> bool
    requires { Width m }
    ensures { result ≡ all_elements m a.now }
{
    a.iter().all(|x| is_element(m, u32::from(*x)))
}

// Whether every entry is 0 or 1.
pub fn all_bits(a: &[u8]) -> bool
    ensures { result ≡ all_bits a.now }
{
    a.iter().all(|x| *x < 2)
}

// Adds the entries of a slice to those of another, each at its place, by exclusive or.
pub fn add<T: Copy + BitXorAssign>(from: &[T], to: &mut [T])
    requires addable { (x y : T) → T.can_bitxor_assign x y }
    requires long { length from.now ≡ length to.old }
    ensures same_length { length to.new ≡ length to.old }
    ensures sums { (k : ℕ) (x : T) → k < length to.old → T.bitxor_assign_gives (get_or to.old k x) (get_or from.now k x) (get_or to.new k x) }
{
    // By index: std says nothing of what is written after an adapter of `iter_mut` other than `enumerate`, as `zip`.
    for (i, entry) in to.iter_mut().enumerate() {
        *entry ^= from[i];
    }
}

// Copies the entries of a slice to another. By a loop: `copy_from_slice` between two slices of which neither is a local array is made into a call of
// memmove, and the library asks of its surroundings memcpy and memset alone. By index, as in `add`.
pub fn copy<T: Copy>(from: &[T], to: &mut [T])
    requires { length to.old ≡ length from.now }
    ensures { to.new ≡ from.now }
{
    for (i, entry) in to.iter_mut().enumerate() {
        *entry = from[i];
    }
}
