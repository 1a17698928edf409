// Rows of bits packed into machine words: bit p of a row is bit p % 64 of its word p / 64.
ghost use Rattle.std.specs.Prelude.{◌≡◌, ◌*◌, ◌<◌, length};
ghost use Rattle.basis.specs.Packed.{packed_bit, Added, Marked};

use slices::LONGEST;

// The words of a packed row.
pub const ROW: usize = LONGEST / 64;

pub fn bit(row: &[u64], p: usize) -> u64
    requires { p < length row.now * 64 }
    ensures { result ≡ packed_bit row.now p }
{
    (row[p / 64] >> (p % 64) as u64) % 2
}

// Adds one row to another.
pub(crate) fn add(from: &[u64], to: &mut [u64])
    requires { length to.old ≡ length from.now }
    ensures { Added from.now to.old to.new }
{
    slices::add(from, to);
}

// Adds a bit at place p.
pub(crate) fn mark(row: &mut [u64], p: usize, b: u64)
    requires { (p < length row.old * 64) × (b < 2) }
    ensures { Marked row.old p b row.new }
{
    row[p / 64] ^= b << (p % 64) as u64;
}
