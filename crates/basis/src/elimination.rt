// An echelon basis of the rows of the parity check matrix: each row leads at its first place, and at most one row leads at a place.
ghost use Rattle.std.specs.Prelude.{◌≡◌, ℕ, ◌*◌, ◌<◌, ◌≤◌, length, replicate};
ghost use Rattle.algebra.specs.Bits.{bit_at};
ghost use Rattle.algebra.specs.Lists.{entry_of};
ghost use Rattle.algebra.specs.Xor.{◌⊕◌};
ghost use Rattle.field.specs.Gf.{Width};
ghost use Rattle.slices.specs.Lengths.{longest};
ghost use Rattle.basis.specs.Packed.{Packs};
ghost use Rattle.basis.specs.Table.{row_words, Room, Form, RowFits, Reduced, Stored, Inserted, parity_bit, ParityBasis, RowReaches, Reaches};

use crate::packed::ROW;
use crate::{Column, packed};
use field::Elem;
use slices::LONGEST;

// The words of a table that has a row for each place.
const TABLE: usize = LONGEST * ROW;

// The room that a call has for a basis: row p, which leads at place p, stands in `rows` from p * ROW on where `leads` has 1 at p. What works on a
// basis is lent the two fields, as slices that need only be long enough for its n places (`Room`). That it is one of n places (`Form`) stands in the
// contracts and not in the type: each would have to say in its place that its word or its row is as long as the n that the type would hold. The rows
// are one list and the leads 0 and 1, as the definitions read them; the leads go to the callers without the rows.
#[derive(Drop)]
pub struct Basis {
    pub rows: [u64; TABLE],
    pub leads: [u8; LONGEST],
}

impl Basis {
    // Room in which no row leads.
    pub fn new() -> Basis
        ensures { (result.rows ≡ replicate (longest * row_words) 0) × (result.leads ≡ replicate longest 0) }
    {
        Basis {
            rows: [0; TABLE],
            leads: [0; LONGEST],
        }
    }
}

// Bit b of the parity check matrix's entry in row i at a place, which is h_(i ⊕ column).
fn parity_bit(h: &[Elem], column: Column, i: usize, b: u64) -> u64
    requires { (b < 64) × (i ⊕ column < length h.now) }
    ensures { (result ≡ bit_at (entry_of h.now (i ⊕ column)) b) × (result < 2) }
{
    let at = i ^ column as usize;
    (h[at] as u64 >> b) % 2
}

// Row (i, b): bit b of the entries of row i, over the places.
fn parity_row(h: &[Elem], cols: &[Column], i: usize, b: u64, row: &mut [u64])
    requires { (length cols.now ≤ length row.old * 64) × (b < 64) × RowReaches i h.now cols.now }
    ensures { Packs (length cols.now) (parity_bit h.now cols.now i b) row.new }
{
    row.fill(0);
    for (j, column) in cols.iter().enumerate() {
        packed::mark(row, j, parity_bit(h, *column, i, b));
    }
}

// Adds the row that leads at place p.
fn reduce(p: usize, rows: &[u64], row: &mut [u64])
    requires { RowFits p rows.now row.old }
    ensures { Reduced p rows.now row.old row.new }
{
    let start = p * ROW;
    let end = start + ROW;
    packed::add(&rows[start..end], row);
}

// Makes the row the one that leads at place p, where none does yet.
fn store(p: usize, row: &[u64], rows: &mut [u64], leads: &mut [u8])
    requires { RowFits p rows.old row.now × (p < length leads.old) }
    ensures { Stored p row.now rows.old leads.old rows.new leads.new }
{
    let start = p * ROW;
    let end = start + ROW;
    rows[start..end].copy_from_slice(row);
    leads[p] = 1;
}

// Brings a row in, which is used up, and says how many rows more the basis has, none or one, as a number that is added to the rank.
fn insert(n: usize, row: &mut [u64], rows: &mut [u64], leads: &mut [u8]) -> usize
    requires { Form n rows.old leads.old × (length row.old ≡ row_words) }
    ensures { Inserted n row.old rows.old leads.old result rows.new leads.new }
{
    // By index: p is a place of the row, of the rows and of the leads.
    for p in 0..n {
        if packed::bit(row, p) == 1 {
            if leads[p] != 1 {
                store(p, row, rows, leads);
                return 1;
            }
            reduce(p, rows, row);
        }
    }
    0
}

// The basis of all rows of the matrix, in the caller's room, so that one table is on the stack, and the number of its rows.
pub fn parity_basis(
    m: u32,
    t: usize,
    h: &[Elem],
    cols: &[Column],
    rows: &mut [u64],
    leads: &mut [u8],
) -> usize
    requires { Width m × (t ≤ longest) × Room (length cols.now) rows.old leads.old × Reaches t h.now cols.now }
    ensures { ParityBasis m t h.now cols.now rows.new leads.new result }
{
    leads.fill(0);
    let width = m as usize;
    let mut row: [u64; ROW] = [0; ROW];
    let mut rank = 0;
    // By number, and not element by element and bit by bit: one loop, which one `break` leaves.
    for k in 0..t * width {
        // Where every place has a row, the rows that are left say nothing new.
        if cols.len() <= rank {
            break;
        }
        parity_row(h, cols, k / width, (k % width) as u64, &mut row);
        rank += insert(cols.len(), &mut row, rows, leads);
    }
    rank
}
