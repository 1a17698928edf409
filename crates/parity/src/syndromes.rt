// The syndrome of a word from the code's signature: the parity check matrix has the entry h_(i ⊕ cols_j) in row i at place j.
ghost use Rattle.std.specs.Prelude.{◌≡◌, ◌<◌, ◌^◌, length};
ghost use Rattle.algebra.specs.Tabulate.{tabulate};
ghost use Rattle.basis.specs.Table.{RowReaches, Reaches};
ghost use Rattle.parity.specs.Parity.{signature_sum, Summed};

use basis::Column;
use field::Elem;

// The sum of h_(i ⊕ cols_j) over the places j that hold 1.
pub fn syndrome_at(m: u32, h: &[Elem], cols: &[Column], word: &[u8], i: usize) -> Elem
    requires { Summed m h.now cols.now word.now × RowReaches i h.now cols.now }
    ensures { (result ≡ signature_sum m h.now cols.now word.now i) × (result < 2 ^ m) }
{
    let mut sum: Elem = 0;
    // By `enumerate`: `zip` asks at two ends in each turn, by which a syndrome takes up to 11 and a repair up to 3 percent more instructions.
    for (j, column) in cols.iter().enumerate() {
        let at = i ^ *column as usize;
        sum ^= word[j] as Elem * h[at];
    }
    sum
}

// Those sums for each row i, as many as `out` holds.
pub fn syndrome(m: u32, h: &[Elem], cols: &[Column], word: &[u8], out: &mut [Elem])
    requires { Summed m h.now cols.now word.now × Reaches (length out.old) h.now cols.now }
    ensures { out.new ≡ tabulate (length out.old) (signature_sum m h.now cols.now word.now) }
{
    for (i, sum) in out.iter_mut().enumerate() {
        *sum = syndrome_at(m, h, cols, word, i);
    }
}
