// What the basis says of words: which places are free, and the entries at the others.
#![tactic(auto)]

ghost use Rattle.std.specs.Prelude.{◌≡◌, cond, ◌<◌, ◌≤◌, length};
ghost use Rattle.algebra.specs.Gf2.{gf2};
ghost use Rattle.algebra.specs.Echelon.{rest};
ghost use Rattle.algebra.specs.Lists.{entry_of};
ghost use Rattle.algebra.specs.Places.{chosen};
ghost use Rattle.algebra.specs.Tabulate.{tabulate};
ghost use Rattle.slices.specs.Bits.{Bits};
ghost use Rattle.basis.specs.Table.{row_bit, free_at, free_count, placed_at, Form, Completed, Carried};

use basis::packed;
use basis::packed::ROW;

// 1 at the places without a row, which are the message columns, and 0 at the others.
pub fn roles(leads: &[u8], out: &mut [u8])
    requires { length out.old ≤ length leads.now }
    ensures { out.new ≡ tabulate (length out.old) (λ p. cond (free_at leads.now p) 1 0) }
{
    // By index: std says nothing of what is written after an adapter of `iter_mut` other than `enumerate`, as `zip`.
    for (p, role) in out.iter_mut().enumerate() {
        *role = u8::from(leads[p] != 1);
    }
}

// The message's entries at the free places in rising order, and 0 at the others.
fn place(message: &[u8], leads: &[u8], word: &mut [u8])
    requires { (length word.old ≤ length leads.now) × (free_count (length word.old) leads.now ≤ length message.now) }
    ensures { word.new ≡ placed_at (length word.old) leads.now message.now }
{
    let mut taken = 0;
    // By index, as in `roles`; `taken` is the place in the message, which moves at free places alone.
    for (j, entry) in word.iter_mut().enumerate() {
        if leads[j] == 1 {
            *entry = 0;
        } else {
            *entry = message[taken];
            taken += 1;
        }
    }
}

// The entries at the free places, in rising order.
pub fn take_out(word: &[u8], leads: &[u8], message: &mut [u8])
    requires { (length word.now ≤ length leads.now) × (length message.old ≡ free_count (length word.now) leads.now) }
    ensures { message.new ≡ chosen (length word.now) (free_at leads.now) (entry_of word.now) }
{
    let mut taken = 0;
    for (entry, lead) in word.iter().zip(leads) {
        if *lead != 1 {
            message[taken] = *entry;
            taken += 1;
        }
    }
}

// What row p says of the entries after place p.
fn forced(rows: &[u64], leads: &[u8], word: &[u8], p: usize) -> u8
    requires { Form (length word.now) rows.now leads.now × (p < length word.now) × Bits word.now }
    ensures { (result ≡ rest gf2 (length word.now) (row_bit rows.now p) (entry_of word.now) p) × (result < 2) }
{
    let start = p * ROW;
    let end = start + ROW;
    let row = &rows[start..end];
    let mut sum: u8 = 0;
    // By index: j is a place of the packed row and of the word.
    for j in p + 1..word.len() {
        sum ^= packed::bit(row, j) as u8 * word[j];
    }
    sum
}

// Fills in the places with a row, from right to left.
fn complete(rows: &[u64], leads: &[u8], word: &mut [u8])
    requires { Form (length word.old) rows.now leads.now × Bits word.old }
    ensures { Completed (length word.old) rows.now leads.now word.old word.new }
{
    // By index: p is a place of the leads, of the rows and of the word, which is read at the others.
    for p in (0..word.len()).rev() {
        if leads[p] == 1 {
            word[p] = forced(rows, leads, word, p);
        }
    }
}

// The word with the message at the free places, and the others as the rows say.
pub fn carry(message: &[u8], rows: &[u64], leads: &[u8], word: &mut [u8])
    requires form { Form (length word.old) rows.now leads.now }
    requires leads_in_bounds { (free_count (length word.old) leads.now ≤ length message.now) × Bits message.now }
    ensures { Carried (length word.old) rows.now leads.now message.now word.new }
{
    place(message, leads, word);
    complete(rows, leads, word);
}
