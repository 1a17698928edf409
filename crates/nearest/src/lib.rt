// The nearest code word. In specs/ stands repair as it is defined, by a search (`Repair`), with the laws of demand 3 about it (`Demand`); here is the
// one word that can be the repair of a word received, and the test whether a word is a code word.
//
// All of it is for an accepted code, whose inverses 1/h are known, and for any list of its columns: place j of a word is column cols_j.
#![tactic(auto)]

ghost use Rattle.std.specs.Prelude.{◌≡◌, ℕ, ◌<◌, length};
ghost use Rattle.algebra.specs.Lists.{entry_of};
ghost use Rattle.algebra.specs.Places.{count};
ghost use Rattle.slices.specs.Bits.{IsBits};
ghost use Rattle.slices.specs.Elements.{Elements};
ghost use Rattle.parity.specs.OfCode.{OfCode};
ghost use Rattle.parity.specs.Selected.{OnColumns};
ghost use Rattle.parity.specs.Word.{is_code_word};
ghost use Rattle.nearest.specs.Decoding.{root_place, Candidate};
ghost use Rattle.nearest.specs.Turned.{turned};

use basis::Column;
use field::Elem;
use locator::Polynomial;
use params::Parameters;
use parity::{Code, points, syndromes};
use slices::LONGEST;

// Whether the sums of the word's columns are nought in each of the t rows.
pub fn is_code_word(c: Parameters, h: &[Elem], cols: &[Column], word: &[u8]) -> bool
    requires { OnColumns c h.now cols.now × IsBits (length cols.now) word.now }
    ensures { result ≡ is_code_word c h.now cols.now word.now }
{
    (0..c.t as usize).all(|i| syndromes::syndrome_at(c.m, h, cols, word, i) == 0)
}

// The word received with the bits turned at the places whose support is a root of the polynomial, and the number of these places.
fn turn_roots(
    polynomial: &Polynomial,
    support: &[Elem],
    cols: &[Column],
    received: &[u8],
    word: &mut [u8],
) -> usize
    requires in_field { Elements polynomial.now.m support.now }
    requires by_index { (j : ℕ) → j < length cols.now → entry_of cols.now j < length support.now }
    requires received_len { (length received.now ≡ length cols.now) × (length word.old ≡ length cols.now) }
    ensures value { result
        ≡ count (length cols.now)
        (root_place polynomial.now support.now cols.now) }
    ensures word_after { word.new
        ≡ turned (length cols.now)
        (root_place polynomial.now support.now cols.now) received.now }
{
    let mut turned = 0;
    // By index: j is a place of the word received and of the word that is written.
    for (j, column) in cols.iter().enumerate() {
        let mut bit = received[j];
        if polynomial.is_root(support[*column as usize]) {
            bit ^= 1;
            turned += 1;
        }
        word[j] = bit;
    }
    turned
}

// The one word that can be the repair of the word received, and the number of places in which they differ. The other slices that it writes have room
// for the roots, the support and the syndrome.
fn find_candidate(
    code: &Code<'_>,
    received: &[u8],
    roots: &mut [Elem],
    support: &mut [Elem],
    syndrome: &mut [Elem],
    word: &mut [u8],
) -> usize
    requires received { IsBits (length code.now.cols.now) received.now × (length word.old ≡ length code.now.cols.now) }
    requires roots_len { (length roots.old ≡ code.now.c.t) × (length support.old ≡ code.now.c.n)
        × (length syndrome.old ≡ code.now.c.t) }
    ensures { OfCode Candidate code.now received.now result word.new }
{
    points::roots(code, roots);
    points::support(code, support);
    syndromes::syndrome(code.c.m, code.h, code.cols, received, syndrome);
    let polynomial = locator::locate(code.c.m, roots, syndrome);
    turn_roots(&polynomial, support, code.cols, received, word)
}

// The same, with room of its own.
pub fn candidate(code: &Code<'_>, received: &[u8], word: &mut [u8]) -> usize
    requires { IsBits (length code.now.cols.now) received.now × (length word.old ≡ length code.now.cols.now) }
    ensures { OfCode Candidate code.now received.now result word.new }
{
    let mut roots: [Elem; LONGEST] = [0; LONGEST];
    let mut support: [Elem; LONGEST] = [0; LONGEST];
    let mut syndrome: [Elem; LONGEST] = [0; LONGEST];
    let n = code.c.n as usize;
    let t = code.c.t as usize;
    find_candidate(
        code,
        received,
        &mut roots[..t],
        &mut support[..n],
        &mut syndrome[..t],
        word,
    )
}
