// The parity check of a code. In specs/ stand words, code words and syndromes as they are defined, with their laws, for any list of the code's
// columns; here are the code as a type, its syndromes (`syndromes`), and its roots and support (`points`).
#![tactic(auto)]

pub mod points;
pub mod syndromes;

ghost use Rattle.std.specs.Prelude.{◌≡◌, true};
ghost use Rattle.signature.specs.Inverses.{Inverted};
ghost use Rattle.params.specs.Code.{code_fault};
ghost use Rattle.parity.specs.Selected.{Selected};

use basis::Column;
use field::Elem;
use params::Parameters;

// An accepted code on a list of its columns, each at most once: place j of a word is column cols_j. The test of the code found the inverses 1/h of its
// signature's entries, which repair goes on with.
#[derive(Clone, Copy)]
pub struct Code<'a> {
    pub c: Parameters,
    pub h: &'a [Elem],
    pub inverses: &'a [Elem],
    pub cols: &'a [Column],
    ghost accepted: { code_fault true c h.now ≡ 0 },
    ghost inverted: { Inverted c.m h.now inverses.now },
    ghost selected: { Selected c.n cols.now },
}
