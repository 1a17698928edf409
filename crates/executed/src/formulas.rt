// Formulas, each with what it answers.
use crate::printed::{Elements, print_outcome};
use field::Elem;
use std::io;

// Card A's signature.
pub const A: [Elem; 4] = [7, 2, 3, 4];

const B: [Elem; 4] = [1, 2, 3, 5];

const C: [Elem; 4] = [6, 0, 0, 1];

// Its elements sum to zero: it has no inverse.
const D: [Elem; 4] = [1, 1, 2, 2];

fn show(rt: &impl Print, text: &str) -> io::Result<()> {
    let mut out: [Elem; 4] = [0; 4];
    let outcome = formula::formula(3, text.as_bytes(), &A, &B, &C, &D, &mut out);
    print!(rt; "{text}:")?;
    print_outcome(rt, outcome, Elements(&out))
}

pub fn show_formulas(rt: &impl Print) -> io::Result<()> {
    show(rt, "A+B*C'")?;
    show(rt, "A/B/C")?;
    show(rt, "A/(B*C)")?;
    show(rt, "A/(B/C)")?;
    show(rt, "A''")?;
    show(rt, "A")?;
    show(rt, "A+D*D")?;
    show(rt, "A+D'")?;
    show(rt, "A+D'+")
}
