// How a line ends: by what a call gave, or by what refuses it. Each part brings the space before it, so that a list with nothing in it leaves none.
use field::Elem;
use refusals::Refusal;
use std::{fmt, io};

#[derive(Clone, Copy)]
pub struct Elements<'a>(pub &'a [Elem]);

impl fmt::Display for Elements<'_> {
    fn fmt<W: fmt::Write>(&self, f: &mut fmt::Formatter<W>) -> fmt::Result {
        for element in self.0 {
            write!(f, " {element}")?;
        }
        Ok(())
    }
}

// The places that hold 1.
#[derive(Clone, Copy)]
pub struct Ones<'a>(pub &'a [u8]);

impl fmt::Display for Ones<'_> {
    fn fmt<W: fmt::Write>(&self, f: &mut fmt::Formatter<W>) -> fmt::Result {
        for (j, bit) in self.0.iter().enumerate() {
            if *bit == 1 {
                write!(f, " {j}")?;
            }
        }
        Ok(())
    }
}

// `given` is what an accepted call gave. `Recovery` and `Reading` are printed by arms of their own: they are no `Result`, since 01 asks for them by
// name.
pub fn print_outcome(
    rt: &impl Print,
    outcome: Result<(), Refusal>,
    given: impl fmt::Display + Drop,
) -> io::Result<()> {
    match outcome {
        Ok(()) => println!(rt; "{given}"),
        Err(refusal) => println!(rt; " {refusal}"),
    }
}
