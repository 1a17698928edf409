// Essences: that of card T, and signatures of essences, or what refuses them.
ghost use Rattle.std.specs.Prelude.{◌<◌, ◌^◌};

use crate::TOY;
use crate::printed::{Elements, print_outcome};
use field::Elem;
use std::io;

// Elements of the field of width 16, no choice of which sums to zero; one more than an essence has at most.
const ELEVEN: [Elem; 11] = [1, 2, 4, 8, 16, 32, 64, 128, 256, 512, 1024];

fn show_essence(rt: &impl Print) -> io::Result<()> {
    let mut values: [Elem; 5] = [0; 5];
    let outcome = essence::essence(5, &TOY, &mut values);
    print!(rt; "essence of card T:")?;
    print_outcome(rt, outcome, Elements(&values))
}

// The signature of five values.
fn show_signature(rt: &impl Print, values: [Elem; 5]) -> io::Result<()> {
    let mut h: [Elem; 16] = [0; 16];
    let outcome = essence::signature(5, &values, &mut h);
    print!(rt; "signature of{}:", Elements(&values))?;
    print_outcome(rt, outcome, Elements(&h))
}

// Whether values have a signature, which is to have N entries. N is bounded, as in `show_row`.
fn show_count<const N: usize>(rt: &impl Print, count: &str, values: &[Elem]) -> io::Result<()>
    requires { N < 2 ^ 32 }
{
    let mut h: [Elem; N] = [0; N];
    let outcome = essence::signature(16, values, &mut h);
    print!(rt; "an essence of {count}:")?;
    print_outcome(rt, outcome, " accepted")
}

pub fn show_essences(rt: &impl Print) -> io::Result<()> {
    show_essence(rt)?;
    show_signature(rt, [17, 30, 18, 1, 7])?;
    show_signature(rt, [17, 30, 0, 1, 7])?;
    show_signature(rt, [17, 30, 18, 17, 7])?;
    show_signature(rt, [17, 30, 18, 1, 28])?;
    show_count::<1>(rt, "1 value", &ELEVEN[..1])?;
    show_count::<512>(rt, "10 values", &ELEVEN[..10])?;
    show_count::<1024>(rt, "11 values", &ELEVEN)
}
