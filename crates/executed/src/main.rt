// The cases that are executed: the toy example, which is 01's card T, every pair of a gear and a lamp on it, the limits, short words, formulas, and
// essences. What this prints is compared with the stored output.
#![tactic(auto)]

ghost use Rattle.std.specs.Prelude.{◌<◌, ◌^◌};

mod essences;
mod formulas;
mod pairs;
mod printed;
mod short;

use field::Elem;
use gears::{Lamp, Row};
use params::Parameters;
use printed::{Elements, Ones, print_outcome};
use repair::Recovery;
use shortened::Setting;
use std::{array, io};

// Card T.
const TOY: [Elem; 16] = [12, 8, 10, 22, 26, 9, 16, 21, 14, 5, 17, 4, 30, 23, 25, 31];

// Marks of card T's places that hide none.
const NOTHING: [u8; 16] = [0; 16];

// Card T's numbers.
fn toy() -> Parameters {
    code(5, 16, 2, 24)
}

fn code(m: u32, n: u32, t: u32, omega: u32) -> Parameters {
    Parameters { m, n, t, omega }
}

fn show_toy(rt: &impl Print) -> io::Result<()> {
    let mut roots: [Elem; 16] = [0; 16];
    let mut support: [Elem; 16] = [0; 16];
    let mut roles: [u8; 16] = [0; 16];
    let checked = codes::check(toy(), &TOY, &NOTHING, &mut roots, &mut support);
    let counted = words::roles(toy(), &TOY, &Setting::whole_code(&NOTHING), &mut roles);
    print!(rt; "toy example: support")?;
    print_outcome(rt, checked, Elements(&support))?;
    println!(rt; "toy example: roots{}", Elements(&roots[..2]))?;
    print!(rt; "toy example: message columns")?;
    print_outcome(rt, counted.map(|_| ()), Ones(&roles))
}

// What a word of N places is repaired to.
fn show_repair<const N: usize>(
    rt: &impl Print,
    s: &Setting<'_>,
    received: [u8; N],
) -> io::Result<()> {
    let mut repaired: [u8; N] = [0; N];
    match repair::repair(toy(), &TOY, s, &received, &mut repaired) {
        Recovery::Repaired(count) => {
            println!(rt; " repaired bits {count}, ones at{}", Ones(&repaired))
        }
        Recovery::Refused(refusal) => println!(rt; " {refusal}"),
    }
}

// A word, or marks, with places turned; past the end there is none to turn.
fn turned<const N: usize>(word: [u8; N], places: &[usize]) -> [u8; N] {
    let mut received = word;
    for place in places {
        if let Some(bit) = received.get_mut(*place) {
            *bit ^= 1;
        }
    }
    received
}

// The word of a row in N places, and what it is repaired to with two of them turned. N is bounded, since only an array of less than 2^63 bytes is lent
// as a slice, and no argument here is an array of that length.
fn show_row<const N: usize>(rt: &impl Print, s: &Setting<'_>) -> io::Result<()>
    requires { N < 2 ^ 32 }
{
    let row = Row {
        gear: 1,
        lamp: Lamp::Dark,
    };
    let mut word: [u8; N] = [0; N];
    let written = rows::write_row(toy(), &TOY, s, row.gear, row.lamp.into(), &mut word);
    print!(rt; "{row}: ones at")?;
    print_outcome(rt, written, Ones(&word))?;
    print!(rt; "with 0 and 8 turned:")?;
    show_repair(rt, s, turned(word, &[0, 8]))
}

// A row on card T with no place hidden, and a word that is too far from every code word.
fn show_whole_words(rt: &impl Print) -> io::Result<()> {
    let s = Setting::whole_code(&NOTHING);
    show_row::<16>(rt, &s)?;
    print!(rt; "ones at 1 2 5 only:")?;
    show_repair(rt, &s, turned([0; 16], &[1, 2, 5]))
}

// Whether a signature is accepted, with marks that hide nothing.
fn print_check<const N: usize>(rt: &impl Print, c: Parameters, h: [Elem; N]) -> io::Result<()> {
    let mut roots: [Elem; N] = [0; N];
    let mut support: [Elem; N] = [0; N];
    let outcome = codes::check(c, &h, &[0; N], &mut roots, &mut support);
    print_outcome(rt, outcome, " accepted")
}

// Whether the width m is accepted.
fn show_width(rt: &impl Print, m: u32) -> io::Result<()> {
    print!(rt; "m {m}:")?;
    print_check(rt, code(m, 2, 1, 0), [1, 2])
}

// Whether a signature of N entries in the field of width m is accepted; n is N in 32 bits.
fn show_length<const N: usize>(rt: &impl Print, m: u32, h: [Elem; N]) -> io::Result<()>
    requires { N < 2 ^ 32 }
{
    print!(rt; "m {m}, n {N}:")?;
    print_check(rt, code(m, N as u32, 1, 0), h)
}

// The signature of 256 entries in the field of width 9 whose 1/h_i is 256 + i.
fn signature_256() -> [Elem; 256] {
    array::from_fn(|i| field::inverse(9, 256 + i as u32).unwrap_or(0))
}

// A length that no signature has, one that is accepted, and one above the longest.
fn show_lengths(rt: &impl Print) -> io::Result<()> {
    show_length(rt, 9, [1; 3])?;
    show_length(rt, 9, signature_256())?;
    show_length(rt, 16, [1; 1024])
}

// Whether card A with t roots is accepted.
fn show_root_count(rt: &impl Print, t: u32) -> io::Result<()> {
    print!(rt; "n 4, t {t}:")?;
    print_check(rt, code(3, 4, t, 0), formulas::A)
}

// A code whose only code word is zero: k is 0.
fn show_empty_message(rt: &impl Print) -> io::Result<()> {
    let mut word: [u8; 2] = [1; 2];
    let s = Setting::whole_code(&NOTHING[..2]);
    let outcome = words::encode(code(2, 2, 1, 0), &[1, 2], &s, &[], &mut word);
    print!(rt; "k 0, the empty message:")?;
    print_outcome(rt, outcome, " accepted")?;
    println!(rt; "its word has ones at{}", Ones(&word))
}

fn main(rt: HostRuntime) -> io::Result<()> {
    show_toy(&rt)?;
    show_whole_words(&rt)?;
    pairs::show_pairs(&rt)?;
    for m in [1, 2, 9, 16, 17] {
        show_width(&rt, m)?;
    }
    show_lengths(&rt)?;
    for t in [2, 4] {
        show_root_count(&rt, t)?;
    }
    show_empty_message(&rt)?;
    short::show_short(&rt)?;
    formulas::show_formulas(&rt)?;
    essences::show_essences(&rt)
}
