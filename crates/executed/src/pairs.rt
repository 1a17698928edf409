// Every pair of a gear and a lamp on card T: whether it is written as a row, and what is read from its word with no, one and two bits turned. A pair
// that is no row is encoded as a message, so that the reader meets it too.
use crate::{NOTHING, TOY, toy, turned};
use gears::{Lamp, Row, place_row};
use rows::Reading;
use shortened::Setting;
use std::io;

// The word that carries the bits of a pair that is no row.
fn encoded(rt: &impl Print, pair: Row) -> io::Result<[u8; 16]> {
    let mut message: [u8; 6] = [0; 6];
    let mut word: [u8; 16] = [0; 16];
    place_row(pair.gear, pair.lamp.into(), &mut message);
    let s = Setting::whole_code(&NOTHING);
    if let Err(refusal) = words::encode(toy(), &TOY, &s, &message, &mut word) {
        println!(rt; " {refusal}")?;
    }
    Ok(word)
}

fn show_reading(rt: &impl Print, received: [u8; 16]) -> io::Result<()> {
    let mut repaired: [u8; 16] = [0; 16];
    let s = Setting::whole_code(&NOTHING);
    match rows::read_row(toy(), &TOY, &s, &received, &mut repaired) {
        Reading::Read(row, count) => print!(rt; "; {row}, repaired bits {count}"),
        Reading::Refused(refusal) => print!(rt; "; {refusal}"),
    }
}

// The word of a pair, written as a row where it is one.
fn sent(rt: &impl Print, pair: Row) -> io::Result<[u8; 16]> {
    let mut word: [u8; 16] = [0; 16];
    let s = Setting::whole_code(&NOTHING);
    match rows::write_row(toy(), &TOY, &s, pair.gear, pair.lamp.into(), &mut word) {
        Ok(()) => {
            print!(rt; " is written")?;
            Ok(word)
        }
        Err(refusal) => {
            print!(rt; " is {refusal}")?;
            encoded(rt, pair)
        }
    }
}

fn show_pair(rt: &impl Print, pair: Row) -> io::Result<()> {
    print!(rt; "{pair}")?;
    let word = sent(rt, pair)?;
    show_reading(rt, word)?;
    show_reading(rt, turned(word, &[0]))?;
    show_reading(rt, turned(word, &[0, 8]))?;
    println!(rt)
}

pub fn show_pairs(rt: &impl Print) -> io::Result<()> {
    for gear in 0..8 {
        for lamp in [Lamp::Dark, Lamp::Green, Lamp::Amber] {
            show_pair(rt, Row { gear, lamp })?;
        }
    }
    Ok(())
}
