// Gear rows and their messages: a gear and a lamp, which rows are allowed, the message of a row, and what a message says.
#![tactic(auto)]

ghost use Rattle.std.specs.Prelude.{◌≡◌, ◌↔◌, false, ◌≤◌, ◌<◌, length, IsNone, IfSome};
ghost use Rattle.algebra.specs.Lists.{entry_of};
ghost use Rattle.gears.specs.Rows.{is_row, row_bits, row_bit, row_message, gear_in, lamp_in, further_zero, is_row_message, lamp_of, lamp_number, row_of};

use std::fmt;

// The lamps, each with its number in 01.
#[derive(Clone, Copy, Debug, PartialEq, Eq)]
pub enum Lamp {
    Dark = 0,
    Green = 1,
    Amber = 2,
}

impl From<Lamp> for u32 {
    ghost from_gives = { λ lamp number. (number ≡ lamp_number lamp) × (number < 3) };

    fn from(lamp: Lamp) -> u32 {
        lamp as u32
    }
}

impl fmt::Display for Lamp {
    fn fmt<W: fmt::Write>(&self, f: &mut fmt::Formatter<W>) -> fmt::Result {
        f.write_str(match self {
            Lamp::Dark => "dark",
            Lamp::Green => "green",
            Lamp::Amber => "amber",
        })
    }
}

// A gear, from neutral to the high neutral, and a lamp.
#[derive(Clone, Copy, Debug, PartialEq, Eq)]
pub struct Row {
    pub gear: u32,
    pub lamp: Lamp,
}

// What a fitter calls the gears, by their numbers.
const GEARS: [&str; 8] = [
    "neutral",
    "first",
    "second",
    "third",
    "fourth",
    "fifth",
    "sixth",
    "high neutral",
];

// The row whole, gear then lamp: "first, dark". A gear above the high neutral has no name, and goes by its number.
impl fmt::Display for Row {
    fn fmt<W: fmt::Write>(&self, f: &mut fmt::Formatter<W>) -> fmt::Result {
        let lamp = self.lamp;
        match GEARS.get(self.gear as usize) {
            Some(gear) => write!(f, "{gear}, {lamp}"),
            None => write!(f, "gear {}, {lamp}", self.gear),
        }
    }
}

// The positions of the gearbox go from neutral to the high neutral, which lies between the top two ratios.
const NEUTRAL: u32 = 0;

const HIGH_NEUTRAL: u32 = 7;

const GEAR_BITS: usize = 3;

// The message bits of a gear and a lamp.
pub const ROW_BITS: usize = GEAR_BITS + 2;

// The allowed rows, by the lamp.
pub fn is_row(gear: u32, lamp: u32) -> bool
    ensures { result ≡ is_row gear lamp }
{
    match lamp {
        0 | 2 => gear <= HIGH_NEUTRAL,
        1 => (gear == NEUTRAL) | (gear == HIGH_NEUTRAL),
        _ => false,
    }
}

impl Row {
    // The row of a gear and a lamp's number that come from outside, if it is an allowed one: what comes after takes the row, and need not ask again.
    pub fn allowed(gear: u32, lamp: u32) -> Option<Row>
        ensures none { IsNone result ↔ (is_row gear lamp ≡ false) }
        ensures row { IfSome result (λ row. (row.gear ≡ gear) × (lamp_number row.lamp ≡ lamp)) }
    {
        if !is_row(gear, lamp) {
            return None;
        }
        let lamp = lamp_of(lamp);
        Some(Row { gear, lamp })
    }
}

// What a row's message holds at a place.
fn row_bit(gear: u32, lamp: u32, place: usize) -> u8
    ensures { result ≡ row_bit gear lamp place }
{
    if place < GEAR_BITS {
        return ((gear >> place as u32) % 2) as u8;
    }
    if place < ROW_BITS {
        return ((lamp >> (place - GEAR_BITS) as u32) % 2) as u8;
    }
    0
}

// The message of a gear and a lamp, as long as the buffer is: of any two numbers, so that pairs that are no allowed row have one too.
pub fn place_row(gear: u32, lamp: u32, message: &mut [u8])
    ensures { message.new ≡ row_message (length message.old) gear lamp }
{
    for (j, bit) in message.iter_mut().enumerate() {
        *bit = row_bit(gear, lamp, j);
    }
}

fn entry(message: &[u8], place: usize) -> u32
    requires { place < length message.now }
    ensures { (result ≡ entry_of message.now place) × (result < 256) }
{
    message[place] as u32
}

fn gear_in(message: &[u8]) -> u32
    requires { row_bits ≤ length message.now }
    ensures { result ≡ gear_in message.now }
{
    entry(message, 0) + 2 * entry(message, 1) + 4 * entry(message, 2)
}

fn lamp_in(message: &[u8]) -> u32
    requires { row_bits ≤ length message.now }
    ensures { result ≡ lamp_in message.now }
{
    entry(message, 3) + 2 * entry(message, 4)
}

// Whether every bit after those of the row is 0.
fn no_further_bits(message: &[u8]) -> bool
    requires { row_bits ≤ length message.now }
    ensures { result ≡ further_zero message.now }
{
    message[ROW_BITS..].iter().all(|bit| *bit == 0)
}

// Whether the message is one of an allowed row: apart from `row_in`, which promises a row for every message.
pub fn is_row_message(message: &[u8]) -> bool
    requires { row_bits ≤ length message.now }
    ensures { result ≡ is_row_message message.now }
{
    is_row(gear_in(message), lamp_in(message)) & no_further_bits(message)
}

// The lamp that a message says, whatever it says: no TryFrom, which could fail.
fn lamp_of(number: u32) -> Lamp
    ensures { result ≡ lamp_of number }
{
    match number {
        0 => Lamp::Dark,
        1 => Lamp::Green,
        _ => Lamp::Amber,
    }
}

// The row that the message says.
pub fn row_in(message: &[u8]) -> Row
    requires { row_bits ≤ length message.now }
    ensures { result ≡ row_of (gear_in message.now) (lamp_in message.now) }
{
    Row {
        gear: gear_in(message),
        lamp: lamp_of(lamp_in(message)),
    }
}
