// Card T with its last place hidden, which is a message column: a row travels in 15 bits. Then a check column is hidden, which is refused.
use crate::printed::Ones;
use crate::{NOTHING, TOY, show_row, toy, turned};
use shortened::Setting;
use std::io;

fn show_roles(rt: &impl Print, s: &Setting<'_>) -> io::Result<()> {
    let mut roles: [u8; 16] = [0; 16];
    match words::roles(toy(), &TOY, s, &mut roles) {
        Ok(k) => println!(rt; " k {k}, message columns{}", Ones(&roles)),
        Err(refusal) => println!(rt; " {refusal}"),
    }
}

pub fn show_short(rt: &impl Print) -> io::Result<()> {
    let last_hidden = turned(NOTHING, &[15]);
    let s = Setting::whole_code(&last_hidden);
    print!(rt; "place 15 hidden:")?;
    show_roles(rt, &s)?;
    show_row::<15>(rt, &s)?;
    print!(rt; "place 0 hidden:")?;
    show_roles(rt, &Setting::whole_code(&turned(NOTHING, &[0])))
}
