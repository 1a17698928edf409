// Reads a sheet from standard input, and prints the listing of its code or the number that refuses it.
#![tactic(auto)]

ghost use Rattle.std.specs.Prelude.{◌≤◌, IfOk, length};

use std::io::{self, Read};

fn print(rt: &impl Print, text: &[u8], out: &mut [u8]) -> io::Result<()> {
    if let Ok(length) = listing::printed(text, out) {
        let end = length as usize;
        rt.write_all(&out[..end])?;
    }
    Ok(())
}

// Reads from the input until the buffer is full or the input ends, and says how many bytes were read. By hand: std's `read_exact` does not say how
// far a shorter input went, `read_to_end` allocates, and what `io::copy` says of its count does not bound it by a buffer.
fn read_full<R: Read>(input: &mut R, buffer: &mut [u8]) -> io::Result<usize>
    ensures { IfOk result (λ n. n ≤ length buffer.new) }
{
    let mut length = 0;
    while length < buffer.len() {
        let read = input.read(&mut buffer[length..])?;
        if read == 0 {
            break;
        }
        length += read;
    }
    Ok(length)
}

fn main(rt: HostRuntime) -> io::Result<()> {
    // One byte more than the longest sheet has: a text that fills the buffer is no sheet, whatever follows.
    let mut text = [0u8; sheets::LONGEST_SHEET + 1];
    let mut out = [0u8; lines::LONGEST_LISTING];
    let mut input = rt.stdin();
    let length = read_full(&mut input, &mut text)?;
    print(&rt, &text[..length], &mut out)?;
    if length == text.len() {
        // What is left is read too, so that whoever writes it can end.
        io::copy(&mut input, &mut io::sink())?;
    }
    Ok(())
}
