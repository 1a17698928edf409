// Numbers in fields of text, and lines of them. A text is read and written at a place in it, as the definitions speak of it: of a slice they would have
// to say anew where it stands. A text is tested whole before a number is read from it, so that reading one cannot fail.
#![tactic(auto)]

ghost use Rattle.std.specs.Prelude.{◌≡◌, true, ◌+◌, ◌*◌, ◌≤◌, length};
ghost use Rattle.fields.specs.Fields.{field_width, lead_byte, lead_text, number_text, number_at, is_number};
ghost use Rattle.fields.specs.Fields.{line_text, line_length, numbers_at, is_line};
ghost use Rattle.fields.specs.Written.{written};

use field::Elem;

// The bytes of a number's field.
pub const FIELD: usize = 6;

// The greatest number that a text may hold.
const GREATEST: u32 = 65535;

// A byte of a field before its last, where the field up to it holds `rest`.
fn lead_byte(rest: u32) -> u8
    ensures { result ≡ lead_byte rest }
{
    if rest == 0 {
        return b' ';
    }
    b'0' + (rest % 10) as u8
}

// Prints the bytes of a field before its last, `count` of them, which hold `value`.
fn put_lead(value: u32, count: usize, at: usize, out: &mut [u8])
    requires { at + count ≤ length out.old }
    ensures { out.new ≡ written out.old at (lead_text count value) }
{
    let mut rest = value;
    // By index, from the end: std says nothing of what is written after `iter_mut().rev()`.
    for i in (0..count).rev() {
        out[at + i] = lead_byte(rest);
        rest /= 10;
    }
}

// Prints the field of a number from place `at` on.
fn put_number(v: u32, at: usize, out: &mut [u8])
    requires { at + field_width ≤ length out.old }
    ensures { out.new ≡ written out.old at (number_text v) }
{
    put_lead(v / 10, FIELD - 1, at, out);
    out[at + (FIELD - 1)] = b'0' + (v % 10) as u8;
}

// Prints a line from place `at` on, and gives the place after it.
pub fn put_line(numbers: &[u32], at: usize, out: &mut [u8]) -> usize
    requires { at + line_length (length numbers.now) ≤ length out.old }
    ensures value { result ≡ at + line_length (length numbers.now) }
    ensures out_after { out.new ≡ written out.old at (line_text numbers.now) }
{
    for (i, number) in numbers.iter().enumerate() {
        put_number(*number, at + i * FIELD, out);
    }
    let end = at + numbers.len() * FIELD;
    out[end] = b'\n';
    end + 1
}

// What the field at place `at` says.
pub fn value_at(text: &[u8], at: usize) -> u32
    requires { at + field_width ≤ length text.now }
    ensures { result ≡ number_at text.now at }
{
    let mut v: u32 = 0;
    for byte in &text[at..at + FIELD] {
        v = v * 10 + (*byte % 16) as u32;
    }
    v
}

// Whether the field at place `at` holds a number.
fn is_number(text: &[u8], at: usize) -> bool
    requires { at + field_width ≤ length text.now }
    ensures { result ≡ is_number text.now at }
{
    let v = value_at(text, at);
    if GREATEST < v {
        return false;
    }
    let mut printed: [u8; FIELD] = [0; FIELD];
    put_number(v, 0, &mut printed);
    // Byte by byte: `==` on the slices makes the test of a line a fifth slower.
    text[at..at + FIELD]
        .iter()
        .zip(&printed)
        .all(|(byte, due)| *byte == *due)
}

// Whether a line of `count` numbers begins at place `at`.
pub fn is_line(text: &[u8], at: usize, count: usize) -> bool
    requires { at + line_length count ≤ length text.now }
    ensures { result ≡ is_line text.now at count }
{
    // By number: the library has no lemma that tells the list of what `chunks_exact` yields, and `is_number` would have to ask for each piece's length.
    (0..count).all(|i| is_number(text, at + i * FIELD)) && text[at + count * FIELD] == b'\n'
}

// The numbers of the line that begins at place `at`.
pub fn read_line(text: &[u8], at: usize, numbers: &mut [Elem])
    requires { (at + line_length (length numbers.old) ≤ length text.now) × (is_line text.now at (length numbers.old) ≡ true) }
    ensures { numbers.new ≡ numbers_at text.now at (length numbers.old) }
{
    for (i, number) in numbers.iter_mut().enumerate() {
        *number = value_at(text, at + i * FIELD) as Elem;
    }
}
