// The lines of the listing of an accepted code.
#![tactic(auto)]

ghost use Rattle.std.specs.Prelude.{◌≡◌, ◌+◌, ◌*◌, ◌^◌, ◌≤◌, ◌<◌, length};
ghost use Rattle.algebra.specs.Lists.{entry_of};
ghost use Rattle.algebra.specs.Parts.{joined};
ghost use Rattle.algebra.specs.Tabulate.{tabulate};
ghost use Rattle.field.specs.Gf.{gf};
ghost use Rattle.field.specs.Words.{widest};
ghost use Rattle.slices.specs.Lengths.{longest};
ghost use Rattle.params.specs.Code.{Accepted};
ghost use Rattle.signature.specs.Inverses.{Inverted, added};
ghost use Rattle.signature.specs.Signature.{support_at};
ghost use Rattle.parity.specs.Columns.{roles_of, message_length};
ghost use Rattle.parity.specs.Word.{whole};
ghost use Rattle.fields.specs.Fields.{line_length};
ghost use Rattle.fields.specs.Written.{written};
ghost use Rattle.fields.specs.Over.{over};
ghost use Rattle.lines.specs.Lengths.{PerColumn};
ghost use Rattle.lines.specs.Listing.{column_line, lines_text, listing_text, listing_length};

use basis::Column;
use columns::number_columns;
use field::Elem;
use fields::FIELD;
use params::Parameters;
use parity::{Code, points};
use slices::LONGEST;

// The lengths of a listing's first line and of its others.
pub const CODE_LINE: usize = 6 * FIELD + 1;

pub const COLUMN_LINE: usize = 4 * FIELD + 1;

// The length of the longest listing.
pub const LONGEST_LISTING: usize = CODE_LINE + LONGEST * COLUMN_LINE;

// What a listing says of the columns of a code, which stand in three lists.
#[derive(Drop)]
struct Columns<'a> {
    h: &'a [Elem],
    support: &'a [Elem],
    roles: &'a [u8],
    ghost alike: { PerColumn (length h.now) h.now support.now roles.now },
}

// The line of column j from place `at` on, and the place after it.
fn put_column(columns: &Columns<'_>, j: usize, at: usize, out: &mut [u8]) -> usize
    requires { (j < length columns.now.h.now) × (at + line_length 4 ≤ length out.old) }
    ensures value { result ≡ at + line_length 4 }
    ensures out_after { out.new ≡ written out.old at (column_line columns.now.h.now columns.now.support.now columns.now.roles.now j) }
{
    let line = [
        j as u32,
        columns.h[j] as u32,
        columns.support[j] as u32,
        columns.roles[j] as u32,
    ];
    fields::put_line(&line, at, out)
}

// The lines of all columns from place `at` on.
fn put_columns(columns: &Columns<'_>, at: usize, out: &mut [u8])
    requires { at + length columns.now.h.now * line_length 4 ≤ length out.old }
    ensures { out.new
        ≡ written out.old at
        (joined (length columns.now.h.now)
        (column_line columns.now.h.now columns.now.support.now columns.now.roles.now)) }
{
    let mut next = at;
    // By index: it is printed, and three lists are read at it.
    for j in 0..columns.h.len() {
        next = put_column(columns, j, next, out);
    }
}

// The line of the code and those of its columns at the front of `out`.
fn put_lines(c: Parameters, k: u32, columns: &Columns<'_>, out: &mut [u8])
    requires { (length columns.now.h.now ≡ c.n) × (k ≤ c.n) × (listing_length c.n ≤ length out.old) }
    ensures { out.new ≡ over (lines_text c k columns.now.h.now columns.now.support.now columns.now.roles.now) out.old }
{
    let line = [c.m, c.n, c.t, c.omega, c.n - k, k];
    let next = fields::put_line(&line, 0, out);
    put_columns(columns, next, out);
}

// The support of a code, a point for each of its n columns.
fn code_support(code: &Code<'_>, support: &mut [Elem])
    requires { length support.old ≡ code.now.c.n }
    ensures { support.new
        ≡ tabulate code.now.c.n
        (support_at (gf code.now.c.m) code.now.c.omega (entry_of code.now.h.now)) }
{
    points::support(code, support);
}

// The listing of a code on all its columns at the front of `out`. `support` and `roles` have n entries to work with.
fn compute_lines(code: &Code<'_>, support: &mut [Elem], roles: &mut [u8], out: &mut [u8])
    requires whole_code { (code.now.cols.now ≡ whole code.now.c.n) × (listing_length code.now.c.n ≤ length out.old) }
    requires support_len { (length support.old ≡ code.now.c.n) × (length roles.old ≡ code.now.c.n) }
    ensures { out.new ≡ over (listing_text code.now.c code.now.h.now) out.old }
{
    code_support(code, support);
    let k = words::internal::roles(code.c, code.h, code.cols, roles);
    let columns = Columns {
        h: code.h,
        support,
        roles,
    };
    put_lines(code.c, k, &columns, out);
}

// The listing of an accepted code, whose entries have these inverses, at the front of `out`.
pub fn write_listing(c: Parameters, h: &[Elem], inverses: &[Elem], out: &mut [u8])
    requires { Accepted c h.now × Inverted c.m h.now inverses.now × (listing_length c.n ≤ length out.old) }
    ensures { out.new ≡ over (listing_text c h.now) out.old }
{
    let mut columns: [Column; LONGEST] = [0; LONGEST];
    let mut support: [Elem; LONGEST] = [0; LONGEST];
    let mut roles: [u8; LONGEST] = [0; LONGEST];
    let n = c.n as usize;
    let cols = &mut columns[..n];
    number_columns(cols);
    let code = Code {
        c,
        h,
        inverses,
        cols,
    };
    compute_lines(&code, &mut support[..n], &mut roles[..n], out);
}
