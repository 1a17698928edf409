// The roots of a code's polynomial and the points of its support, from the inverses of its signature's entries.
ghost use Rattle.std.specs.Prelude.{◌≡◌, ◌≤◌, length};
ghost use Rattle.algebra.specs.Lists.{entry_of};
ghost use Rattle.algebra.specs.Tabulate.{tabulate};
ghost use Rattle.field.specs.Gf.{gf};
ghost use Rattle.signature.specs.Signature.{root_at, support_at};

use crate::Code;
use field::Elem;
use signature::{store_roots, store_support};

// The first roots z_i = 1/h_i + ω, as many as the buffer holds.
pub fn roots(code: &Code<'_>, out: &mut [Elem])
    requires { length out.old ≤ code.now.c.n }
    ensures { out.new
        ≡ tabulate (length out.old)
        (root_at (gf code.now.c.m) code.now.c.omega (entry_of code.now.h.now)) }
{
    store_roots(code.inverses, code.c.omega as Elem, out);
}

// The first points L_j = 1/h_j + 1/h_0 + ω of the support, as many as the buffer holds.
pub fn support(code: &Code<'_>, out: &mut [Elem])
    requires { length out.old ≤ code.now.c.n }
    ensures { out.new
        ≡ tabulate (length out.old)
        (support_at (gf code.now.c.m) code.now.c.omega (entry_of code.now.h.now)) }
{
    store_support(code.inverses, code.c.omega as Elem, out);
}
