// Which columns of a code the places of a word stand for: those of the whole code, or of a selection of its blocks. A call on words begins here: the
// code is tested, and what is lent, and the columns are numbered.
#![tactic(auto)]

ghost use Rattle.std.specs.Prelude.{◌≡◌, ℕ, ◌+◌, ◌*◌, ◌≤◌, ◌<◌, ◌/◌, eqb, length, replicate};
ghost use Rattle.algebra.specs.Distinct.{distinct};
ghost use Rattle.algebra.specs.Tabulate.{tabulate};
ghost use Rattle.algebra.specs.Xor.{◌⊕◌};
ghost use Rattle.refusals.specs.Outcome.{tested};
ghost use Rattle.refusals.specs.Rules.{fault};
ghost use Rattle.refusals.specs.Counted.{Count};
ghost use Rattle.slices.specs.Lengths.{longest};
ghost use Rattle.signature.specs.Inverses.{Inverted};
ghost use Rattle.parity.specs.Word.{whole};
ghost use Rattle.columns.specs.Choice.{Choice.whole_code, Choice.selection, selected_column, all_places, all_below, selection_rules};
ghost use Rattle.columns.specs.Lent.{choice_of};
ghost use Rattle.columns.specs.Fits.{Below};
ghost use Rattle.columns.specs.Listed.{Listed, Selecting};

use basis::Column;
use field::Elem;
use params::{Parameters, check_code};
use refusals::{Refusal, Rule};
use slices::LONGEST;

// Some of a code's blocks, with a shift for each.
#[derive(Clone, Copy)]
pub struct Selection<'a> {
    pub blocks: &'a [u32],
    pub shifts: &'a [u32],
}

// Which columns of a code the places stand for: all of them in their order, or those of a selection.
#[derive(Clone, Copy)]
pub enum Choice<'a> {
    WholeCode,
    Selection(Selection<'a>),
}

// Whether what is lent to a call has its length: what has an entry for each place, hidden or sent, and others, whose lengths the code alone tells.
#[derive(Clone, Copy)]
pub struct Lengths {
    pub others: bool,
    pub places: bool,
}

// Room for what the beginning of a call finds: the inverses of the signature's entries, and the columns. The calls lend
// its two fields to what lists the columns.
#[derive(Drop)]
pub struct Room {
    pub inverses: [Elem; LONGEST],
    pub columns: [Column; LONGEST],
}

impl Room {
    pub fn new() -> Room
        ensures { (result.inverses ≡ replicate longest 0) × (result.columns ≡ replicate longest 0) }
    {
        Room {
            inverses: [0; LONGEST],
            columns: [0; LONGEST],
        }
    }
}

// The columns of a whole code, as many as the list holds: place j is column j.
pub fn number_columns(columns: &mut [Column])
    requires { length columns.old ≤ longest }
    ensures { columns.new ≡ whole (length columns.old) }
{
    for (j, column) in columns.iter_mut().enumerate() {
        *column = j as Column;
    }
}

// Whether this is the length of so many parts, each as long: of the marks of a selection's places, or of several words. A product that is too
// large for a usize is no length.
pub fn is_parts_length(long: usize, parts: usize, each: usize) -> bool
    ensures { result ≡ eqb long (parts * each) }
{
    parts.checked_mul(each) == Some(long)
}

// Whether what is so long has an entry for each place of the chosen columns.
pub fn is_all_places(c: Parameters, choice: Choice<'_>, long: usize) -> bool
    ensures { result ≡ eqb long (all_places c (choice_of choice.entry)) }
{
    match choice {
        Choice::WholeCode => long == c.n as usize,
        Choice::Selection(s) => is_parts_length(long, s.blocks.len(), c.t as usize),
    }
}

// Begins a call: the code is tested, and what is lent, and the chosen columns are numbered, at the front of `columns`; gives how many they are. Where
// the call is not refused `inverses` begins with the inverses of the signature's entries. Both are slices, of a `Room` or of any that are long enough.
pub fn choose_columns(
    c: Parameters,
    h: &[Elem],
    choice: Choice<'_>,
    lent: Lengths,
    inverses: &mut [Elem],
    columns: &mut [Column],
) -> Result<usize, Refusal>
    requires { (longest ≤ length inverses.old) × (longest ≤ length columns.old) }
    ensures listed { Listed c h.now (choice_of choice.entry) lent.others lent.places columns.new result }
    ensures by_index { (k : ℕ) → result ≡ Count k → Inverted c.m h.now inverses.new }
{
    match choice {
        Choice::WholeCode => whole_columns(c, h, lent, inverses, columns),
        Choice::Selection(s) => selected_columns(c, h, s, lent, inverses, columns),
    }
}

// The columns of the whole code.
fn whole_columns(
    c: Parameters,
    h: &[Elem],
    lent: Lengths,
    inverses: &mut [Elem],
    columns: &mut [Column],
) -> Result<usize, Refusal>
    requires { (longest ≤ length inverses.old) × (longest ≤ length columns.old) }
    ensures listed { Listed c h.now whole_code lent.others lent.places columns.new result }
    ensures by_index { (k : ℕ) → result ≡ Count k → Inverted c.m h.now inverses.new }
{
    check_code(c, h, lent.others & lent.places, inverses)?;
    let n = c.n as usize;
    number_columns(&mut columns[..n]);
    Ok(n)
}

// The columns of a selection.
fn selected_columns(
    c: Parameters,
    h: &[Elem],
    s: Selection<'_>,
    lent: Lengths,
    inverses: &mut [Elem],
    columns: &mut [Column],
) -> Result<usize, Refusal>
    requires { (longest ≤ length inverses.old) × (longest ≤ length columns.old) }
    ensures listed { Listed c h.now (selection s.entry.blocks.now s.entry.shifts.now) lent.others lent.places columns.new result }
    ensures by_index { (k : ℕ) → result ≡ Count k → Inverted c.m h.now inverses.new }
{
    check_code(c, h, lent.others, inverses)?;
    check_selection(c, s, lent.places)?;
    let t = c.t as usize;
    let n = s.blocks.len() * t;
    select_columns(t, s, &mut columns[..n]);
    Ok(n)
}

// Whether a selection of an accepted code keeps its rules, where `full` says whether what has an entry for each place has its length.
fn check_selection(c: Parameters, s: Selection<'_>, full: bool) -> Result<(), Refusal>
    requires { (0 < c.t) × (c.n / c.t ≤ longest) }
    ensures { result ≡ tested (fault (selection_rules c s.entry.blocks.now s.entry.shifts.now full)) }
{
    let count = c.n / c.t;
    let long = s.blocks.len();
    if !((1..=count as usize).contains(&long) & (s.shifts.len() == long) & full) {
        return Err(Refusal(Rule::Length));
    }
    if !all_below(count, s.blocks) {
        return Err(Refusal(Rule::NoSuchBlock));
    }
    if !named_once(s.blocks) {
        return Err(Refusal(Rule::NoSuchBlock));
    }
    if !all_below(c.t, s.shifts) {
        return Err(Refusal(Rule::Shift));
    }
    Ok(())
}

// Whether every number is below the bound.
fn all_below(bound: u32, numbers: &[u32]) -> bool
    ensures { result ≡ all_below bound numbers.now }
{
    numbers.iter().all(|x| *x < bound)
}

// Whether no block is named twice, of blocks below LONGEST.
fn named_once(blocks: &[u32]) -> bool
    requires { Below longest blocks.now }
    ensures { result ≡ distinct blocks.now }
{
    let mut named: [bool; LONGEST] = [false; LONGEST];
    for number in blocks {
        let block = *number as usize;
        if named[block] {
            return false;
        }
        named[block] = true;
    }
    true
}

// Column r ⊕ shift of a block of t columns, as a column of the code.
fn column_of(t: usize, block: u32, shift: u32, r: usize) -> Column
    requires { block * t + (r ⊕ shift) < longest }
    ensures { result ≡ block * t + (r ⊕ shift) }
{
    (block as usize * t + (r ^ shift as usize)) as Column
}

// The columns of a selection: place b·t + r is column r ⊕ shifts_b of block blocks_b.
fn select_columns(t: usize, s: Selection<'_>, columns: &mut [Column])
    requires { Selecting t s.blocks.now s.shifts.now × (length columns.old ≡ length s.blocks.now * t) }
    ensures { columns.new ≡ tabulate (length columns.old) (selected_column t s.entry.blocks.now s.entry.shifts.now) }
{
    // By index: block and row are told from the place.
    for (j, column) in columns.iter_mut().enumerate() {
        let b = j / t;
        *column = column_of(t, s.blocks[b], s.shifts[b], j % t);
    }
}
