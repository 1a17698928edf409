// Short words (01's "hidden"; in coding theory the shortened code): which places of a word are sent. A mark for each place says so, 0 for sent and 1
// for hidden. A hidden place is a message column, always holds 0 and is not sent, so that a word is one over the columns that are left.
//
// A call on words begins here.
#![tactic(auto)]

ghost use Rattle.std.specs.Prelude.{◌≡◌, ℕ, ◌≤◌, length, take};
ghost use Rattle.refusals.specs.Outcome.{tested};
ghost use Rattle.refusals.specs.Rules.{fault, unless_refused};
ghost use Rattle.refusals.specs.Counted.{Count, Refused};
ghost use Rattle.slices.specs.Lengths.{longest};
ghost use Rattle.signature.specs.Inverses.{Inverted};
ghost use Rattle.basis.specs.Table.{free_at};
ghost use Rattle.parity.specs.Selected.{OnColumns};
ghost use Rattle.shortened.specs.Marks.{sent_count, sent_of, hidden_pass, hides_messages, mark_rules};
ghost use Rattle.shortened.specs.Setting.{places, short_code, short_selection};
ghost use Rattle.shortened.specs.ListedSent.{ListedSent};
ghost use Rattle.shortened.specs.Begun.{Begun};

use basis::Column;
use columns::{Choice, Lengths, Room, Selection, choose_columns, is_all_places};
use field::Elem;
use messages::message_columns;
use params::Parameters;
use parity::Code;
use refusals::{Refusal, Rule};
use slices::{LONGEST, all_bits};
use std::marker::Model;

// What a call on words is about: which of the code's columns the places stand for, and a mark for each place.
#[derive(Drop)]
pub struct Setting<'a> {
    pub choice: Choice<'a>,
    pub hidden: &'a [u8],
}

impl<'a> Model for Setting<'a> {
    ghost use Rattle.columns.specs.Lent.{choice_of};
    ghost use Rattle.shortened.specs.Setting.{Setting as SettingValue, shortened};

    ghost Value = { SettingValue };

    ghost view = { λ s. shortened (choice_of s.choice) s.hidden.now };
}

impl<'a> Setting<'a> {
    pub fn whole_code(hidden: &'a [u8]) -> Setting<'a>
        ensures { result ≡ short_code hidden.now }
    {
        Setting {
            choice: Choice::WholeCode,
            hidden,
        }
    }

    pub fn selection(blocks: &'a [u32], shifts: &'a [u32], hidden: &'a [u8]) -> Setting<'a>
        ensures { result ≡ short_selection blocks.now shifts.now hidden.now }
    {
        Setting {
            choice: Choice::Selection(Selection { blocks, shifts }),
            hidden,
        }
    }

    // The number of places that are sent, which is the length of a word.
    pub fn places(&self) -> usize
        ensures { result ≡ places self.now }
    {
        sent_places(self.hidden)
    }
}

// Whether the buffers lent to a call have their lengths: the words, with an entry for each sent place, and others, whose lengths the code alone
// tells. Beside `Lengths` of columns, which speaks of what has an entry for each place, hidden or sent: one type would hide which is meant.
#[derive(Clone, Copy)]
pub struct Lent {
    pub others: bool,
    pub words: bool,
}

// The number of places that are sent.
pub fn sent_places(hidden: &[u8]) -> usize
    ensures { result ≡ sent_count hidden.now }
{
    let mut sent = 0;
    // A loop that is made into vectors: `filter` and `count` are not, which makes a syndrome up to 4 percent slower, by instructions.
    for mark in hidden {
        if *mark == 0 {
            sent += 1;
        }
    }
    sent
}

// Whether every hidden place is free, of places whose leads are known.
fn hides_free(hidden: &[u8], leads: &[u8]) -> bool
    requires { length hidden.now ≤ length leads.now }
    ensures { result ≡ hidden_pass hidden.now (free_at leads.now) }
{
    hidden
        .iter()
        .zip(leads)
        .all(|(mark, lead)| *mark == 0 || *lead != 1)
}

// Whether every hidden place is a message column, of an accepted code and any list of its columns.
fn hides_messages(c: Parameters, h: &[Elem], cols: &[Column], hidden: &[u8]) -> bool
    requires { OnColumns c h.now cols.now × (length hidden.now ≡ length cols.now) }
    ensures { result ≡ hides_messages c h.now cols.now hidden.now }
{
    // Where nothing is hidden, there is no need to know which columns are message columns.
    if sent_places(hidden) == hidden.len() {
        return true;
    }
    let mut leads: [u8; LONGEST] = [0; LONGEST];
    message_columns(c, h, cols, &mut leads);
    hides_free(hidden, &leads)
}

// Whether the marks of an accepted code's columns keep their rules: 20, then 2, where `words` says whether the lent words have their length.
pub fn check_marks(
    c: Parameters,
    h: &[Elem],
    cols: &[Column],
    hidden: &[u8],
    words: bool,
) -> Result<(), Refusal>
    requires { OnColumns c h.now cols.now × (length hidden.now ≡ length cols.now) }
    ensures { result ≡ tested (fault (mark_rules c h.now cols.now hidden.now words)) }
{
    if !all_bits(hidden) {
        return Err(Refusal(Rule::Hidden));
    }
    if !hides_messages(c, h, cols, hidden) {
        return Err(Refusal(Rule::Hidden));
    }
    if !words {
        return Err(Refusal(Rule::Length));
    }
    Ok(())
}

// Leaves the columns of the sent places at the front, and says how many they are.
fn keep_sent(hidden: &[u8], columns: &mut [Column]) -> usize
    requires { length hidden.now ≤ length columns.old }
    ensures value { result ≡ sent_count hidden.now }
    ensures columns_after { take (sent_count hidden.now) columns.new ≡ sent_of hidden.now columns.old }
{
    let mut kept = 0;
    // By index: the columns are moved within their list.
    for (j, hide) in hidden.iter().enumerate() {
        if *hide == 0 {
            columns[kept] = columns[j];
            kept += 1;
        }
    }
    kept
}

// Leaves the sent columns of an accepted code's columns, which stand at the front of the list, and says how many they are; or what refuses the marks.
fn sent_columns(
    c: Parameters,
    h: &[Elem],
    hidden: &[u8],
    words: bool,
    columns: &mut [Column],
) -> Result<usize, Refusal>
    requires { OnColumns c h.now (take (length hidden.now) columns.old) × (length hidden.now ≤ length columns.old) }
    ensures value { result
        ≡ unless_refused (fault (mark_rules c h.now (take (length hidden.now) columns.old)
        hidden.now words))
        Refused (Count (sent_count hidden.now)) }
    ensures columns_after { fault (mark_rules c h.now (take (length hidden.now) columns.old) hidden.now words) ≡ 0
        → take (sent_count hidden.now) columns.new
        ≡ sent_of hidden.now (take (length hidden.now) columns.old) }
{
    check_marks(c, h, &columns[..hidden.len()], hidden, words)?;
    Ok(keep_sent(hidden, columns))
}

// Tests the code, what is lent to a call on words, and the marks. Lists the columns of the sent places, at the front of `columns`, and says how many
// they are; or what refuses the call.
pub fn list_sent(
    c: Parameters,
    h: &[Elem],
    s: &Setting<'_>,
    lent: Lent,
    columns: &mut [Column],
) -> Result<usize, Refusal>
    requires { longest ≤ length columns.old }
    ensures { ListedSent c h.now s.now lent.others lent.words columns.new result }
{
    let mut inverses: [Elem; LONGEST] = [0; LONGEST];
    list_sent_inverses(c, h, s, lent, &mut inverses, columns)
}

// The same, and where the call is not refused `inverses` begins with the inverses of the signature's entries.
pub fn list_sent_inverses(
    c: Parameters,
    h: &[Elem],
    s: &Setting<'_>,
    lent: Lent,
    inverses: &mut [Elem],
    columns: &mut [Column],
) -> Result<usize, Refusal>
    requires { (longest ≤ length inverses.old) × (longest ≤ length columns.old) }
    ensures listed { ListedSent c h.now s.now lent.others lent.words columns.new result }
    ensures by_index { (k : ℕ) → result ≡ Count k → Inverted c.m h.now inverses.new }
{
    let lengths = Lengths {
        others: lent.others,
        places: is_all_places(c, s.choice, s.hidden.len()),
    };
    choose_columns(c, h, s.choice, lengths, inverses, columns)?;
    sent_columns(c, h, s.hidden, lent.words, columns)
}

// Begins a call on words. Gives the code on the columns of the sent places, which stand in the room of the call, with the inverses.
// Its callers match on the result: what Rattle makes of a `?` on a value with ghost fields, beside an error with a model, antt does not accept. Each
// does so by itself, since a frame for all that takes a closure would have to say in its contract what the closure does to the call's buffers.
pub fn begin<'a>(
    c: Parameters,
    h: &'a [Elem],
    s: &Setting<'_>,
    lent: Lent,
    room: &'a mut Room,
) -> Result<Code<'a>, Refusal>
    ensures { Begun c h.now s.now lent.others lent.words result }
{
    let sent = list_sent_inverses(c, h, s, lent, &mut room.inverses, &mut room.columns)?;
    Ok(Code {
        c,
        h,
        inverses: &room.inverses,
        cols: &room.columns[..sent],
    })
}
