// What the calls on words are made of, for an accepted code and a list of its columns: place j of a word is column cols_j.
//
// A function that answers a refusal leaves its buffer alone.
ghost use Rattle.std.specs.Prelude.{◌≡◌, length, true};
ghost use Rattle.refusals.specs.Rules.{fault, unless_refused};
ghost use Rattle.refusals.specs.Counted.{Count, Refused};
ghost use Rattle.refusals.specs.Ending.{Ended};
ghost use Rattle.slices.specs.Bits.{all_bits};
ghost use Rattle.parity.specs.Word.{syndrome_of};
ghost use Rattle.parity.specs.Columns.{roles_of, dimension, message_of, encoding_of};
ghost use Rattle.parity.specs.Selected.{OnColumns};
ghost use Rattle.messages.specs.MessageRules.{message_rules};
ghost use Rattle.shortened.specs.Marks.{sent_dimension, mark_rules};
ghost use Rattle.words.specs.Answers.{bit_rules};

use basis::Column;
use basis::elimination::Basis;
use field::Elem;
use messages::{check_message, code_basis, message_columns};
use params::Parameters;
use parity::syndromes;
use refusals::{Refusal, Rule};
use shortened::{check_marks, sent_places};
use slices::{LONGEST, all_bits};

// 1 for each message column and 0 for each check column into `out`, and k.
pub fn roles(c: Parameters, h: &[Elem], cols: &[Column], out: &mut [u8]) -> u32
    requires { OnColumns c h.now cols.now × (length out.old ≡ length cols.now) }
    ensures value { result ≡ dimension c h.now cols.now }
    ensures out_after { out.new ≡ roles_of c h.now cols.now }
{
    let mut leads: [u8; LONGEST] = [0; LONGEST];
    let k = message_columns(c, h, cols, &mut leads);
    systematic::roles(&leads, out);
    k as u32
}

// The same where marks say which places are sent: k counts the sent message columns, or the marks are refused.
pub fn short_roles(
    c: Parameters,
    h: &[Elem],
    cols: &[Column],
    hidden: &[u8],
    out: &mut [u8],
) -> Result<u32, Refusal>
    requires { OnColumns c h.now cols.now × (length hidden.now ≡ length cols.now) × (length out.old ≡ length cols.now) }
    ensures value { result
        ≡ unless_refused (fault (mark_rules c h.now cols.now hidden.now true)) Refused
        (Count (sent_dimension c h.now cols.now hidden.now)) }
    ensures out_after { out.new
        ≡ unless_refused (fault (mark_rules c h.now cols.now hidden.now true)) (λ k. out.old)
        (roles_of c h.now cols.now) }
{
    check_marks(c, h, cols, hidden, true)?;
    let not_sent = hidden.len() - sent_places(hidden);
    Ok(roles(c, h, cols, out) - not_sent as u32)
}

// The t sums of the word's columns into `out`, or 8.
pub fn syndrome(
    c: Parameters,
    h: &[Elem],
    cols: &[Column],
    word: &[u8],
    out: &mut [Elem],
) -> Result<(), Refusal>
    requires { OnColumns c h.now cols.now × (length word.now ≡ length cols.now) × (length out.old ≡ c.t) }
    ensures { Ended result (bit_rules word.now) out.old
        (syndrome_of c h.now cols.now word.now) out.new }
{
    if !all_bits(word) {
        return Err(Refusal(Rule::Bit));
    }
    syndromes::syndrome(c.m, h, cols, word, out);
    Ok(())
}

// The code word that carries the message into `word`, or 2 or 8. Its basis is on the stack only here.
#[inline(never)]
pub fn encode(
    c: Parameters,
    h: &[Elem],
    cols: &[Column],
    message: &[u8],
    word: &mut [u8],
) -> Result<(), Refusal>
    requires { OnColumns c h.now cols.now × (length word.old ≡ length cols.now) }
    ensures { Ended result
        (message_rules (dimension c h.now cols.now) (length message.now) (all_bits message.now))
        word.old (encoding_of c h.now cols.now message.now) word.new }
{
    let mut basis = Basis::new();
    let k = code_basis(c, h, cols, &mut basis.rows, &mut basis.leads);
    check_message(k, message.len(), message)?;
    systematic::carry(message, &basis.rows, &basis.leads, word);
    Ok(())
}

// The word's entries at the message columns into `message`, or 2 or 8.
pub fn message(
    c: Parameters,
    h: &[Elem],
    cols: &[Column],
    word: &[u8],
    message: &mut [u8],
) -> Result<(), Refusal>
    requires { OnColumns c h.now cols.now × (length word.now ≡ length cols.now) }
    ensures { Ended result
        (message_rules (dimension c h.now cols.now) (length message.old) (all_bits word.now))
        message.old (message_of c h.now cols.now word.now) message.new }
{
    let mut leads: [u8; LONGEST] = [0; LONGEST];
    let k = message_columns(c, h, cols, &mut leads);
    check_message(k, message.len(), word)?;
    systematic::take_out(word, &leads, message);
    Ok(())
}
