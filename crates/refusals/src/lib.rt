// Why a call is refused: the rules of 01's table.
#![tactic(auto)]

ghost use Rattle.std.specs.Prelude.{◌≡◌};
ghost use Rattle.refusals.specs.Numbers.{number};

use std::error::Error;
use std::fmt;
use std::marker::Model;

// The rules that a call may break, each with its number in 01's table.
#[derive(Clone, Copy, Debug, PartialEq, Eq, PartialOrd, Ord)]
pub enum Rule {
    // m is no width of the table.
    Width = 1,
    // A length is not what is asked for.
    Length = 2,
    // An element or an offset is 2^m or more: 01's "stranger".
    Range = 3,
    // A zero in a signature: 01's "blank".
    Zero = 4,
    // The rule for 1/h fails for some i and j: 01's "crossed".
    NotLinear = 5,
    // Two equal entries in a signature: 01's "twin".
    Repeated = 6,
    // t is no number of roots: 01's "rows".
    RootCount = 7,
    // A byte of a word, a message, a step's marks or the list of who waits is neither 0 nor 1.
    Bit = 8,
    // A block that has no inverse: 01's "dead block".
    Singular = 9,
    // No code word is near enough.
    TooFar = 10,
    // A gear or a lamp outside the rules.
    NoSuchRow = 11,
    // Too few message bits for a row: 01's "narrow".
    TooFewBits = 12,
    // A text that is no sheet.
    NoSheet = 13,
    // A block of a selection that the code does not have, or that is named twice.
    NoSuchBlock = 14,
    // A shift of a selection that is t or more.
    Shift = 15,
    // A text that is no formula, or that names a block that is not lent.
    NoFormula = 16,
    // Some of an essence's values, one or more, sum to zero.
    Dependent = 17,
    // The number of senders, of repairs or of a sender is out of range.
    Sender = 18,
    // A word is offered while that sender has one waiting.
    Waiting = 19,
    // A mark of a place that is neither 0 nor 1, or a hidden check column.
    Hidden = 20,
}

// What a call that takes any input is refused by: the rule that it breaks. Most calls hand it out as the error of a `Result`; repair and reading hold it
// in enums of their own, which 01 names. In a contract a refusal is the number of its rule.
#[derive(Clone, Copy, Debug, PartialEq, Eq)]
pub struct Refusal(pub Rule);

impl Model for Refusal {
    ghost use Rattle.std.specs.Prelude.{ℕ};

    ghost Value = { ℕ };

    ghost use Rattle.refusals.specs.Numbers.{number, rule_of, rule_back};

    ghost view = { λ refusal. number refusal.0 };

    ghost inverse = { λ n. record { 0 = rule_of n } };

    ghost inverse_ok = { λ refusal h. rule_back refusal };
}

impl From<Refusal> for u32 {
    ghost from_gives = { λ refusal n. n ≡ refusal };

    fn from(refusal: Refusal) -> u32 {
        refusal.0 as u32
    }
}

impl fmt::Display for Refusal {
    fn fmt<W: fmt::Write>(&self, f: &mut fmt::Formatter<W>) -> fmt::Result {
        write!(f, "refused by {}", self.0 as u32)
    }
}

impl Error for Refusal {}
