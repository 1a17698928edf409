// A round for an accepted code, whose inverses 1/h are known, and any list of its columns: place j of a word is column cols_j.
ghost use Rattle.std.specs.Prelude.{◌≡◌, true, length};
ghost use Rattle.slices.specs.Bits.{IsBits};
ghost use Rattle.parity.specs.OfCode.{of_code, OfCode};
ghost use Rattle.parity.specs.Word.{is_code_word};
ghost use Rattle.turns.specs.declared.Mark.TheVariants.{CodeWord};
ghost use Rattle.scheduler.specs.State.{state_of};
ghost use Rattle.scheduler.specs.Parts.{mark_of, answer_of, handed_of, marks_of, answers_of, handed_parts, waiting_of};
ghost use Rattle.scheduler.specs.Parts.{Words, LentHands, LentRound, Made, LentState, RoundEnded};

use crate::{Dash, MOST_SENDERS, NONE, faults};
use nearest::is_code_word;
use parity::Code;
use refusals::Refusal;
use repair::decoder;
use slices::copy;
use turns::{Mark, take_turns};
use wire::recovery_code;

// What a round does with a sender's word: nothing where none waits; else it is handed out as a code word, or is one of the others.
fn mark(code: &Code<'_>, wait: u8, word: &[u8]) -> Mark
    requires { wait ≡ 1 → IsBits (length code.now.cols.now) word.now }
    ensures { result ≡ of_code mark_of code.now wait word.now }
{
    if wait != 1 {
        return Mark::Stays;
    }
    if is_code_word(code.c, code.h, code.cols, word) {
        return Mark::CodeWord;
    }
    Mark::Other
}

// The marks of all senders.
fn mark_all(code: &Code<'_>, waiting: &[u8], words: &[u8], marks: &mut [Mark])
    requires words { Words (length code.now.cols.now) waiting.now words.now }
    requires marks_len { length marks.old ≡ length waiting.now }
    ensures { marks.new ≡ of_code marks_of code.now waiting.now words.now }
{
    let n = code.cols.len();
    // Cut by hand: `chunks_exact` asks that n is not 0, which a code on its columns does not tell. By index, since std says nothing of what is written
    // after an adapter of `iter_mut` other than `enumerate`, as `zip`.
    for (p, to) in marks.iter_mut().enumerate() {
        let start = p * n;
        let end = start + n;
        *to = mark(code, waiting[p], &words[start..end]);
    }
}

// The answer to a sender by its mark, as the number that C is told, and the word that it is handed: a code word is its own repair.
fn hand_one(code: &Code<'_>, mark: Mark, word: &[u8], handed: &mut [u8]) -> u32
    requires word_len { (length word.now ≡ length code.now.cols.now) × (length handed.old ≡ length code.now.cols.now) }
    requires bits { mark ≡ CodeWord → IsBits (length code.now.cols.now) word.now
        × (of_code is_code_word code.now word.now ≡ true) }
    ensures value { result ≡ of_code answer_of code.now mark word.now }
    ensures handed_after { handed.new ≡ of_code handed_of code.now mark word.now handed.old }
{
    // By tests, and by no `match`: a must-fail edit changes the second.
    if mark.stays() {
        return NONE;
    }
    let whole = mark == Mark::CodeWord;
    if whole {
        copy(word, handed);
        return 0;
    }
    recovery_code(decoder::repair(code, word, handed))
}

// The same for all senders.
fn hand_out(code: &Code<'_>, marks: &[Mark], words: &[u8], answers: &mut [u32], handed: &mut [u8])
    requires { OfCode LentHands code.now marks.now words.now answers.old handed.old }
    ensures answers_after { answers.new ≡ of_code answers_of code.now marks.now words.now }
    ensures handed_after { handed.new
        ≡ of_code handed_parts code.now marks.now words.now handed.old }
{
    let n = code.cols.len();
    // As in `mark_all`.
    for (p, answer) in answers.iter_mut().enumerate() {
        let start = p * n;
        let end = start + n;
        *answer = hand_one(code, marks[p], &words[start..end], &mut handed[start..end]);
    }
}

// Words that left no longer wait.
fn dismiss(marks: &[Mark], waiting: &mut [u8])
    requires { length marks.now ≡ length waiting.old }
    ensures { waiting.new ≡ waiting_of marks.now waiting.old }
{
    // By index: std says nothing of what is written after an adapter of `iter_mut` other than `enumerate`, as `zip`.
    for (p, wait) in waiting.iter_mut().enumerate() {
        if !marks[p].stays() {
            *wait = 0;
        }
    }
}

// Makes the round, with room for a mark for each sender.
fn make(
    code: &Code<'_>,
    repairs: u32,
    waiting: &mut [u8],
    words: &[u8],
    next: &mut [u32],
    marks: &mut [Mark],
    answers: &mut [u32],
    handed: &mut [u8],
)
    requires { LentRound (length code.now.cols.now) (state_of waiting.old words.now next.old) marks.old answers.old handed.old }
    ensures { OfCode Made code.now repairs (state_of waiting.old words.now next.old)
        handed.old waiting.new next.new answers.new handed.new }
{
    mark_all(code, waiting, words, marks);
    let turn = take_turns(repairs, next[0] as usize, marks);
    hand_out(code, marks, words, answers, handed);
    dismiss(marks, waiting);
    next[0] = turn as u32;
}

// The round, or 18 or 8.
pub(crate) fn round_on(
    code: &Code<'_>,
    d: Dash,
    waiting: &mut [u8],
    words: &[u8],
    next: &mut [u32],
    answers: &mut [u32],
    handed: &mut [u8],
) -> Result<(), Refusal>
    requires { LentState d (length code.now.cols.now) (state_of waiting.old words.now next.old) answers.old handed.old }
    ensures { OfCode RoundEnded code.now d (state_of waiting.old words.now next.old)
        answers.old handed.old result waiting.new next.new answers.new handed.new }
{
    faults::check_state(d, code.cols.len(), waiting, words, next[0])?;
    let mut marks: [Mark; MOST_SENDERS] = [Mark::Stays; MOST_SENDERS];
    let senders = waiting.len();
    make(
        code,
        d.repairs,
        waiting,
        words,
        next,
        &mut marks[..senders],
        answers,
        handed,
    );
    Ok(())
}
