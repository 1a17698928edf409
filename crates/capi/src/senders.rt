// Several senders on one code.
ghost use Rattle.std.specs.Prelude.{◌≡◌};
ghost use Rattle.shortened.specs.Setting.{short_code};
ghost use Rattle.scheduler.specs.State.{dash, state_of};
ghost use Rattle.scheduler.specs.Answers.{start_answer, start_waiting, start_next, offer_answer, offer_waiting, offer_words};
ghost use Rattle.scheduler.specs.Answers.{round_answer, waiting_after, next_after, answers_after, handed_after};
ghost use Rattle.wire.specs.Wire.{code, outcome_code};

use field::Elem;
use params::Parameters;
use scheduler::Dash;

#[unsafe(no_mangle)]
pub extern "C" fn zov_senders_start(
    m: u32,
    n: u32,
    t: u32,
    omega: u32,
    h: &[Elem],
    hidden: &[u8],
    senders: u32,
    repairs: u32,
    waiting: &mut [u8],
    next: &mut [u32],
) -> u32
    ensures value { result
        ≡ outcome_code
        (start_answer (code m n t omega) h.now (short_code hidden.now) (dash senders repairs) waiting.old
        next.old) }
    ensures waiting_after { waiting.new
        ≡ start_waiting (code m n t omega) h.now (short_code hidden.now) (dash senders repairs) waiting.old
        next.old }
    ensures next_after { next.new
        ≡ start_next (code m n t omega) h.now (short_code hidden.now) (dash senders repairs) waiting.old
        next.old }
{
    wire::outcome_code(scheduler::start(
        Parameters { m, n, t, omega },
        h,
        hidden,
        Dash { senders, repairs },
        waiting,
        next,
    ))
}

#[unsafe(no_mangle)]
pub extern "C" fn zov_senders_offer(
    m: u32,
    n: u32,
    t: u32,
    omega: u32,
    h: &[Elem],
    hidden: &[u8],
    senders: u32,
    repairs: u32,
    sender: u32,
    word: &[u8],
    waiting: &mut [u8],
    words: &mut [u8],
) -> u32
    ensures value { result
        ≡ outcome_code
        (offer_answer (code m n t omega) h.now (short_code hidden.now) (dash senders repairs) sender word.now
        waiting.old
        words.old) }
    ensures waiting_after { waiting.new
        ≡ offer_waiting (code m n t omega) h.now (short_code hidden.now) (dash senders repairs) sender word.now
        waiting.old
        words.old }
    ensures words_after { words.new
        ≡ offer_words (code m n t omega) h.now (short_code hidden.now) (dash senders repairs) sender word.now
        waiting.old
        words.old }
{
    wire::outcome_code(scheduler::offer(
        Parameters { m, n, t, omega },
        h,
        hidden,
        Dash { senders, repairs },
        sender,
        word,
        waiting,
        words,
    ))
}

#[unsafe(no_mangle)]
pub extern "C" fn zov_senders_round(
    m: u32,
    n: u32,
    t: u32,
    omega: u32,
    h: &[Elem],
    hidden: &[u8],
    senders: u32,
    repairs: u32,
    waiting: &mut [u8],
    words: &[u8],
    next: &mut [u32],
    answers: &mut [u32],
    handed: &mut [u8],
) -> u32
    ensures value { result
        ≡ outcome_code
        (round_answer (code m n t omega) h.now (short_code hidden.now) (dash senders repairs)
        (state_of waiting.old words.now next.old) answers.old handed.old) }
    ensures waiting_after { waiting.new
        ≡ waiting_after (code m n t omega) h.now (short_code hidden.now) (dash senders repairs)
        (state_of waiting.old words.now next.old) answers.old handed.old }
    ensures next_after { next.new
        ≡ next_after (code m n t omega) h.now (short_code hidden.now) (dash senders repairs)
        (state_of waiting.old words.now next.old) answers.old handed.old }
    ensures answers_after { answers.new
        ≡ answers_after (code m n t omega) h.now (short_code hidden.now) (dash senders repairs)
        (state_of waiting.old words.now next.old) answers.old handed.old }
    ensures handed_after { handed.new
        ≡ handed_after (code m n t omega) h.now (short_code hidden.now) (dash senders repairs)
        (state_of waiting.old words.now next.old) answers.old handed.old }
{
    wire::outcome_code(scheduler::round(
        Parameters { m, n, t, omega },
        h,
        hidden,
        Dash { senders, repairs },
        waiting,
        words,
        next,
        answers,
        handed,
    ))
}
