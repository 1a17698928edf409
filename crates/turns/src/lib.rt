// Whose turn it is. Of the senders whose words have to be repaired, so many are tried in a round: in turn, from the sender on who comes after the one
// last tried (round robin).
#![tactic(auto)]

ghost use Rattle.std.specs.Prelude.{◌≡◌, ◌<◌, length};
ghost use Rattle.turns.specs.Marks.{stays, tries, marks_after, turn_after_marks};

// What a round does with a sender's word: it stays, if there is one; it is handed out as it is; or it is one of the others, which are tried in turn.
#[derive(Clone, Copy, PartialEq, Eq, Debug)]
pub enum Mark {
    Stays,
    CodeWord,
    Other,
}

impl Mark {
    pub fn stays(&self) -> bool
        ensures { result ≡ stays self.now }
    {
        *self == Mark::Stays
    }

    fn is_other(&self) -> bool
        ensures { result ≡ tries self.now }
    {
        *self == Mark::Other
    }
}

// Goes through the senders' marks in turn, from `next` on: the first so many of the others are tried and keep theirs, and the others after them stay.
// Answers whose turn it is afterwards.
pub fn take_turns(repairs: u32, next: usize, marks: &mut [Mark]) -> usize
    requires { next < length marks.old }
    ensures value { result ≡ turn_after_marks repairs next marks.old }
    ensures marks_after { marks.new ≡ marks_after repairs next marks.old }
{
    let senders = marks.len();
    let mut left = repairs;
    let mut turn = next;
    // By index: the turn goes on to the sender after the one tried.
    for sender in (next..senders).chain(0..next) {
        if marks[sender].is_other() {
            if left == 0 {
                marks[sender] = Mark::Stays;
            } else {
                left -= 1;
                turn = (sender + 1) % senders;
            }
        }
    }
    turn
}
