#![tactic(auto)]
// What a station says to its owner.
ghost use Rattle.std.specs.Prelude.{◌≡◌};
ghost use Rattle.station_answer.specs.Did.{said};

// What an owner is told.
#[derive(Clone, Copy)]
pub enum Answer {
    Refused(u32),
    Begun(u32),
    Value(u64),
    Waits,
    Written,
    Committed(u32),
    Aborted(u32),
    Purged,
    Nothing,
}

// An answer, with how many messages and how many bytes of a commit are to be sent.
#[derive(Clone, Copy)]
pub struct Said {
    pub answer: Answer,
    pub messages: usize,
    pub commit: usize,
}

// An answer with so many messages and no commit.
pub fn say(answer: Answer, messages: usize) -> Said
    ensures { result ≡ said answer messages 0 }
{
    Said {
        answer,
        messages,
        commit: 0,
    }
}
