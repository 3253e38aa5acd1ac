#![tactic(auto)]
// Why a call is turned away: document 01's list "Turned back" and what document 02 adds to it, a name for each number.
ghost use Rattle.std.specs.Prelude.{◌≡◌};
ghost use Rattle.refusals.specs.Refusals.{number_of, code};

#[derive(Clone, Copy, PartialEq, Eq, Debug)]
pub enum Refusal {
    // A lent state or buffer.
    Buffer = 1,
    // The length of a message.
    Length = 2,
    // A kind that this end does not take.
    Kind = 3,
    // An argument or a field.
    Range = 4,
    // The layout of a record, or what it says beside its message.
    Record = 5,
    // A message that nothing waits for, or that this station may not send now.
    Unexpected = 6,
    // A request or a commit is out.
    Waiting = 7,
    // No transaction is open.
    Closed = 8,
    // One is open already.
    Open = 9,
    // A page that stays.
    Kept = 10,
    // No transaction comes after the last.
    Spent = 11,
    // Bytes that end inside a record.
    Short = 12,
    // A commit number that is not the next.
    Sequence = 13,
    // A read that differs from what earlier records left.
    Replay = 14,
    // One read or written object too many.
    Long = 15,
    // A window has no such register.
    Register = 16,
    // A tariff's table.
    Tariff = 17,
    // A number above 2^63 - 1.
    Beyond = 18,
    // A share of the server's turns.
    Share = 19,
    // No line waits for a turn.
    Idle = 20,
    // A block of records.
    Block = 21,
    // No record, or no entry, at that place.
    End = 255,
}

impl Refusal {
    // Its number, for C.
    pub fn number(self) -> u32
        ensures { result ≡ number_of self }
    {
        self as u32
    }
}

// What a call answers to C: 0 where it was accepted.
pub fn code(answer: Result<(), Refusal>) -> u32
    ensures { result ≡ code answer }
{
    match answer {
        Ok(()) => 0,
        Err(why) => why.number(),
    }
}
