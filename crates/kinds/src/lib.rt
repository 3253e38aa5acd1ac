#![tactic(auto)]
// The kinds of stations, and whose rules each has: said here for all code and in specs/Kinds.antt for the definitions; and what a station waits for.
ghost use Rattle.std.specs.Prelude.{◌≡◌};
ghost use Rattle.kinds.specs.Kinds.{locking, keeps};

// A station's kind, fixed for life.
#[derive(Clone, Copy, PartialEq, Eq, Debug)]
pub enum Kind {
    Locking = 0,
    Validating = 1,
    Keeping = 2,
}

// The highest kind.
pub const MOST: u8 = Kind::Keeping as u8;

// What a station waits for, and what the server's entry wants for it: the byte that each state keeps of it, and any state may be lent with any byte there.
#[derive(Clone, Copy, PartialEq, Eq, Debug)]
pub enum Want {
    Nothing = 0,
    Read = 1,
    Write = 2,
    Commit = 3,
}

// Both are asked of any byte that a state has in a kind's place: what is not validating has a locking station's rules, as the definitions say.

// Whether a station of this kind holds locks and is called back.
pub fn locking(kind: u8) -> bool
    ensures { result ≡ locking kind }
{
    kind != Kind::Validating as u8
}

// Whether its whole locks outlive their transactions.
pub fn keeps(kind: u8) -> bool
    ensures { result ≡ keeps kind }
{
    kind == Kind::Keeping as u8
}
