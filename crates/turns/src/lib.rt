#![tactic(auto)]
// Document 02's turns over the numbers of eight lines: whose turn is next.
ghost use Rattle.std.specs.Prelude.{◌≡◌, ◌<◌, Ok};
ghost use Rattle.lists.specs.Tests.{all_to};
ghost use Rattle.turns.specs.Turn.{ready, lowest, in_range, share_ok, rests, outcome, found, choice_of};

use refusals::Refusal;

// One number of each line.
pub const LINES: usize = 8;

// Whom a turn is given to, and whether a round begins with it.
#[derive(Clone, Copy)]
pub struct Choice {
    pub line: usize,
    pub begins: bool,
}

// The shares of the lines, the turns that each was given in this round, and the marks: 1 while a message waits.
#[derive(Clone, Copy)]
struct Lines {
    share: [u8; LINES],
    given: [u8; LINES],
    waiting: [u8; LINES],
}

impl Lines {
    fn ready(self, i: usize) -> bool
        requires { i < 8 }
        ensures { result ≡ ready self.share self.given self.waiting i }
    {
        (self.waiting[i] == 1) & (self.given[i] < self.share[i])
    }

    // The lowest waiting line with share left; 8 for none, as definition `lowest` says.
    fn lowest(self) -> usize
        ensures { result ≡ lowest self.share self.given self.waiting }
    {
        for i in 0..8 {
            if self.ready(i) {
                return i;
            }
        }
        8
    }

    fn in_range(self) -> bool
        ensures { result ≡ all_to (in_range self.share self.given self.waiting) 8 }
    {
        let mut ok = true;
        for i in 0..8 {
            ok &= (self.given[i] <= self.share[i]) & (self.waiting[i] <= 1);
        }
        ok
    }

    fn shares_ok(self) -> bool
        ensures { result ≡ all_to (share_ok self.share) 8 }
    {
        let mut ok = true;
        for i in 0..8 {
            ok &= (1 <= self.share[i]) & (self.share[i] <= 4);
        }
        ok
    }

    fn rests(self) -> bool
        ensures { result ≡ all_to (rests self.waiting) 8 }
    {
        let mut none = true;
        for i in 0..8 {
            none &= self.waiting[i] != 1;
        }
        none
    }

    // The lowest waiting line with share left, in a new round where there is none in this one.
    fn find(self) -> Choice
        ensures { outcome (Ok result) ≡ found self.share self.given self.waiting }
    {
        let line = self.lowest();
        if line < 8 {
            return Choice {
                line,
                begins: false,
            };
        }
        let share = self.share;
        let given = [0; LINES];
        let waiting = self.waiting;
        let fresh = Lines {
            share,
            given,
            waiting,
        };
        Choice {
            line: fresh.lowest(),
            begins: true,
        }
    }
}

// Whose turn is next: the line, and whether its turn begins a round. Refused with 1, 19 or 20.
pub fn choose(
    share: [u8; LINES],
    given: [u8; LINES],
    waiting: [u8; LINES],
) -> Result<Choice, Refusal>
    ensures { outcome result ≡ choice_of share given waiting }
{
    let lines = Lines {
        share,
        given,
        waiting,
    };
    if !lines.in_range() {
        return Err(Refusal::Buffer);
    }
    if !lines.shares_ok() {
        return Err(Refusal::Share);
    }
    if lines.rests() {
        return Err(Refusal::Idle);
    }
    Ok(lines.find())
}
