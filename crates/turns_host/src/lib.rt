#![tactic(auto)]
// Document 02's turns for C: eight lines in a lent slice.
ghost use Rattle.std.specs.Prelude.{◌≡◌, ◌<◌, ℕ, length};
ghost use Rattle.turns.specs.Turn.{round_of};
ghost use Rattle.turns_host.specs.Host.{shares_of, counts_of, marks_of, with_counts, turned, taken_of, line_told, number_told};

use refusals::Refusal;
use turns::LINES;

// A line as its host lends it: its share of a round, the turns given in it, and its mark, 1 while a message waits.
#[repr(C)]
#[derive(Clone, Copy)]
pub struct Line {
    pub share: u8,
    pub given: u8,
    pub waiting: u8,
}

fn shares(lines: &[Line]) -> [u8; LINES]
    requires { length lines.now ≡ 8 }
    ensures { result ≡ shares_of lines.now }
{
    let mut share = [0u8; LINES];
    for i in 0..8 {
        share[i] = lines[i].share;
    }
    share
}

fn counts(lines: &[Line]) -> [u8; LINES]
    requires { length lines.now ≡ 8 }
    ensures { result ≡ counts_of lines.now }
{
    let mut given = [0u8; LINES];
    for i in 0..8 {
        given[i] = lines[i].given;
    }
    given
}

fn marks(lines: &[Line]) -> [u8; LINES]
    requires { length lines.now ≡ 8 }
    ensures { result ≡ marks_of lines.now }
{
    let mut waiting = [0u8; LINES];
    for i in 0..8 {
        waiting[i] = lines[i].waiting;
    }
    waiting
}

// A round that begins has given no turn yet.
fn open_round(lines: &mut [Line], begins: bool)
    requires { length lines.old ≡ 8 }
    ensures { lines.new ≡ with_counts lines.old (round_of begins (counts_of lines.old)) }
{
    if !begins {
        return;
    }
    for i in 0..8 {
        lines[i].given = 0;
    }
}

// A turn over lent lines, and to whom. Refused with 1, 19 or 20, and nothing lent changes.
fn take_turn(lines: &mut [Line]) -> Result<usize, Refusal>
    ensures { (i : ℕ) → turned lines.new (line_told i result) (number_told result) ≡ taken_of lines.old i }
{
    if lines.len() != LINES {
        return Err(Refusal::Buffer);
    }
    let choice = turns::choose(shares(lines), counts(lines), marks(lines))?;
    open_round(lines, choice.begins);
    let i = choice.line;
    lines[i].given += 1;
    Ok(i)
}

// A turn over lent lines: 0, and line says to whom; 1, 19 or 20, and nothing lent changes.
pub fn wax_turn_next(lines: &mut [Line], line: &mut usize) -> u32
    ensures { turned lines.new line.new result ≡ taken_of lines.old line.old }
{
    match take_turn(lines) {
        Ok(i) => {
            *line = i;
            0
        }
        Err(why) => why.number(),
    }
}
