#![tactic(auto)]
// The record of a commit of an archive, every record up to it read and replayed (document 02, wish 8: one archive, two readers).
ghost use Rattle.std.specs.Prelude.{◌≡◌};
ghost use Rattle.archive.specs.Answered.{answer_of};
ghost use Rattle.seek.specs.Seek.{sought_from, sought_of};

use archive::{Answer, Fields};
use refusals::Refusal;

// Replays the archive on these values up to the record of this commit.
fn find_on(archive: &[u8], commit: u32, values: &mut [u64; 256]) -> Result<Option<Fields>, Refusal>
    ensures { answer_of result ≡ sought_from commit archive.now 0 0 values.old }
{
    let mut at = 0;
    let mut last = 0;
    for before in 0..commit {
        let Some(f) = replay::replay_at(archive, at, last, values)? else {
            return Ok(None);
        };
        if commit - before == 1 {
            return Ok(Some(f));
        }
        at = f.end;
        last = f.commit;
    }
    Ok(None)
}

// The record of a commit: its fields; none where the archive has none of this number; or why it or a record before it is refused.
pub fn find(archive: &[u8], commit: u32) -> Result<Option<Fields>, Refusal>
    ensures { answer_of result ≡ sought_of archive.now commit }
{
    let mut values = [0u64; 256];
    find_on(archive, commit, &mut values)
}

// `find` as an `Answer`.
pub fn seek(archive: &[u8], commit: u32) -> Answer
    ensures { result ≡ sought_of archive.now commit }
{
    Answer::from(find(archive, commit))
}
