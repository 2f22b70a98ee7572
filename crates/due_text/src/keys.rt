// The keys of a whole text, line by line.
ghost use Rattle.std.specs.Prelude.{◌≡◌, ◌≤◌, length, MatchResult};
ghost use Rattle.due_text.specs.Line.{line_of};
ghost use Rattle.due_text.specs.Keys.{keys_outcome, keys_of};
ghost use Rattle.due_text.specs.Stored.{GoesOn, Stops};

use crate::line;
use crate::line::Fault;
use answers::Refusal;

// The number of a line, from 1, and what is wrong with it.
#[derive(Clone, Copy, Debug, PartialEq, Eq)]
pub struct BadLine {
    pub line: usize,
    pub fault: Fault,
}

// The keys of the text, in its order, into the first places of the room: how many they are, or the first bad line.
pub fn read(text: &[u8], room: &mut [u64]) -> Result<usize, BadLine>
    ensures { keys_outcome result room.new ≡ keys_of text.now room.old }
{
    let mut count = 0;
    for (before, line) in text.split(|byte| *byte == b'\n').enumerate() {
        count = store(line, room, count).map_err(|fault| BadLine {
            line: before + 1,
            fault,
        })?;
    }
    Ok(count)
}

// The key of one line goes behind the keys before it: how many they are then.
// `count` stays beside `room`: a struct of the two would be no plainer, as `read` is lent the one and answers the other.
#[tactic(auto, using(crate::proofs::Stored::one_line))]
fn store(line: &[u8], room: &mut [u64], count: usize) -> Result<usize, Fault>
    requires { count ≤ length room.old }
    ensures { let said = line_of line.now in MatchResult result (GoesOn said room.old room.new count) (Stops said room.old room.new count) }
{
    // No more is done for it: a text may have many.
    if line.is_empty() {
        return Ok(count);
    }
    let Some(key) = line::read(line)? else {
        return Ok(count);
    };
    if count == room.len() {
        return Err(Fault::TooManyKeys);
    }
    // A build would refuse it too, but could not say on which line it is.
    if room[..count].contains(&key) {
        return Err(Fault::Refused(Refusal::RepeatedKeys));
    }
    room[count] = key;
    Ok(count + 1)
}
