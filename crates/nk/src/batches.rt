// A journal run for as many records as a room has place for the lines of.
ghost use Rattle.nk.specs.Batches.{batch_of, Laid};

use keeper::Keeper;
use replay::{OUT_ROOM, take_turn};
use transcript::LONGEST_LINE;

pub const ROOM: usize = 65536;

// With no more than this in the room, the longest line still fits.
const MOST_BEFORE_A_LINE: usize = ROOM - LONGEST_LINE;

// The position after the last turn, whether there is more, and how many bytes of the room are lines. No Option in place of the flag: the position is
// told where the replay ended too, as `batch_of` of specs/Batches.antt has it.
#[derive(Clone, Copy, Debug, PartialEq, Eq)]
pub struct Batch {
    pub at: usize,
    pub more: bool,
    pub count: usize,
}

// Takes turns in a journal of a version until the replay ends or a further line might not fit, and lays their lines one behind another at the room's
// start. What stands behind them stays as it was.
pub fn fill_room(version: u32, j: &[u8], at: usize, k: &mut Keeper, room: &mut [u8; ROOM]) -> Batch
    ensures { Laid (batch_of version j.now at k.old) k.new result room.old room.new }
{
    let mut out = [0u8; OUT_ROOM];
    let mut line = [0u8; LONGEST_LINE];
    let mut place = at;
    let mut count = 0;
    loop {
        let turn = take_turn(version, j, place, k, &mut out, &mut line);
        let end = count + turn.len;
        let text = &line[..turn.len];
        room[count..end].copy_from_slice(text);
        count = end;
        let Some(next) = turn.next else {
            return Batch {
                at: place,
                more: false,
                count,
            };
        };
        if count > MOST_BEFORE_A_LINE {
            return Batch {
                at: next,
                more: true,
                count,
            };
        }
        place = next;
    }
}
