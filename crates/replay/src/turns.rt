// One turn of a replay.
ghost use Rattle.std.specs.Prelude.{◌≡◌, ◌≤◌, length, take};
ghost use Rattle.transcript.specs.Lines.{line_in};
ghost use Rattle.replay.specs.Turns.{turn_of, told_at, Took};

use crate::running::{OUT_ROOM, run};
use journal::read;
use keeper::Keeper;
use ledger::{Answer, Ledger};
use transcript::{LONGEST_LINE, ending, line};

// What a turn leaves besides what it was lent: the position after it, where there is more, and the length of its line.
#[derive(Clone, Copy, Debug, PartialEq, Eq)]
pub struct Turn {
    pub next: Option<usize>,
    pub len: usize,
}

// A line with so many of the bytes.
fn line_with(a: Answer, l: Ledger, out: &[u8], room: &mut [u8]) -> usize
    requires { a.delivered ≤ length out.now }
    ensures { (record { count = result; room = room.new }) ≡ line_in room.old a l.input.count l.blocking.count (take a.delivered out.now) }
{
    let given = a.delivered as usize;
    line(a, l.input.count, l.blocking.count, &out[..given], room)
}

// The record at a position of a journal of a version, run, and its line; or the last line. `out` is for the bytes that a read hands out.
pub fn take_turn(
    version: u32,
    j: &[u8],
    at: usize,
    k: &mut Keeper,
    out: &mut [u8; OUT_ROOM],
    room: &mut [u8; LONGEST_LINE],
) -> Turn
    ensures { Took (turn_of version j.now at k.old) k.new (told_at at result.next result.len) out.old out.new room.old room.new }
{
    match read(version, j, at) {
        Ok(Some((it, next))) => {
            let a = run(version, j, it, next, k, out);
            let len = line_with(a, k.ledger, &out[..], &mut room[..]);
            Turn {
                next: Some(next),
                len,
            }
        }
        Ok(None) => Turn {
            next: None,
            len: ending(0, &mut room[..]),
        },
        Err(why) => Turn {
            next: None,
            len: ending(why.number(), &mut room[..]),
        },
    }
}
