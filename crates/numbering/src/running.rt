// A journal run on a keeper, and its lines thrown away.
ghost use Rattle.std.specs.Prelude.{◌≡◌};
ghost use Rattle.replay.specs.Whole.{replayed};
ghost use Rattle.numbering.specs.Running.{ran_from};

use journal::{header, payload};
use keeper::Keeper;
use ledger::sizes::START_BYTES;
use replay::{OUT_ROOM, take_turn};
use steps::make_on;
use transcript::LONGEST_LINE;

// Runs a journal of a version from a place on to where it ends. A turn writes its line too, which nobody reads here: what runs a record and what
// moves on is proved of turns.
fn run_out(version: u32, j: &[u8], at: usize, k: &mut Keeper)
    ensures { k.new ≡ ran_from version j.now at k.old }
{
    let mut out = [0u8; OUT_ROOM];
    let mut line = [0u8; LONGEST_LINE];
    let mut place = at;
    while let Some(next) = take_turn(version, j, place, k, &mut out, &mut line).next {
        place = next;
    }
}

// A record made the keeper that a replay of the journal leaves. Where the header is not good, it stays as it was.
pub fn replay_on(j: &[u8], k: &mut Keeper)
    ensures { k.new ≡ replayed j.now k.old }
{
    let Ok(h) = header(j) else {
        return;
    };
    make_on(k, payload(j, h.place, START_BYTES));
    run_out(h.version, j, h.place, k);
}
