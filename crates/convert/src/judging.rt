// One pass over a journal, before anything is written.
ghost use Rattle.journal.specs.Walking.{walk};
ghost use Rattle.convert.specs.Passes.{judged, Tells};

use journal::{Record, devices_in, read};
use ledger::Refusal;

// Whether an event among the records is of a device that version 1 has not, and how many events there are.
#[derive(Clone, Copy)]
pub struct Judged {
    pub strange: bool,
    pub events: usize,
}

// Goes over the records from a position on.
pub fn judge(version: u32, j: &[u8], from: usize) -> Result<Judged, Refusal>
    ensures { Tells result (judged (walk version j.now from)) }
{
    let mut at = from;
    let mut strange = false;
    let mut events = 0;
    while let Some((it, next)) = read(version, j, at)? {
        if let Record::Event { device, .. } = it {
            strange |= device as usize >= devices_in(1);
            events += 1;
        }
        at = next;
    }
    Ok(Judged { strange, events })
}
