// One record run on a keeper.
ghost use Rattle.std.specs.Prelude.{◌≡◌, ◌+◌, min};
ghost use Rattle.ledger.specs.Sizes.{longest};
ghost use Rattle.keeper.specs.Calls.{generator_read, blocking_read_of};
ghost use Rattle.steps.specs.Promise.{left, leaves};
ghost use Rattle.journal.specs.Writing.{carried_by};
ghost use Rattle.replay.specs.Running.{device_named, call_with};

use journal::{Record, devices_in, payload};
use keeper::Keeper;
use ledger::Answer;
use ledger::sizes::{DEVICES, LONGEST};
use steps::{blocking_read_on, event_on, interrupt_on, read_on, seed_on, write_on};

// A room for a read of any length: a read of more than the longest is refused, whatever its length, so one byte more is enough.
pub const OUT_ROOM: usize = LONGEST + 1;

fn room_for(len: u32) -> usize
    ensures { result ≡ min len (longest + 1) }
{
    (len as usize).min(OUT_ROOM)
}

// A generator read of len bytes. Two functions, this and the next: one for both would be told which to call, and they share no more than the length.
fn read_into(k: &mut Keeper, at: u32, out: &mut [u8; OUT_ROOM], len: u32) -> Answer
    ensures { left k.new result out.new ≡ leaves k.old (generator_read at len) out.old }
{
    let n = room_for(len);
    read_on(k, at, &mut out[..n])
}

// A blocking read of len bytes.
fn blocking_read_into(k: &mut Keeper, out: &mut [u8; OUT_ROOM], len: u32) -> Answer
    ensures { left k.new result out.new ≡ leaves k.old (blocking_read_of len) out.old }
{
    let n = room_for(len);
    blocking_read_on(k, &mut out[..n])
}

// The device that an event of a version names. One that there was not when such journals were written is none of the keeper's either.
fn device_named(version: u32, device: u32) -> u32
    ensures { result ≡ device_named version device }
{
    if (device as usize) < devices_in(version) {
        return device;
    }
    DEVICES as u32
}

// The call that a record of a version stands for; `next` is the position after it. What it hands out is laid into the front of `out`.
pub fn run(
    version: u32,
    j: &[u8],
    it: Record,
    next: usize,
    k: &mut Keeper,
    out: &mut [u8; OUT_ROOM],
) -> Answer
    ensures { left k.new result out.new ≡ leaves k.old (call_with version (carried_by j.now it next) it) out.old }
{
    match it {
        Record::Event {
            now,
            device,
            stamp,
            value,
        } => event_on(k, device_named(version, device), now, stamp, value),
        Record::Interrupt {
            now,
            number,
            stamp,
            address,
        } => interrupt_on(k, now, number, stamp, address),
        Record::Write { len, .. } => write_on(k, payload(j, next, len)),
        Record::Seed { now, len, credit } => seed_on(k, now, payload(j, next, len), credit),
        Record::Read { now, len } => read_into(k, now, out, len),
        Record::BlockingRead { len, .. } => blocking_read_into(k, out, len),
    }
}
