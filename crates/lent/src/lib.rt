// The calls, as the terminal makes them: each over the record that it lends by `&mut`, under the name that it links.
//
// A front lends the record on to a function of `steps` or of `issuing`, and hands on its answer. It decides nothing. Every refusal is in the
// step, so a front has no branch, and nothing is asked of the record or of a number.
//
// The contract of each is one equation for all inputs: the record, the answer and the output room, as the call has left them, are
// what specs/Promise.antt of `steps` says that the call leaves. It is the step's own, so no proof stands here.
#![tactic(auto)]

ghost use Rattle.std.specs.Prelude.{◌≡◌, [], length};
ghost use Rattle.desk.specs.Issuing.{left_with, issue};
ghost use Rattle.keeper.specs.Calls.{device_event, interrupted, written, seeded_with, generator_read, blocking_read_of};
ghost use Rattle.steps.specs.Promise.{left, leaves, leaves_made};

use desk::{Desk, Issued};
use issuing::issue_on;
use keeper::Keeper;
use ledger::Answer;
use steps::{blocking_read_on, event_on, interrupt_on, make_on, read_on, seed_on, write_on};

// A keeper made of start bytes, in a record that may hold anything.
#[unsafe(no_mangle)]
pub extern "C" fn nk_make(k: &mut Keeper, start: &[u8]) -> Answer
    ensures { left k.new result [] ≡ leaves_made k.old start.now }
{
    make_on(k, start)
}

// A device event.
#[unsafe(no_mangle)]
pub extern "C" fn nk_event(k: &mut Keeper, device: u32, at: u32, stamp: u64, value: u32) -> Answer
    ensures { left k.new result [] ≡ leaves k.old (device_event device at stamp value) [] }
{
    event_on(k, device, at, stamp, value)
}

// An interrupt.
#[unsafe(no_mangle)]
pub extern "C" fn nk_interrupt(
    k: &mut Keeper,
    at: u32,
    number: u32,
    stamp: u64,
    address: u64,
) -> Answer
    ensures { left k.new result [] ≡ leaves k.old (interrupted at number stamp address) [] }
{
    interrupt_on(k, at, number, stamp, address)
}

// A write.
#[unsafe(no_mangle)]
pub extern "C" fn nk_write(k: &mut Keeper, bytes: &[u8]) -> Answer
    ensures { left k.new result [] ≡ leaves k.old (written bytes.now) [] }
{
    write_on(k, bytes)
}

// A seed.
#[unsafe(no_mangle)]
pub extern "C" fn nk_seed(k: &mut Keeper, at: u32, bytes: &[u8], credit: u32) -> Answer
    ensures { left k.new result [] ≡ leaves k.old (seeded_with at bytes.now credit) [] }
{
    seed_on(k, at, bytes, credit)
}

// A generator read. The output room's length is the read's.
#[unsafe(no_mangle)]
pub extern "C" fn nk_read(k: &mut Keeper, at: u32, out: &mut [u8]) -> Answer
    ensures { left k.new result out.new ≡ leaves k.old (generator_read at (length out.old)) out.old }
{
    read_on(k, at, out)
}

// A blocking read.
#[unsafe(no_mangle)]
pub extern "C" fn nk_blocking_read(k: &mut Keeper, out: &mut [u8]) -> Answer
    ensures { left k.new result out.new ≡ leaves k.old (blocking_read_of (length out.old)) out.old }
{
    blocking_read_on(k, out)
}

// A message number of the desk, which is a record of its own.
#[unsafe(no_mangle)]
pub extern "C" fn nk_issue(k: &mut Keeper, desk: &mut Desk, at: u32, field: &[u8]) -> Issued
    ensures { left_with k.new desk.new result ≡ issue k.old desk.old at field.now }
{
    issue_on(k, desk, at, field)
}
