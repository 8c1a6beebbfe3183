// The calls that bring bytes: device event, interrupt, write, seed.
ghost use Rattle.std.specs.Prelude.{◌≡◌, []};
ghost use Rattle.keeper.specs.Calls.{device_event, interrupted, written, seeded_with};
ghost use Rattle.steps.specs.Promise.{left, leaves};

use crate::answers::refused;
use crate::range::{device_timer, others_in_range};
use decide::{answer_of, decide_event, decide_interrupt, decide_seed, decide_write};
use fastpool::stir;
use flows::{feed, feed_event, reseed, spill};
use keeper::Keeper;
use ledger::Answer;
use mixer::Pool;
use reckon::keep_timer;

// A device event.
pub fn event_on(k: &mut Keeper, device: u32, at: u32, stamp: u64, value: u32) -> Answer
    ensures { left k.new result [] ≡ leaves k.old (device_event device at stamp value) [] }
{
    let others = others_in_range(k);
    let t = device_timer(k, device);
    let p = match decide_event(others, k.ledger, t, device, at, value) {
        Ok(p) => p,
        Err(why) => return refused(k, why),
    };
    keep_timer(
        &mut k.clocks,
        &mut k.firsts,
        &mut k.seconds,
        &mut k.came,
        device,
        p.timer,
    );
    k.ledger = p.ledger;
    let mut input = Pool::new(&mut k.input, k.ledger.input.spot);
    feed_event(&mut input, stamp, at, value);
    reseed(&mut input, &mut k.generator, p.reseed);
    k.ledger.input.spot = input.spot;
    answer_of(p)
}

// An interrupt.
pub fn interrupt_on(k: &mut Keeper, at: u32, number: u32, stamp: u64, address: u64) -> Answer
    ensures { left k.new result [] ≡ leaves k.old (interrupted at number stamp address) [] }
{
    let others = others_in_range(k);
    let p = match decide_interrupt(others, k.ledger, at, number) {
        Ok(p) => p,
        Err(why) => return refused(k, why),
    };
    k.ledger = p.ledger;
    stir(&mut k.fast, at, number, stamp, address);
    // most interrupts only stir
    if !p.feeds {
        return answer_of(p);
    }
    let mut input = Pool::new(&mut k.input, k.ledger.input.spot);
    spill(&mut input, &k.fast);
    reseed(&mut input, &mut k.generator, p.reseed);
    k.ledger.input.spot = input.spot;
    answer_of(p)
}

// A write.
pub fn write_on(k: &mut Keeper, bytes: &[u8]) -> Answer
    ensures { left k.new result [] ≡ leaves k.old (written bytes.now) [] }
{
    let others = others_in_range(k);
    let p = match decide_write(others, k.ledger, bytes.len()) {
        Ok(p) => p,
        Err(why) => return refused(k, why),
    };
    k.ledger = p.ledger;
    let mut input = Pool::new(&mut k.input, k.ledger.input.spot);
    feed(&mut input, bytes);
    k.ledger.input.spot = input.spot;
    answer_of(p)
}

// A seed.
pub fn seed_on(k: &mut Keeper, at: u32, bytes: &[u8], credit: u32) -> Answer
    ensures { left k.new result [] ≡ leaves k.old (seeded_with at bytes.now credit) [] }
{
    let others = others_in_range(k);
    let p = match decide_seed(others, k.ledger, at, bytes.len(), credit) {
        Ok(p) => p,
        Err(why) => return refused(k, why),
    };
    k.ledger = p.ledger;
    let mut input = Pool::new(&mut k.input, k.ledger.input.spot);
    feed(&mut input, bytes);
    reseed(&mut input, &mut k.generator, p.reseed);
    k.ledger.input.spot = input.spot;
    answer_of(p)
}
