// P7 to P12, the event that was worth 60 units, a new device's first five events, and the round that reaches the ledger's bound: calls on the
// ledger of a fresh keeper, of which all else is in range.
use ledger::{Ledger, Plan, Refusal, Timer};
use std::io;

// A seed of 512 bytes, which is enough for every credit here, at clock 0.
fn seeded(bits: u32) -> Result<Plan, Refusal> {
    decide::decide_seed(true, Ledger::default(), 0, 512, bits)
}

// A blocking read straight after P10.
fn blocking(len: usize) -> Result<Plan, Refusal> {
    decide::decide_blocking_read(true, seeded(4096)?.ledger, len)
}

// A generator read at clock 0, straight after a seeding, so that no reseed is due.
fn read(len: usize) -> Result<Plan, Refusal> {
    decide::decide_read(true, seeded(256)?.ledger, 0, len)
}

// 128 bits awarded, 9 bytes delivered, and both counts 0 again: 128 times 9 is 9 times 128, and no more can be had for them.
fn paid() -> Result<Plan, Refusal> {
    decide::decide_seed(true, Ledger::default(), 0, 16, 128)
}

fn at_the_bound() -> Result<Plan, Refusal> {
    decide::decide_blocking_read(true, paid()?.ledger, 12)
}

// What was decided, as a line; of a refusal, its number.
fn told(rt: &impl Print, text: &str, decided: Result<Plan, Refusal>) -> io::Result<()> {
    match decided {
        Ok(p) => {
            let delivered = u64::from(p.deliver) + u64::from(p.stream);
            let blocks = decide::stream_blocks(p.stream);
            let compressions = decide::compressions_run(p);
            println!(rt;
                "{text} {} {delivered} {} {} {blocks} {compressions} {} {} {}",
                p.number,
                p.ledger.input.count,
                p.ledger.blocking.count,
                p.added,
                p.ledger.seeding.mark,
                p.reseed
            )
        }
        Err(why) => println!(rt; "{text} {} 0 0 0 0 0 0 0 0", why.number()),
    }
}

// The first three events of a device earn nothing, whatever their estimates.
fn new_device(rt: &impl Print) -> io::Result<()> {
    let mut l = Ledger::default();
    let mut t = Timer::default();
    for (text, now) in [
        ("fresh, device 1, now 1024:", 1024),
        ("its second event, now 3000:", 3000),
        ("its third event, now 7000:", 7000),
        ("its fourth event, now 15000:", 15000),
        ("its fifth event, now 31000:", 31000),
    ] {
        let decided = decide::decide_event(true, l, t, 1, now, 0);
        told(rt, text, decided)?;
        if let Ok(p) = decided {
            l = p.ledger;
            t = p.timer;
        }
    }
    Ok(())
}

pub fn run(rt: &impl Print) -> io::Result<()> {
    for (text, decided) in [
        ("P7 credit 170:", seeded(170)),
        ("P8 credit 171:", seeded(171)),
        ("P9 credit 256:", seeded(256)),
        ("P10 credit 4096:", seeded(4096)),
        ("P11 a blocking read of 16:", blocking(16)),
        ("P12 a read of 32:", read(32)),
        ("P12 a read of 33:", read(33)),
        ("P12 a read of 64:", read(64)),
        ("P12 a read of 65:", read(65)),
        ("P12 a read of 97:", read(97)),
    ] {
        told(rt, text, decided)?;
    }
    new_device(rt)?;
    told(rt, "at the bound, credit 128:", paid())?;
    told(rt, "then a blocking read of 12:", at_the_bound())
}
