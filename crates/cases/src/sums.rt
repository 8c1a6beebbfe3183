// P1 to P6: the estimate, clock differences, crediting.
use ledger::Timer;
use ledger::sizes::{EVENTS_BEFORE, INPUT_SIZE};
use std::io;

// Of a device of which three events came, an event at clock m has three differences of m where the timer is else fresh.
fn estimates(rt: &impl Print, text: &str, clocks: &[u32]) -> io::Result<()> {
    let t = Timer {
        came: EVENTS_BEFORE,
        ..Timer::default()
    };
    print!(rt; "{text}")?;
    for m in clocks {
        print!(rt; " {}", reckon::event_bits(*m, t))?;
    }
    println!(rt; "")
}

pub fn run(rt: &impl Print) -> io::Result<()> {
    estimates(rt, "P1 the credits for 0, 1, 2, 3, 4:", &[0, 1, 2, 3, 4])?;
    estimates(
        rt,
        "P2 the credits for 2047, 2048, 4096:",
        &[2047, 2048, 4096],
    )?;
    println!(rt;
        "P3 clock 4 after 4294967295: {:+}",
        reckon::clock_diff(4, 0xffff_ffff)
    )?;
    println!(rt;
        "P4 clock 2147483648 after 0: {:+}",
        reckon::clock_diff(0x8000_0000, 0)
    )?;
    for (p, count) in [(5, 0), (6, 32762)] {
        let c = reckon::credit(INPUT_SIZE, count, 1);
        println!(rt; "P{p} input {count}, credit 1: {} {}", c.count, c.added)?;
    }
    Ok(())
}
