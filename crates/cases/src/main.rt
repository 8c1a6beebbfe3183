// The marked cases of the customer's paper through the code, printed; the file `stdout` beside src/ has what the paper says. The event of
// 60 units, which the paper wants run by a program, is here too. Calls are told as a line: the answer's number, bytes delivered, input
// count, blocking count, ChaCha20 blocks, compressions, units added, seeded mark, and the bytes that a reseed took. A credit is told as the
// new count and the units added.
#![tactic(auto)]

mod calls;
mod sums;

use std::io;

fn main(rt: HostRuntime) -> io::Result<()> {
    sums::run(&rt)?;
    calls::run(&rt)
}
