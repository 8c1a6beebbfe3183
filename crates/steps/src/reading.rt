// The calls that take bytes: generator read and blocking read. The output room is lent, and its length is the read's.
ghost use Rattle.std.specs.Prelude.{◌≡◌, length};
ghost use Rattle.keeper.specs.Calls.{generator_read, blocking_read_of};
ghost use Rattle.steps.specs.Promise.{left, leaves};

use crate::answers::refused;
use crate::range::others_in_range;
use decide::{answer_of, decide_blocking_read, decide_read};
use flows::{deliver, reseed, transfer};
use generator::generate;
use keeper::Keeper;
use ledger::Answer;
use mixer::Pool;

// A generator read.
pub fn read_on(k: &mut Keeper, at: u32, out: &mut [u8]) -> Answer
    ensures { left k.new result out.new ≡ leaves k.old (generator_read at (length out.old)) out.old }
{
    let others = others_in_range(k);
    let p = match decide_read(others, k.ledger, at, out.len()) {
        Ok(p) => p,
        Err(why) => return refused(k, why),
    };
    k.ledger = p.ledger;
    let mut input = Pool::new(&mut k.input, k.ledger.input.spot);
    reseed(&mut input, &mut k.generator, p.reseed);
    k.ledger.input.spot = input.spot;
    generate(&mut k.generator, out);
    answer_of(p)
}

// A blocking read.
pub fn blocking_read_on(k: &mut Keeper, out: &mut [u8]) -> Answer
    ensures { left k.new result out.new ≡ leaves k.old (blocking_read_of (length out.old)) out.old }
{
    let others = others_in_range(k);
    let p = match decide_blocking_read(others, k.ledger, out.len()) {
        Ok(p) => p,
        Err(why) => return refused(k, why),
    };
    k.ledger = p.ledger;
    let mut input = Pool::new(&mut k.input, k.ledger.input.spot);
    let mut blocking = Pool::new(&mut k.blocking, k.ledger.blocking.spot);
    transfer(&mut input, &mut blocking, p.transfer);
    deliver(&mut blocking, out, p.deliver);
    k.ledger.input.spot = input.spot;
    k.ledger.blocking.spot = blocking.spot;
    answer_of(p)
}
