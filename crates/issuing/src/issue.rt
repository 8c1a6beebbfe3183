// The desk call on the keeper and the desk.
ghost use Rattle.std.specs.Prelude.{◌≡◌, ◌&&◌, ◌≤◌, leb, IfOk};
ghost use Rattle.ledger.specs.Range.{ledger_in_range};
ghost use Rattle.desk.specs.Sizes.{remembers};
ghost use Rattle.desk.specs.Issuing.{left_with, issue};
ghost use Rattle.issuing.specs.Promise.{handed_back};

use crate::classes::Class;
use crate::draw::{draws, no_number};
use decide::{answer_of, decide_read};
use desk::{DRAWN_BYTES, Desk, Issued, REMEMBERED};
use flows::reseed;
use keeper::Keeper;
use ledger::{Ledger, Refusal};
use mixer::Pool;
use reckon::ledger_in_range;
use steps::{others_in_range, put_back};

// The record is in range, of which `others` is the test of what the ledger does not hold, and so is the desk.
fn in_range(others: bool, l: Ledger, count: u32) -> bool
    ensures { result ≡ ((ledger_in_range l && others) && leb count remembers) }
{
    (ledger_in_range(l) & others) & (count <= REMEMBERED)
}

// 17, then 13, then what the keeper says of a read; and then the draws, for which it is decided once. What is `Ok` was drawn, so no refusal that
// comes before the first draw is told as one.
fn drawn(k: &mut Keeper, desk: &mut Desk, at: u32, field: &[u8]) -> Result<Issued, Refusal>
    ensures value { left_with k.new desk.new (handed_back result) ≡ issue k.old desk.old at field.now }
    ensures ok { IfOk result (λ issued. 1 ≤ issued.answer.blocks) }
{
    let others = others_in_range(k);
    if !in_range(others, k.ledger, desk.count) {
        return Err(Refusal::OutOfRange);
    }
    let class = Class::try_from(field)?;
    let p = decide_read(others, k.ledger, at, DRAWN_BYTES)?;
    k.ledger = p.ledger;
    let mut input = Pool::new(&mut k.input, k.ledger.input.spot);
    reseed(&mut input, &mut k.generator, p.reseed);
    k.ledger.input.spot = input.spot;
    let a = answer_of(p);
    Ok(draws(&mut k.generator, desk, class, a.compressions))
}

// The desk call. Where it is refused before it draws, nothing is changed.
pub fn issue_on(k: &mut Keeper, desk: &mut Desk, at: u32, field: &[u8]) -> Issued
    ensures { left_with k.new desk.new result ≡ issue k.old desk.old at field.now }
{
    match drawn(k, desk, at, field) {
        Ok(issued) => issued,
        Err(why) => {
            put_back(k);
            no_number(why, 0, 0)
        }
    }
}
