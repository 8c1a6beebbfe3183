// What a refusal gives back.
ghost use Rattle.std.specs.Prelude.{◌≡◌};
ghost use Rattle.ledger.specs.Refusals.{number_of};
ghost use Rattle.ledger.specs.Plans.{bare};

use keeper::Keeper;
use ledger::{Answer, Ledger, Refusal};

// A number and no more: nothing delivered, no work, nothing added.
pub fn bare(number: u32) -> Answer
    ensures { result ≡ bare number }
{
    Answer {
        number,
        ..Answer::default()
    }
}

// The ledger is stored as it is. include/nk.h says that a refused call stores it back as it found it, so that a record which cannot be written is
// noticed at the first call. A call of its own: the compiler would leave out what it sees to change nothing.
#[inline(never)]
fn store(ledger: &mut Ledger, l: Ledger)
    ensures { ledger.new ≡ l }
{
    *ledger = l;
}

// The record stays as it is, and is stored back.
pub fn put_back(k: &mut Keeper)
    ensures { k.new ≡ k.old }
{
    let l = k.ledger;
    store(&mut k.ledger, l);
}

// A refusal: its number and no more.
pub fn refused(k: &mut Keeper, why: Refusal) -> Answer
    ensures kept { k.new ≡ k.old }
    ensures value { result ≡ bare (number_of why) }
{
    put_back(k);
    bare(why.number())
}
