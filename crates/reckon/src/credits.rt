// Credits and debits, on a count in eighths of a bit.
#![tactic(auto, using(std::proofs::lemmas::Bool::Decides::nat_tests), unfolding(ledger::specs::Choice::pick, ledger::specs::Credits::taken))]

ghost use Rattle.std.specs.Prelude.{◌≡◌, ◌+◌, ◌-◌, ◌*◌, ◌≤◌};
ghost use Rattle.ledger.specs.Sizes.{longest};
ghost use Rattle.ledger.specs.Credits.{Within, credited, crediting, further, taken, turn_adds, turn_takes};

use ledger::Credited;

// What a turn takes of the rest.
fn turn_takes(size: u32, rest: u32) -> u32
    ensures { result ≡ turn_takes size rest }
{
    rest.min(size / 2)
}

// What a turn adds to the count, which is no more than there is room for. Size and count go side by side, here and below, as the rules have them: a
// struct that keeps the one within the other would be made and proved anew at each turn.
fn turn_adds(size: u32, count: u32, rest: u32) -> u32
    requires { Within size count }
    ensures value { result ≡ turn_adds size count rest }
    ensures upper_bound { result ≤ size - count }
{
    (size - count) * turn_takes(size, rest) * 3 / (4 * size)
}

// The count after a turn. It stands outside the recursion, whose proof then has no product in it.
fn after_turn(size: u32, count: u32, rest: u32) -> u32
    requires { Within size count }
    ensures value { result ≡ count + turn_adds size count rest }
    ensures upper_bound { result ≤ size }
{
    count + turn_adds(size, count, rest)
}

// The turns that a rest still brings: by recursion on the rest and not by a loop, since the customer's paper names that form for this
// place. Each lowers the rest by what it takes, which is above 0 where the size is 2 or more: so they end.
fn turns(size: u32, count: u32, rest: u32) -> u32
    requires { Within size count }
    ensures { result ≡ further size rest rest count }
{
    if rest > 0 && count < size - 2 {
        turns(
            size,
            after_turn(size, count, rest),
            rest - turn_takes(size, rest),
        )
    } else {
        count
    }
}

// The count after `bits` bits are credited to a pool of the size. The first turn is made whatever the count, so it stands before
// the recursion, which asks for the count at each turn.
fn credited(size: u32, count: u32, bits: u32) -> u32
    requires within { Within size count }
    requires bits_bound { bits ≤ 8 * longest }
    ensures value { result ≡ credited size bits count }
    ensures upper_bound { result ≤ size }
{
    if bits == 0 {
        return count;
    }
    let rest = 8 * bits;
    turns(
        size,
        after_turn(size, count, rest),
        rest - turn_takes(size, rest),
    )
}

// That count, and the units added: how far it rose, which is no second sum. Only proved code comes here, and no call names more bits than
// these.
pub fn credit(size: u32, count: u32, bits: u32) -> Credited
    requires within { Within size count }
    requires bits_bound { bits ≤ 8 * longest }
    ensures value { result ≡ crediting size bits count }
    ensures count_le_size { result.count ≤ size }
{
    let after = credited(size, count, bits);
    Credited {
        count: after,
        added: after - count,
    }
}

// The bytes that a debit takes: what is wanted and held, a byte for each 64 of the count, or none if that is below the least.
pub fn debit(wanted: u32, least: u32, count: u32) -> u32
    ensures value { result ≡ taken wanted least count }
    ensures result_bound { 64 * result ≤ count }
    ensures upper_bound { result ≤ wanted }
{
    let most = wanted.min(count / 64);
    if most < least { 0 } else { most }
}
