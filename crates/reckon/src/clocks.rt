// Clocks, their differences, and the bits that an event earns. Clocks wrap at 2^32; a difference of two is read as signed, so that a
// clock that ran back is told from a long wait. Second and third differences are exact, which 64 bits hold with room to spare.
#![tactic(auto, using(std::proofs::lemmas::Bool::Decides::nat_tests), unfolding(ledger::specs::Choice::pick, ledger::specs::Clocks::signed, ledger::specs::Clocks::event_bits))]

ghost use Rattle.std.specs.Prelude.{◌≡◌, ◌≤◌, true};
ghost use Rattle.ledger.specs.Clocks.{clock_diff, exceeds, came_after, next_timer, least_amount, estimate, estimated, event_bits};
ghost use Rattle.ledger.specs.Sizes.{events_before};
ghost use Rattle.ledger.specs.Range.{timer_in_range};

use ledger::Timer;
use ledger::sizes::EVENTS_BEFORE;

// now - before, modulo 2^32 and read as signed.
pub fn clock_diff(now: u32, before: u32) -> i64
    ensures { result ≡ clock_diff now before }
{
    i64::from(now.wrapping_sub(before).cast_signed())
}

// More than `limit` ticks went by; where the clock ran back, none did.
pub fn exceeds(now: u32, before: u32, limit: u32) -> bool
    ensures { result ≡ exceeds (clock_diff now before) limit }
{
    clock_diff(now, before) > i64::from(limit)
}

// The credit for a least amount of m: the floor of its log2, at most 11.
#[tactic(auto, using(std::proofs::lemmas::Bool::Decides::nat_tests), unfolding(ledger::specs::Choice::pick, ledger::specs::Clocks::estimate))]
fn estimate(m: u64) -> u32
    ensures value { result ≡ estimate m }
    ensures upper_bound { result ≤ 11 }
{
    if m == 0 { 0 } else { m.ilog2().min(11) }
}

// How many kept events of a device came, with one more; they are counted up to three.
fn came_after(came: u8) -> u8
    requires { came ≤ events_before }
    ensures { result ≡ came_after came }
{
    (came + 1).min(EVENTS_BEFORE)
}

// The device's timer after an event at `now`.
pub fn next_timer(now: u32, t: Timer) -> Timer
    requires { timer_in_range t ≡ true }
    ensures { result ≡ next_timer now t }
{
    let d1 = clock_diff(now, t.clock);
    Timer {
        clock: now,
        d1,
        d2: d1 - t.d1,
        came: came_after(t.came),
    }
}

// The least of the three absolute amounts of an event at `now`.
fn least_amount(now: u32, t: Timer) -> u64
    requires { timer_in_range t ≡ true }
    ensures { result ≡ least_amount now t }
{
    let u = next_timer(now, t);
    let third = u.d2 - t.d2;
    u.d1.unsigned_abs()
        .min(u.d2.unsigned_abs().min(third.unsigned_abs()))
}

// The estimate of an event at `now`.
fn estimated(now: u32, t: Timer) -> u32
    requires { timer_in_range t ≡ true }
    ensures value { result ≡ estimated now t }
    ensures upper_bound { result ≤ 11 }
{
    estimate(least_amount(now, t))
}

// The bits that an event at `now` earns: nothing until three kept events of its device came before it.
pub fn event_bits(now: u32, t: Timer) -> u32
    requires { timer_in_range t ≡ true }
    ensures value { result ≡ event_bits now t }
    ensures upper_bound { result ≤ 11 }
{
    if t.came == EVENTS_BEFORE {
        estimated(now, t)
    } else {
        0
    }
}
