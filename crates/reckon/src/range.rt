// The range test, answer 17: a terminal may lend a record that holds anything. Its parts are joined by `&`, which tests both sides,
// and the pass over the timers runs to its end whatever it met, so that the steps taken do not depend on where a fault lies.
#![tactic(auto, unfolding(ledger::specs::Range::ledger_in_range, ledger::specs::Range::others_in_range))]

ghost use Rattle.std.specs.Prelude.{◌≡◌, ℕ, ◌-◌, ◌^◌, ◌<◌, ◌≤◌, ◌&&◌, List, [], length, nat_lt};
ghost use Rattle.ledger.specs.Timers.{timers_of};
ghost use Rattle.ledger.specs.Sizes.{devices};
ghost use Rattle.ledger.specs.Range.{pool_in_range, within, first_in_range, second_in_range, came_in_range, every, timer_in_range, ledger_in_range, others_in_range, same_words, fixed_words};

use ledger::sizes::{BLOCKING_SIZE, BLOCKING_WORDS, EVENTS_BEFORE, INPUT_SIZE, INPUT_WORDS};
use ledger::{Gauge, Ledger, Timer};

// d + by, modulo 2^64: below a limit where d is in -by to limit - 1 - by, and only there.
fn raised(d: i64, by: u64) -> u64
    requires { by ≤ 2 ^ 32 }
    ensures { (limit : ℕ) → by < limit → limit ≤ 2 ^ 63 → nat_lt result limit ≡ within by (limit - 1 - by) d }
{
    d.cast_unsigned().wrapping_add(by)
}

// How far a first difference reaches: below 2^32 where it is in -2^31 to 2^31 - 1, and only there. No difference is compared by itself, so
// whatever is to be tested can be gathered by `|` first.
fn first_reach(d: i64) -> u64
    ensures { nat_lt result (2 ^ 32) ≡ first_in_range d }
{
    raised(d, 0x8000_0000)
}

// How far a second difference reaches: below 2^33 where it is not beyond 2^32 - 1 either way, and only there. Two sums, since its range is one
// short of a power of two; an absolute amount would be one number less to gather, but the vector registers of x86-64 have none of 64 bits.
fn second_reach(d: i64) -> u64
    ensures { nat_lt result (2 ^ 33) ≡ second_in_range d }
{
    raised(d, 0xffff_ffff) | raised(d, 0x1_0000_0000)
}

// A device's timer.
pub fn timer_in_range(t: Timer) -> bool
    ensures { result ≡ timer_in_range t }
{
    let first = first_reach(t.d1) < 0x1_0000_0000;
    let second = second_reach(t.d2) < 0x2_0000_0000;
    (first & second) & (t.came <= EVENTS_BEFORE)
}

// A pool of `words` words: its count within its size, its position inside it, no rotation above 31.
fn pool_in_range(g: Gauge, size: u32, words: usize) -> bool
    ensures { result ≡ pool_in_range (record { words = words; taps = []; size = size }) g }
{
    (g.count <= size) & (((g.spot.at as usize) < words) & (g.spot.turn <= 31))
}

// Both pools, and the tally.
pub fn ledger_in_range(l: Ledger) -> bool
    ensures { result ≡ ledger_in_range l }
{
    let input = pool_in_range(l.input, INPUT_SIZE, INPUT_WORDS);
    let blocking = pool_in_range(l.blocking, BLOCKING_SIZE, BLOCKING_WORDS);
    input & (blocking & (l.spill.tally <= 63))
}

// Generator words 0 to 3. Not by `==`, which stops at the first word that differs.
fn same_words(fixed: [u32; 4]) -> bool
    ensures { result ≡ same_words fixed fixed_words }
{
    (fixed[0] == 0x6170_7865)
        & (fixed[1] == 0x3320_646e)
        & (fixed[2] == 0x7962_2d32)
        & (fixed[3] == 0x6b20_6574)
}

// The differences of two runs of devices, in one pass over all four lists. A bit from the limit on, once met, stays; one comparison for each
// kind of difference tells at the end. With two runs, each turn has twice as many numbers at hand that do not wait for one another: a pass
// for each list takes 9 parts in 100 longer. By index, since the library's facts on a `zip` are of two lists, and here are four.
fn runs_in_range(firsts: &[i64], firsts2: &[i64], seconds: &[i64], seconds2: &[i64]) -> bool
    requires { (length firsts2.now ≡ length firsts.now) × ((length seconds.now ≡ length firsts.now) × (length seconds2.now ≡ length firsts.now)) }
    ensures { result ≡ ((every first_in_range firsts.now && every first_in_range firsts2.now) && (every second_in_range seconds.now && every second_in_range seconds2.now)) }
{
    let mut met = 0;
    let mut met2 = 0;
    for i in 0..firsts.len() {
        met |= first_reach(firsts[i]) | first_reach(firsts2[i]);
        met2 |= second_reach(seconds[i]) | second_reach(seconds2[i]);
    }
    (met < 0x1_0000_0000) & (met2 < 0x2_0000_0000)
}

// Every device's differences: those of the first half of the devices and those of the other half. The number of devices is even.
fn differences_in_range(firsts: &[i64], seconds: &[i64]) -> bool
    requires { (length firsts.now ≡ devices) × (length seconds.now ≡ devices) }
    ensures { result ≡ (every first_in_range firsts.now && every second_in_range seconds.now) }
{
    let half = firsts.len() / 2;
    runs_in_range(
        &firsts[..half],
        &firsts[half..],
        &seconds[..half],
        &seconds[half..],
    )
}

// Every device's count of kept events, in a pass of its own, since they are bytes: the greatest of them tells. A loop: the
// greatest of an iterator is an Option.
fn counts_in_range(came: &[u8]) -> bool
    ensures { result ≡ every came_in_range came.now }
{
    let mut most = 0;
    for n in came {
        most = most.max(*n);
    }
    most <= EVENTS_BEFORE
}

// What the ledger does not hold: all timers, whatever their clocks, and generator words 0 to 3. The timers come as slices: of an array the
// compiler unrolls the loop before it asks whether to make this a part of its caller, and then it is too large.
pub fn others_in_range(firsts: &[i64], seconds: &[i64], came: &[u8], fixed: [u32; 4]) -> bool
    requires { (length firsts.now ≡ devices) × (length seconds.now ≡ devices) }
    ensures { (clocks : List ℕ) → result ≡ others_in_range (timers_of clocks firsts.now seconds.now came.now) fixed }
{
    differences_in_range(firsts, seconds) & counts_in_range(came) & same_words(fixed)
}
