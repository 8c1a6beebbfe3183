// What a call will do, decided from public numbers alone. A function here that has the name of a definition of `ledger` stands for it; a `decide_` function is what code above calls, and it takes any values: out of range is a refusal like the others.
#![tactic(auto, using(std::proofs::lemmas::Bool::Decides::nat_tests), unfolding(ledger::specs::Choice::pick, ledger::specs::Plans::first_seeding, ledger::specs::Plans::feed, ledger::specs::Plans::plan_event, ledger::specs::Plans::plan_interrupt, ledger::specs::Plans::plan_write, ledger::specs::Plans::plan_seed, ledger::specs::Plans::plan_read, ledger::specs::Plans::plan_blocking_read, ledger::specs::Plans::plan_call, ledger::specs::Plans::decide, ledger::specs::Range::ledger_in_range))]

ghost use Rattle.std.specs.Prelude.{◌≡◌, true, ◌&&◌, ◌≤◌, ◌*◌, min, max, eqb, IsTrue, IsFalse, IfOk, MatchResult};
ghost use Rattle.ledger.specs.Choice.{pick};
ghost use Rattle.ledger.specs.Numbers.{done};
ghost use Rattle.ledger.specs.Sizes.{input_size, blocking_size, longest};
ghost use Rattle.ledger.specs.Credits.{reseed_takes};
ghost use Rattle.ledger.specs.Timers.{fresh_timer};
ghost use Rattle.ledger.specs.Marks.{input_counts, blocking_counts, valued, tallied, spilled, stays, reseed_due, is_low};
ghost use Rattle.ledger.specs.Range.{ledger_in_range, timer_in_range};
ghost use Rattle.ledger.specs.PublicCalls.{event, interrupt, write, seed, read, blocking_read};
ghost use Rattle.ledger.specs.Plans.{idle, first_seeding, reseeding, feed, plan_event, plan_interrupt, plan_write, plan_seed, plan_read, transferred, plan_blocking_read, decide};
ghost use Rattle.ledger.specs.Planned.{plan_or_idle};
ghost use Rattle.ledger.specs.declared.refusals.Refusal.TheVariants.{OutOfRange};

use ledger::refusals::DONE;
use ledger::sizes::{BLOCKING_SIZE, DEVICES, INPUT_SIZE, LONGEST};
use ledger::{Gauge, Ledger, Plan, Refusal, Seeding, Spill, Timer};
use reckon::{credit, debit, event_bits, exceeds, ledger_in_range, next_timer, timer_in_range};

// A timer of a device that had no event.
fn fresh_timer() -> Timer
    ensures { result ≡ fresh_timer }
{
    Timer::default()
}

// Nothing is done: no byte is moved, nothing is added, and no timer kept. That a plan has the number 0 is said by each clause below and not by the
// type: the rules' idle plan is a `Plan` too, and has a refusal's number.
fn idle(l: Ledger) -> Plan
    ensures { result ≡ idle done l }
{
    Plan {
        number: DONE,
        ledger: l,
        ..Plan::default()
    }
}

// The input count becomes c, of which a reseed then takes t bytes: if it takes none, the marks of a seeding stay.
fn reseeding(now: u32, c: u32, t: u32, l: Ledger) -> Ledger
    requires { 64 * t ≤ c }
    ensures { result ≡ reseeding now c t l }
{
    let seeding = if t == 0 {
        l.seeding
    } else {
        Seeding {
            mark: 1,
            clock: now,
        }
    };
    Ledger {
        input: Gauge {
            count: c - 64 * t,
            ..l.input
        },
        seeding,
        ..l
    }
}

// The bytes of a first seeding, if the credit of some bits that led to this count brings one.
fn first_seeding(bits: u32, count: u32, l: Ledger) -> u32
    ensures value { result ≡ first_seeding bits count l }
    ensures held { 64 * result ≤ count }
{
    if bits == 0 || l.seeding.mark == 1 || count < 1024 {
        return 0;
    }
    debit(32, 16, count)
}

// The call's bytes are mixed into the input pool and bits are credited. What is told of the credit is what it added: a reseed that takes
// from the new count comes after it.
fn feed(now: u32, stirs: bool, bits: u32, l: Ledger) -> Plan
    requires { (l.input.count ≤ input_size) × (bits ≤ 8 * longest) }
    ensures value { result ≡ feed now stirs bits l }
    ensures number { result.number ≡ done }
{
    let credited = credit(INPUT_SIZE, l.input.count, bits);
    let reseed = first_seeding(bits, credited.count, l);
    Plan {
        added: credited.added,
        stirs,
        feeds: true,
        reseed,
        ..idle(reseeding(now, credited.count, reseed, l))
    }
}

// On device 0 the value is kept.
fn valued(device: u32, value: u32, l: Ledger) -> Ledger
    ensures { result ≡ valued device value l }
{
    if device == 0 {
        Ledger { value, ..l }
    } else {
        l
    }
}

// An event on device 0 with the value that was kept last.
fn repeats(device: u32, value: u32, l: Ledger) -> bool
    ensures { result ≡ (eqb device 0 && eqb value l.value) }
{
    device == 0 && value == l.value
}

fn plan_event(device: u32, now: u32, value: u32, t: Timer, l: Ledger) -> Result<Plan, Refusal>
    requires { (timer_in_range t ≡ true) × (l.input.count ≤ input_size) }
    ensures value { plan_or_idle l result ≡ plan_event device now value t l }
    ensures ok { IfOk result (λ p. p.number ≡ done) }
{
    if DEVICES <= device as usize {
        return Err(Refusal::NoSuchDevice);
    }
    if repeats(device, value, l) {
        return Err(Refusal::Repeated);
    }
    Ok(Plan {
        timer: next_timer(now, t),
        keeps: true,
        ..feed(now, false, event_bits(now, t), valued(device, value, l))
    })
}

// The fast pool is stirred, and that is all.
fn stays(now: u32, l: Ledger) -> bool
    requires { l.spill.tally ≤ 63 }
    ensures { result ≡ stays now l }
{
    l.spill.tally + 1 < 64 && !exceeds(now, l.spill.clock, 1000)
}

fn tallied(l: Ledger) -> Ledger
    requires { l.spill.tally ≤ 63 }
    ensures { result ≡ tallied l }
{
    Ledger {
        spill: Spill {
            tally: l.spill.tally + 1,
            ..l.spill
        },
        ..l
    }
}

fn spilled(now: u32, l: Ledger) -> Ledger
    ensures { result ≡ spilled now l }
{
    Ledger {
        spill: Spill {
            tally: 0,
            clock: now,
        },
        ..l
    }
}

fn plan_interrupt(now: u32, l: Ledger) -> Plan
    requires { (l.spill.tally ≤ 63) × (l.input.count ≤ input_size) }
    ensures value { result ≡ plan_interrupt now l }
    ensures number { result.number ≡ done }
{
    if stays(now, l) {
        return Plan {
            stirs: true,
            ..idle(tallied(l))
        };
    }
    feed(now, true, 1, spilled(now, l))
}

fn plan_write(len: usize, l: Ledger) -> Result<Plan, Refusal>
    ensures value { plan_or_idle l result ≡ plan_write len l }
    ensures ok { IfOk result (λ p. p.number ≡ done) }
{
    if LONGEST < len {
        return Err(Refusal::TooLong);
    }
    Ok(Plan {
        feeds: true,
        ..idle(l)
    })
}

fn plan_seed(now: u32, len: usize, bits: u32, l: Ledger) -> Result<Plan, Refusal>
    requires { l.input.count ≤ input_size }
    ensures value { plan_or_idle l result ≡ plan_seed now len bits l }
    ensures ok { IfOk result (λ p. p.number ≡ done) }
{
    if LONGEST < len {
        return Err(Refusal::TooLong);
    }
    if 8 * len < bits as usize {
        return Err(Refusal::CreditTooHigh);
    }
    Ok(feed(now, false, bits, l))
}

// The bytes that a reseed before a read takes, if it is due.
fn reseed_first(now: u32, l: Ledger) -> u32
    ensures value { result ≡ pick (reseed_due now l) (reseed_takes l.input.count) 0 }
    ensures held { 64 * result ≤ l.input.count }
{
    if exceeds(now, l.seeding.clock, 300000) {
        return debit(32, 16, l.input.count);
    }
    0
}

fn plan_read(now: u32, len: usize, l: Ledger) -> Result<Plan, Refusal>
    ensures value { plan_or_idle l result ≡ plan_read now len l }
    ensures ok { IfOk result (λ p. p.number ≡ done) }
{
    if LONGEST < len {
        return Err(Refusal::TooLong);
    }
    if len == 0 {
        return Ok(idle(l));
    }
    if l.seeding.mark != 1 {
        return Err(Refusal::Unseeded);
    }
    let reseed = reseed_first(now, l);
    Ok(Plan {
        reseed,
        stream: len as u32,
        ..idle(reseeding(now, l.input.count, reseed, l))
    })
}

// What a blocking read of n asks of the input pool.
fn wanted(n: u32) -> u32
    ensures { result ≡ min (max n 8) 128 }
{
    n.max(8).min(128)
}

// The bytes that a blocking read of n brings over from the input pool, of which 8 is the least.
fn transferred(n: u32, l: Ledger) -> u32
    requires { n ≤ longest }
    ensures value { result ≡ transferred n l }
    ensures held { 64 * result ≤ l.input.count }
    ensures upper_bound { result ≤ 128 }
{
    if l.blocking.count < 64 * n {
        return debit(wanted(n), 8, l.input.count);
    }
    0
}

// Less than a byte in the blocking pool, and less than the least that can come over.
fn is_low(l: Ledger) -> bool
    ensures { result ≡ is_low l }
{
    l.blocking.count < 64 && l.input.count < 512
}

// The counts become these.
fn with_counts(i: u32, b: u32, l: Ledger) -> Ledger
    ensures { result ≡ blocking_counts b (input_counts i l) }
{
    Ledger {
        input: Gauge {
            count: i,
            ..l.input
        },
        blocking: Gauge {
            count: b,
            ..l.blocking
        },
        ..l
    }
}

fn plan_blocking_read(len: usize, l: Ledger) -> Result<Plan, Refusal>
    requires { l.blocking.count ≤ blocking_size }
    ensures value { plan_or_idle l result ≡ plan_blocking_read len l }
    ensures ok { IfOk result (λ p. p.number ≡ done) }
{
    if LONGEST < len {
        return Err(Refusal::TooLong);
    }
    if len == 0 {
        return Ok(idle(l));
    }
    if is_low(l) {
        return Err(Refusal::WouldBlock);
    }
    let n = len as u32;
    let transfer = transferred(n, l);
    let refilled = credit(BLOCKING_SIZE, l.blocking.count, 8 * transfer);
    let deliver = debit(n, 0, refilled.count);
    let left = l.input.count - 64 * transfer;
    Ok(Plan {
        added: refilled.added,
        transfer,
        deliver,
        ..idle(with_counts(left, refilled.count - 64 * deliver, l))
    })
}

// ---- what code above calls, with any values; `others` and the ledger go side by side, as in the definition `decide`, which the theorems name

// In range: what is decided from, and, by `others`, what it is not decided from.
fn in_range(others: bool, l: Ledger, t: Timer) -> Result<(), Refusal>
    ensures { let fine = others && (ledger_in_range l && timer_in_range t) in MatchResult result (λ _. IsTrue fine) (λ why. IsFalse fine × (why ≡ OutOfRange)) }
{
    if others & (ledger_in_range(l) & timer_in_range(t)) {
        Ok(())
    } else {
        Err(Refusal::OutOfRange)
    }
}

// A device event. `others` is the range test of what the ledger does not hold (`others_in_range`).
pub fn decide_event(
    others: bool,
    l: Ledger,
    t: Timer,
    device: u32,
    now: u32,
    value: u32,
) -> Result<Plan, Refusal>
    ensures value { plan_or_idle l result ≡ decide others l t (event device now value) }
    ensures ok { IfOk result (λ p. p.number ≡ done) }
{
    in_range(others, l, t)?;
    plan_event(device, now, value, t, l)
}

// An interrupt. A call that has no device is decided with a timer that no event touched, here and below.
pub fn decide_interrupt(others: bool, l: Ledger, now: u32, number: u32) -> Result<Plan, Refusal>
    ensures value { plan_or_idle l result ≡ decide others l fresh_timer (interrupt now number) }
    ensures ok { IfOk result (λ p. p.number ≡ done) }
{
    in_range(others, l, fresh_timer())?;
    Ok(plan_interrupt(now, l))
}

// A write of so many bytes.
pub fn decide_write(others: bool, l: Ledger, len: usize) -> Result<Plan, Refusal>
    ensures value { plan_or_idle l result ≡ decide others l fresh_timer (write len) }
    ensures ok { IfOk result (λ p. p.number ≡ done) }
{
    in_range(others, l, fresh_timer())?;
    plan_write(len, l)
}

// A seed of so many bytes with so many bits.
pub fn decide_seed(
    others: bool,
    l: Ledger,
    now: u32,
    len: usize,
    credit: u32,
) -> Result<Plan, Refusal>
    ensures value { plan_or_idle l result ≡ decide others l fresh_timer (seed now len credit) }
    ensures ok { IfOk result (λ p. p.number ≡ done) }
{
    in_range(others, l, fresh_timer())?;
    plan_seed(now, len, credit, l)
}

// A generator read into a room of so many bytes.
pub fn decide_read(others: bool, l: Ledger, now: u32, len: usize) -> Result<Plan, Refusal>
    ensures value { plan_or_idle l result ≡ decide others l fresh_timer (read now len) }
    ensures ok { IfOk result (λ p. p.number ≡ done) }
{
    in_range(others, l, fresh_timer())?;
    plan_read(now, len, l)
}

// A blocking read into a room of so many bytes.
pub fn decide_blocking_read(others: bool, l: Ledger, len: usize) -> Result<Plan, Refusal>
    ensures value { plan_or_idle l result ≡ decide others l fresh_timer (blocking_read len) }
    ensures ok { IfOk result (λ p. p.number ≡ done) }
{
    in_range(others, l, fresh_timer())?;
    plan_blocking_read(len, l)
}
