// The public half of the keeper, as rules: all that decides, and nothing that is secret. Counts, positions, timers, marks and the
// public fields of a call go in; the answer's number and a plan come out: which counts and marks result, and how many bytes go
// from where to where. No crate that handles a secret lies below this one.
//
// Here are the structs, specs/ with the customer's rules, a file for each of the paper's sections (Numbers, Shapes, Places, Credits,
// Clocks, Range; then PublicCalls and Plans, by which a call is decided, and Machine, which is the whole keeper as far as it can be
// seen; Refusals and Planned tell the code's own types by them), and proofs/ with what follows from these alone: crediting, debiting, "in
// range stays in range", blocking, the marked cases.
// The code is in `reckon` (counts, clocks, the range test) and `decide` (the plans of the calls).
#![tactic(auto)]

pub mod refusals;
pub mod sizes;

pub use refusals::Refusal;

// Where a pool's next byte goes: its position and its rotation.
#[repr(C)]
#[derive(Clone, Copy, Default)]
pub struct Spot {
    pub at: u32,
    pub turn: u32,
}

// What is public of a pool: its count, in eighths of a bit, and where its next byte goes.
#[repr(C)]
#[derive(Clone, Copy, Default)]
pub struct Gauge {
    pub count: u32,
    pub spot: Spot,
}

// Interrupts since the last spill, and the clock of that spill.
#[repr(C)]
#[derive(Clone, Copy, Default)]
pub struct Spill {
    pub tally: u32,
    pub clock: u32,
}

// A mark of 1: seeded for good. Any other number is read as unseeded: a mark that is damaged must not open the generator. And the clock
// of the last seeding.
#[repr(C)]
#[derive(Clone, Copy, Default)]
pub struct Seeding {
    pub mark: u32,
    pub clock: u32,
}

// The public half of the record, but for the timers: the two pools', device 0's last value, the fast pool's and the generator's. C lends it
// with any numbers in it, so that it is in range is a fact of contracts and none of the type.
#[repr(C)]
#[derive(Clone, Copy, Default)]
pub struct Ledger {
    pub input: Gauge,
    pub blocking: Gauge,
    pub value: u32,
    pub spill: Spill,
    pub seeding: Seeding,
}

// A device's timer: its last clock, the first and second difference of its last event, and how many of its events were kept so far, up to
// three. It is read from what C lends, with any numbers in it too.
#[derive(Clone, Copy, Default)]
pub struct Timer {
    pub clock: u32,
    pub d1: i64,
    pub d2: i64,
    pub came: u8,
}

// What crediting gives: the count afterwards, and the units that were added to it.
#[derive(Clone, Copy)]
pub struct Credited {
    pub count: u32,
    pub added: u32,
}

// What a call will do. Its fields are those that the rules of specs/ name, a timer and whether it is kept for one.
#[derive(Clone, Copy, Default)]
pub struct Plan {
    // the number given back: 0 in every plan that code makes; a refusal has no plan, and the rules tell its number in an idle one
    pub number: u32,
    // the ledger afterwards, but for the two spots, which follow from the bytes that are mixed
    pub ledger: Ledger,
    // the units that crediting adds, before any debit
    pub added: u32,
    // the device's timer afterwards, and whether it is kept
    pub timer: Timer,
    pub keeps: bool,
    // the fast pool takes in the call's numbers; the call's bytes are mixed into the input pool
    pub stirs: bool,
    pub feeds: bool,
    // bytes taken from the input pool onto the key, and into the blocking pool
    pub reseed: u32,
    pub transfer: u32,
    // bytes handed out, by the blocking pool and by the generator
    pub deliver: u32,
    pub stream: u32,
}

// The number given back, the bytes delivered, the work of the call: ChaCha20 blocks and SHA-1 compressions; and what its credit was worth:
// the units that were added to a count, before any debit. C's form (include/nk.h): the number is one, and no enum.
#[repr(C)]
#[derive(Clone, Copy, Default)]
pub struct Answer {
    pub number: u32,
    pub delivered: u32,
    pub blocks: u32,
    pub compressions: u32,
    pub added: u32,
}
