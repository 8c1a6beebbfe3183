// The issuing desk: message numbers of 16 bytes, a class byte and 15 bytes of a generator read, none of which the desk remembers.
//
// specs/ has the desk, the issuing of a number told draw by draw, with the keeper's own generator read inside it, and runs of a keeper's
// calls with a desk's. proofs/ has what the customer asks of them: that a number is new, that drill and live never meet, what a refusal
// leaves, what the work is, and what two runs show alike. The code comes on top of these definitions, in `issuing`.
#![tactic(auto)]

// How many numbers a desk remembers, how many bytes a number has and how many of them are drawn, and how many all that are remembered have.
pub const REMEMBERED: u32 = 64;

pub const NUMBER_BYTES: usize = 16;

pub const DRAWN_BYTES: usize = 15;

pub const DESK_BYTES: usize = 1024;

// How often a number is drawn at the most.
pub const DRAWS: u32 = 4;

// The class bytes.
pub const DRILL: u8 = 0x44;

pub const LIVE: u8 = 0x4c;

// How many numbers are remembered, and the numbers, oldest first. The places past the count are free. C's form (include/nk.h): C lends it with any
// count, so that the count is in range is a fact of contracts and none of the type.
#[repr(C)]
#[derive(Drop)]
pub struct Desk {
    pub count: u32,
    pub numbers: [u8; DESK_BYTES],
}

// What a desk call hands back.
#[repr(C)]
#[derive(Drop)]
pub struct Issued {
    pub answer: ledger::Answer,
    pub number: [u8; NUMBER_BYTES],
}
