// Numbers at a position, the lowest byte first: of two, four and eight bytes, and a device, of one or two. The bytes are named one by one:
// `first_chunk` tests once more that they are there, and a walk over a journal is slower with it.
ghost use Rattle.std.specs.Prelude.{◌≡◌, ◌+◌, ◌≤◌, length};
ghost use Rattle.journal.specs.Layout.{device_bytes};
ghost use Rattle.journal.specs.Reading.{num};

use words::{u16_of_bytes, u32_of_bytes, u64_of_bytes};

// The number that two bytes make.
pub fn two(j: &[u8], at: usize) -> u16
    requires { at + 2 ≤ length j.now }
    ensures { result ≡ num 2 j.now at }
{
    u16_of_bytes([j[at], j[at + 1]])
}

// The number that four bytes make.
pub fn four(j: &[u8], at: usize) -> u32
    requires { at + 4 ≤ length j.now }
    ensures { result ≡ num 4 j.now at }
{
    u32_of_bytes([j[at], j[at + 1], j[at + 2], j[at + 3]])
}

// The number that eight bytes make.
pub fn eight(j: &[u8], at: usize) -> u64
    requires { at + 8 ≤ length j.now }
    ensures { result ≡ num 8 j.now at }
{
    u64_of_bytes([
        j[at],
        j[at + 1],
        j[at + 2],
        j[at + 3],
        j[at + 4],
        j[at + 5],
        j[at + 6],
        j[at + 7],
    ])
}

// An event's device: in version 1 a byte, else two.
#[tactic(auto, using(crate::proofs::Parts::narrow_device, crate::proofs::Parts::broad_device))]
pub fn device(version: u32, j: &[u8], at: usize) -> u32
    requires { at + 2 ≤ length j.now }
    ensures { result ≡ num (device_bytes version) j.now at }
{
    match version {
        1 => u32::from(j[at]),
        _ => u32::from(two(j, at)),
    }
}
