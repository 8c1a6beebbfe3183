// Numbers as bytes, little endian, and back: the library's methods, whose promises are said here in the words of specs/, as the crates above read
// them. There is one for each width, as in the library; those of two bytes are for the published vectors.
ghost use Rattle.std.specs.Prelude.{◌≡◌};
ghost use Rattle.words.specs.Bytes.{le_bytes, le_number, swapped};

// The two bytes of a number.
#[tactic(auto, unfolding(crate::specs::Bytes::le_bytes))]
pub fn bytes_of_u16(x: u16) -> [u8; 2]
    ensures { result ≡ le_bytes 2 x }
{
    u16::to_le_bytes(x)
}

// The four bytes of a number.
#[tactic(auto, unfolding(crate::specs::Bytes::le_bytes))]
pub fn bytes_of_u32(x: u32) -> [u8; 4]
    ensures { result ≡ le_bytes 4 x }
{
    u32::to_le_bytes(x)
}

// The eight bytes of a number.
#[tactic(auto, unfolding(crate::specs::Bytes::le_bytes))]
pub fn bytes_of_u64(x: u64) -> [u8; 8]
    ensures { result ≡ le_bytes 8 x }
{
    u64::to_le_bytes(x)
}

// The number that two bytes make.
#[tactic(auto, using(crate::proofs::Library::number_2))]
pub fn u16_of_bytes(b: [u8; 2]) -> u16
    ensures { result ≡ le_number b }
{
    u16::from_le_bytes(b)
}

// The number that four bytes make.
#[tactic(auto, using(crate::proofs::Library::number_4))]
pub fn u32_of_bytes(b: [u8; 4]) -> u32
    ensures { result ≡ le_number b }
{
    u32::from_le_bytes(b)
}

// The number that eight bytes make.
#[tactic(auto, using(crate::proofs::Library::number_8))]
pub fn u64_of_bytes(b: [u8; 8]) -> u64
    ensures { result ≡ le_number b }
{
    u64::from_le_bytes(b)
}

// A word with its four bytes in the other order.
#[tactic(auto, unfolding(crate::specs::Bytes::swapped, crate::specs::Bytes::le_bytes, crate::specs::Bytes::le_number))]
pub fn swap_bytes(x: u32) -> u32
    ensures { result ≡ swapped x }
{
    x.swap_bytes()
}
