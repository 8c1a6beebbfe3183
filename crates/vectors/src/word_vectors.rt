// Rotation and byte order, at the ends of their ranges and in between.
use crate::print;
use std::io;

fn rotations(rt: &impl Print) -> io::Result<()> {
    print::words(
        rt,
        "words 80000001 rotated by 0, 1, 31, 32:",
        &[0, 1, 31, 32].map(|k| words::rotate_left(0x8000_0001, k)),
    )
}

fn layout(rt: &impl Print) -> io::Result<()> {
    let two = words::bytes_of_u16(0x0123);
    print::bytes(rt, "words bytes of the 16 bits 123: ", &two)?;
    print::number(rt, "words and back: ", words::u16_of_bytes(two).into())?;
    let four = words::bytes_of_u32(0x0123_4567);
    print::bytes(rt, "words bytes of the 32 bits 1234567: ", &four)?;
    print::number(rt, "words and back: ", words::u32_of_bytes(four).into())?;
    let eight = words::bytes_of_u64(0x0123_4567_89ab_cdef);
    print::bytes(rt, "words bytes of the 64 bits 123456789abcdef: ", &eight)?;
    print::number(rt, "words and back: ", words::u64_of_bytes(eight))?;
    print::number(
        rt,
        "words 1234567 with its bytes swapped: ",
        words::swap_bytes(0x0123_4567).into(),
    )
}

pub fn run(rt: &impl Print) -> io::Result<()> {
    rotations(rt)?;
    layout(rt)
}
