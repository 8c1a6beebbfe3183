// SHA-1's published messages through the compression. The padding of FIPS 180-4, section 5.1.1, is made here by hand: the message
// big endian, one bit, zeros, and the length in bits as the last word.
use crate::print;
use std::io;

pub fn run(rt: &impl Print) -> io::Result<()> {
    let start = secure_hash::initial_hash();
    print::words(rt, "FIPS 180-4 5.3.1 initial hash:", &start)?;
    let none = [0x8000_0000, 0, 0, 0, 0, 0, 0, 0, 0, 0, 0, 0, 0, 0, 0, 0];
    print::words(rt, "SHA-1 of no byte:", &secure_hash::compress(start, none))?;
    let abc = [0x6162_6380, 0, 0, 0, 0, 0, 0, 0, 0, 0, 0, 0, 0, 0, 0, 24];
    print::words(rt, "SHA-1 of abc:", &secure_hash::compress(start, abc))?;
    let long = [
        0x6162_6364,
        0x6263_6465,
        0x6364_6566,
        0x6465_6667,
        0x6566_6768,
        0x6667_6869,
        0x6768_696a,
        0x6869_6a6b,
        0x696a_6b6c,
        0x6a6b_6c6d,
        0x6b6c_6d6e,
        0x6c6d_6e6f,
        0x6d6e_6f70,
        0x6e6f_7071,
        0x8000_0000,
        0,
    ];
    let first = secure_hash::compress(start, long);
    print::words(rt, "SHA-1 of abcdbcde..nopq after one block:", &first)?;
    let rest = [0, 0, 0, 0, 0, 0, 0, 0, 0, 0, 0, 0, 0, 0, 0, 448];
    print::words(
        rt,
        "SHA-1 of abcdbcde..nopq:",
        &secure_hash::compress(first, rest),
    )
}
