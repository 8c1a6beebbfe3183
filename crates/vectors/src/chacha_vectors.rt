// RFC 7539: the quarter round (2.1.1, 2.2.1), the block function (2.3.2) and the five blocks of appendix A.1.
use crate::print;
use std::io;

// The state of section 2.3: the four constants, the key, the counter and the nonce.
fn state(key: [u32; 8], counter: u32, nonce: [u32; 3]) -> [u32; 16] {
    let mut s = [0u32; 16];
    s[..4].copy_from_slice(&[0x6170_7865, 0x3320_646e, 0x7962_2d32, 0x6b20_6574]);
    s[4..12].copy_from_slice(&key);
    s[12] = counter;
    s[13..].copy_from_slice(&nonce);
    s
}

fn quarter_rounds(rt: &impl Print) -> io::Result<()> {
    let a = chacha::quarter(0x1111_1111, 0x0102_0304, 0x9b8d_6f43, 0x0123_4567);
    print::words(rt, "RFC 7539 2.1.1 quarter round:", &[a.a, a.b, a.c, a.d])?;
    let sixteen = [
        0x8795_31e0,
        0xc5ec_f37d,
        0x5164_61b1,
        0xc9a6_2f8a,
        0x44c2_0ef3,
        0x3390_af7f,
        0xd9fc_690b,
        0x2a5f_714c,
        0x5337_2767,
        0xb00a_5631,
        0x974c_541a,
        0x359e_9963,
        0x5c97_1061,
        0x3d63_1689,
        0x2098_d9d6,
        0x91db_d320,
    ];
    let q = chacha::quarter(sixteen[2], sixteen[7], sixteen[8], sixteen[13]);
    let mut b = sixteen;
    b[2] = q.a;
    b[7] = q.b;
    b[8] = q.c;
    b[13] = q.d;
    print::words(rt, "RFC 7539 2.2.1 quarter round (2, 7, 8, 13):", &b)
}

// The block of a state, as it lies in a room.
fn block(rt: &impl Print, label: &str, s: [u32; 16]) -> io::Result<()> {
    let mut room = [0u8; 64];
    chacha::lay_block(&s, &mut room);
    print::bytes(rt, label, &room)
}

// The words of a block, and its bytes in a room that is too short and in one that is too long.
fn rooms(rt: &impl Print, s: [u32; 16]) -> io::Result<()> {
    let b = chacha::block(s);
    print::words(rt, "RFC 7539 2.3.2 words:", &b)?;
    let mut short = [0xeeu8; 10];
    chacha::lay_block(&s, &mut short);
    print::bytes(rt, "RFC 7539 2.3.2 in a room of 10: ", &short)?;
    let mut long = [0xeeu8; 70];
    chacha::lay_block(&s, &mut long);
    print::bytes(rt, "RFC 7539 2.3.2 in a room of 70: ", &long)
}

pub fn run(rt: &impl Print) -> io::Result<()> {
    quarter_rounds(rt)?;
    let counting = [
        0x0302_0100,
        0x0706_0504,
        0x0b0a_0908,
        0x0f0e_0d0c,
        0x1312_1110,
        0x1716_1514,
        0x1b1a_1918,
        0x1f1e_1d1c,
    ];
    let zero = [0u32; 8];
    let none = [0u32; 3];
    let section = state(counting, 1, [0x0900_0000, 0x4a00_0000, 0]);
    block(rt, "RFC 7539 2.3.2: ", section)?;
    rooms(rt, section)?;
    let appendix = [
        ("RFC 7539 A.1 #1: ", state(zero, 0, none)),
        ("RFC 7539 A.1 #2: ", state(zero, 1, none)),
        (
            "RFC 7539 A.1 #3: ",
            state([0, 0, 0, 0, 0, 0, 0, 0x0100_0000], 1, none),
        ),
        (
            "RFC 7539 A.1 #4: ",
            state([0x0000_ff00, 0, 0, 0, 0, 0, 0, 0], 2, none),
        ),
        ("RFC 7539 A.1 #5: ", state(zero, 0, [0, 0, 0x0200_0000])),
    ];
    for (label, s) in appendix {
        block(rt, label, s)?;
    }
    Ok(())
}
