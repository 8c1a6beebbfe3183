// The making of a keeper.
ghost use Rattle.std.specs.Prelude.{◌≡◌, [], ◌++◌, ◌<◌, length, get_or};
ghost use Rattle.words.specs.Bytes.{bytes_words};
ghost use Rattle.ledger.specs.Sizes.{start_bytes};
ghost use Rattle.ledger.specs.Marks.{fresh_ledger};
ghost use Rattle.ledger.specs.Range.{fixed_words};
ghost use Rattle.steps.specs.Promise.{blank, left, leaves_made};

use crate::answers::{bare, refused};
use keeper::Keeper;
use ledger::refusals::DONE;
use ledger::sizes::{
    BLOCKING_WORDS, DEVICES, FAST_WORDS, GENERATOR_WORDS, INPUT_WORDS, START_BYTES,
};
use ledger::{Answer, Ledger, Refusal};
use words::u32_of_bytes;

// All zero, unseeded.
pub fn fresh_ledger() -> Ledger
    ensures { result ≡ fresh_ledger }
{
    Ledger::default()
}

// A word of the start bytes, which are taken by fours.
fn start_word(start: &[u8], i: usize) -> u32
    requires { (length start.now ≡ start_bytes) × (i < 12) }
    ensures { result ≡ get_or (bytes_words start.now) i 0 }
{
    let (fours, _) = start.as_chunks::<4>();
    u32_of_bytes(fours[i])
}

// The generator's words: four that are fixed, then the start bytes. Written out, since each place is one that the paper names.
fn first_words(start: &[u8]) -> [u32; GENERATOR_WORDS]
    requires { length start.now ≡ start_bytes }
    ensures { result ≡ fixed_words ++ bytes_words start.now }
{
    [
        0x6170_7865,
        0x3320_646e,
        0x7962_2d32,
        0x6b20_6574,
        start_word(start, 0),
        start_word(start, 1),
        start_word(start, 2),
        start_word(start, 3),
        start_word(start, 4),
        start_word(start, 5),
        start_word(start, 6),
        start_word(start, 7),
        start_word(start, 8),
        start_word(start, 9),
        start_word(start, 10),
        start_word(start, 11),
    ]
}

// A keeper that is all zero, unseeded: a record to make a keeper in, for a program that has none.
pub fn fresh_keeper() -> Keeper
    ensures { result ≡ blank }
{
    Keeper {
        ledger: fresh_ledger(),
        clocks: [0u32; DEVICES],
        firsts: [0i64; DEVICES],
        seconds: [0i64; DEVICES],
        came: [0u8; DEVICES],
        input: [0u32; INPUT_WORDS],
        blocking: [0u32; BLOCKING_WORDS],
        fast: [0u32; FAST_WORDS],
        generator: [0u32; GENERATOR_WORDS],
    }
}

// A keeper made of start bytes: 48 of them, or nothing is changed.
pub fn make_on(k: &mut Keeper, start: &[u8]) -> Answer
    ensures { left k.new result [] ≡ leaves_made k.old start.now }
{
    if start.len() != START_BYTES {
        return refused(k, Refusal::StartNot48);
    }
    // first, so that no start byte has to wait on the stack; and array by array, since a keeper made as one value would stand there whole
    k.generator = first_words(start);
    k.clocks = [0u32; DEVICES];
    k.firsts = [0i64; DEVICES];
    k.seconds = [0i64; DEVICES];
    k.came = [0u8; DEVICES];
    k.input = [0u32; INPUT_WORDS];
    k.blocking = [0u32; BLOCKING_WORDS];
    k.fast = [0u32; FAST_WORDS];
    k.ledger = fresh_ledger();
    bare(DONE)
}
