// Draws from the generator: 15 bytes behind the class byte, again while the number is one that is remembered.
ghost use Rattle.std.specs.Prelude.{◌≡◌, ◌∷◌, ◌≤◌};
ghost use Rattle.ledger.specs.Refusals.{number_of};
ghost use Rattle.keeper.specs.Generator.{generated};
ghost use Rattle.desk.specs.Sizes.{drawn_bytes, most_draws, remembers};
ghost use Rattle.desk.specs.Issuing.{none, handed};
ghost use Rattle.issuing.specs.Classes.{byte_of};
ghost use Rattle.issuing.specs.Promise.{streamed, streaming};

use crate::classes::Class;
use crate::compare::repeats;
use crate::remember::remember;
use desk::{DRAWS, Desk, Issued, NUMBER_BYTES};
use generator::generate;
use ledger::refusals::DONE;
use ledger::sizes::GENERATOR_WORDS;
use ledger::{Answer, Refusal};

// One draw.
fn draw(generator: &mut [u32; GENERATOR_WORDS], class: Class) -> [u8; NUMBER_BYTES]
    ensures value { result ≡ byte_of class ∷ (generated drawn_bytes generator.old).bytes }
    ensures generator_after { generator.new ≡ (generated drawn_bytes generator.old).generator }
{
    let mut number = [0u8; NUMBER_BYTES];
    number[0] = class.byte();
    generate(generator, &mut number[1..]);
    number
}

// No number: 16 zero bytes.
pub fn no_number(why: Refusal, blocks: u32, compressions: u32) -> Issued
    ensures { result ≡ none (number_of why) (record { blocks = blocks; compressions = compressions }) }
{
    let a = Answer {
        number: why.number(),
        blocks,
        compressions,
        ..Answer::default()
    };
    Issued {
        answer: a,
        number: [0u8; NUMBER_BYTES],
    }
}

// A number. It and what stands above are the two cases that the desk's rules name.
fn handed(number: [u8; NUMBER_BYTES], blocks: u32, compressions: u32) -> Issued
    ensures { result ≡ handed (record { blocks = blocks; compressions = compressions }) number }
{
    let a = Answer {
        number: DONE,
        delivered: NUMBER_BYTES as u32,
        blocks,
        compressions,
        ..Answer::default()
    };
    Issued { answer: a, number }
}

// At most four draws, a block each, after so many compressions. Each is compared with all that is remembered; the first that is none of them is issued.
pub fn draws(
    generator: &mut [u32; GENERATOR_WORDS],
    desk: &mut Desk,
    class: Class,
    compressions: u32,
) -> Issued
    requires { desk.old.count ≤ remembers }
    ensures value { streamed generator.new desk.new result ≡ streaming most_draws (byte_of class) desk.old (record { blocks = 0; compressions = compressions }) generator.old }
    ensures drew { 1 ≤ result.answer.blocks }
{
    for repeated in 0..DRAWS {
        let number = draw(generator, class);
        if !repeats(desk, &number) {
            remember(desk, &number);
            return handed(number, repeated + 1, compressions);
        }
    }
    no_number(Refusal::AllRepeated, DRAWS, compressions)
}
