// The lines of the transcript, each at the start of a room.
ghost use Rattle.std.specs.Prelude.{◌≡◌};
ghost use Rattle.transcript.specs.Writing.{Adds, AddsAtMost, HasRoom};
ghost use Rattle.transcript.specs.Lines.{numbers_of, longest_numbers, line_in, end_in};

use crate::text::Text;
use ledger::Answer;
use ledger::sizes::LONGEST;

// The longest line with no bytes, and with the most bytes, two digits for each; the longest last line. `specs/Lines.antt` names them too.
const LONGEST_BARE: usize = 78;

pub const LONGEST_LINE: usize = LONGEST_BARE + 2 * LONGEST;

pub const LONGEST_END: usize = 15;

// Writes the seven numbers of a line.
fn numbers(answer: Answer, input: u32, blocking: u32, text: &mut Text)
    requires { HasRoom text.old longest_numbers }
    ensures put { Adds text.old text.new (numbers_of answer input blocking) }
    ensures upper_bound { AddsAtMost text.old text.new longest_numbers }
{
    text.word(answer.number);
    text.word(answer.delivered);
    text.word(input);
    text.word(blocking);
    text.word(answer.blocks);
    text.word(answer.compressions);
    text.number(answer.added);
}

// Writes a line at the start of a room, and answers how many bytes it has: 0, and nothing is written, where the room is
// not long enough for the longest line with so many bytes.
pub fn line(answer: Answer, input: u32, blocking: u32, bytes: &[u8], room: &mut [u8]) -> usize
    ensures { (record { count = result; room = room.new }) ≡ line_in room.old answer input blocking bytes.now }
{
    if room.len() < LONGEST_BARE || (room.len() - LONGEST_BARE) / 2 < bytes.len() {
        return 0;
    }
    let mut text = Text::new(room);
    numbers(answer, input, blocking, &mut text);
    text.tail(bytes);
    text.push(b'\n');
    text.len()
}

// Writes the last line, `end` and a number, at the start of a room, and answers how many bytes it has: 0, and nothing is
// written, where the room is shorter than the longest last line.
pub fn ending(n: u32, room: &mut [u8]) -> usize
    ensures { (record { count = result; room = room.new }) ≡ end_in room.old n }
{
    if room.len() < LONGEST_END {
        return 0;
    }
    let mut text = Text::new(room);
    text.letters(b"end ");
    text.number(n);
    text.push(b'\n');
    text.len()
}
