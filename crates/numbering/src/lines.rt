// One number issued, and its line.
ghost use Rattle.std.specs.Prelude.{◌≡◌, ◌≤◌, length};
ghost use Rattle.desk.specs.Issuing.{issue};
ghost use Rattle.transcript.specs.Text.{Put};
ghost use Rattle.numbering.specs.Lines.{issued_line, longest_issued, IssuedWith};

use desk::{Desk, Issued};
use issuing::issue_on;
use keeper::Keeper;
use transcript::text::Text;

// The longest line: two numbers of ten digits with a space behind each, one of ten digits, a space, two digits for each of the 16 bytes, and the
// newline. `specs/Lines.antt` names it too.
pub const LONGEST_ISSUED: usize = 66;

// The line of what the desk handed back, at the start of a room, and its length. The zeros of a refusal are written too, so that every line has the
// same parts.
fn line_of(issued: &Issued, room: &mut [u8; LONGEST_ISSUED]) -> usize
    ensures put { Put room.old room.new 0 (issued_line issued.now) result }
    ensures fits { result ≤ longest_issued }
{
    let mut text = Text::new(&mut room[..]);
    text.word(issued.answer.number);
    text.word(issued.answer.blocks);
    text.number(issued.answer.compressions);
    text.tail(&issued.number);
    text.push(b'\n');
    text.len()
}

// One number issued at a clock for a class field, and its line at the start of a room: answers the line's length. The desk is lent like the keeper, so that
// nobody who issues one number after another can forget it: no output would tell.
pub fn number_line(
    k: &mut Keeper,
    desk: &mut Desk,
    at: u32,
    field: &[u8],
    room: &mut [u8; LONGEST_ISSUED],
) -> usize
    ensures { IssuedWith (issue k.old desk.old at field.now) k.new desk.new room.old room.new result }
{
    line_of(&issue_on(k, desk, at, field), room)
}
