// A line that begins with a name, and has numbers behind it.
ghost use Rattle.std.specs.Prelude.{◌+◌, ◌*◌, length};
ghost use Rattle.transcript.specs.Writing.{Adds, AddsAtMost, HasRoom};
ghost use Rattle.listing.specs.Listing.{named};

use crate::row::row;
use transcript::text::Text;

// A name, the numbers and a newline.
pub fn line(name: &[u8], numbers: &[u64], text: &mut Text)
    requires { HasRoom text.old (length name.now + 21 * length numbers.now + 1) }
    ensures put { Adds text.old text.new (named name.now numbers.now) }
    ensures upper_bound { AddsAtMost text.old text.new (length name.now + 21 * length numbers.now + 1) }
{
    text.letters(name);
    row(numbers, text);
    text.push(b'\n');
}
