// Numbers in decimal, a space before each.
ghost use Rattle.std.specs.Prelude.{◌*◌, length};
ghost use Rattle.transcript.specs.Writing.{Adds, AddsAtMost, HasRoom};
ghost use Rattle.listing.specs.Listing.{spaced};

use transcript::text::Text;

// Each has 21 letters at most, with its space.
pub fn row(numbers: &[u64], text: &mut Text)
    requires { HasRoom text.old (21 * length numbers.now) }
    ensures put { Adds text.old text.new (spaced numbers.now) }
    ensures upper_bound { AddsAtMost text.old text.new (21 * length numbers.now) }
{
    for n in numbers {
        text.push(b' ');
        text.large(*n);
    }
}
