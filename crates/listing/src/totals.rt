// The sums of an index: how many records there are, how many of each kind, and the lengths that reads ask for.
ghost use Rattle.std.specs.Prelude.{◌≡◌, ◌<◌, ◌^◌, length};
ghost use Rattle.journal.specs.Layout.{sum};
ghost use Rattle.transcript.specs.Writing.{Adds, AddsAtMost, HasRoom};
ghost use Rattle.listing.specs.Listing.{sums_text, longest_sums};

use crate::named::line;
use transcript::text::Text;

// No three lines are longer. `specs/Listing.antt` names it too.
pub const LONGEST_SUMS: usize = 188;

// How many records there are of all kinds. Six counts can add up to more than a u32 holds. `index` has the same sum: this crate does not stand on it.
fn records(kinds: &[u32]) -> u64
    requires { length kinds.now < 2 ^ 32 }
    ensures { result ≡ sum kinds.now }
{
    kinds.iter().map(|&n| u64::from(n)).sum()
}

// The three lines.
pub fn sums(kinds: &[u32; 6], reads: u32, text: &mut Text)
    requires { HasRoom text.old longest_sums }
    ensures put { Adds text.old text.new (sums_text kinds.now reads) }
    ensures upper_bound { AddsAtMost text.old text.new longest_sums }
{
    line(b"records", &[records(kinds)], text);
    line(b"kinds", &kinds.map(u64::from), text);
    line(b"reads", &[reads as u64], text);
}
