// Records added to an index, one by one.
ghost use Rattle.std.specs.Prelude.{◌≡◌, map, ◌+◌, ◌≤◌, length};
ghost use Rattle.ledger.specs.Refusals.{number_given};
ghost use Rattle.journal.specs.Header.{largest};
ghost use Rattle.journal.specs.Walking.{walk};
ghost use Rattle.journal.specs.Writing.{further};
ghost use Rattle.index.specs.Summary.{updated};
ghost use Rattle.index.specs.Room.{Roomy};

use crate::summary::Index;
use journal::read;
use ledger::Refusal;

// Goes over the records of a version from a position of some bytes on, and adds each to an index of `count` records. The bytes stand `base`
// bytes further on in the journal than in `j`.
pub fn add_records(
    version: u32,
    j: &[u8],
    from: usize,
    base: usize,
    count: usize,
    index: &mut Index,
) -> Result<(), Refusal>
    requires from_in_bounds { (from ≤ length j.now) × (base + length j.now ≤ largest) }
    requires roomy { Roomy count (base + from) index.old.kinds index.old.reads }
    ensures number_value { number_given result ≡ (walk version j.now from).number }
    ensures index_after { index.new ≡ updated count index.old (map (further base) (walk version j.now from).entries) }
    ensures roomy_after { Roomy (count + length (walk version j.now from).entries) (base + length j.now) index.new.kinds index.new.reads }
{
    let mut at = from;
    let mut many = count;
    while let Some((it, next)) = read(version, j, at)? {
        index.add(many, it, base + at);
        many += 1;
        at = next;
    }
    Ok(())
}
