// The index of a journal, as a value. Places that are not used are 0.
ghost use Rattle.std.specs.Prelude.{◌≡◌, ℕ, ◌+◌, ◌≤◌, ◌<◌, ◌^◌, get_or};
ghost use Rattle.journal.specs.Header.{largest};
ghost use Rattle.journal.specs.Walking.{entry};
ghost use Rattle.index.specs.Summary.{asks, added};

use journal::Record;

// Every so many records one has its place in the index.
pub const EVERY: usize = 64;

// The most places: a record has at least 7 bytes, so a journal has at most 8,769, and 138 of their numbers are multiples of 64.
pub const PLACES: usize = 138;

pub const KINDS: usize = 6;

// The places of records 0, 64, 128 and so on; how many records there are of kinds 1 to 6; the sum of the lengths that kinds 5 and 6 ask for.
// Two are equal where every number is, places that are not used among them.
#[repr(C)]
#[derive(Clone, Copy, PartialEq)]
pub struct Index {
    pub places: [u32; PLACES],
    pub kinds: [u32; KINDS],
    pub reads: u32,
}

// The length that a record asks for where it is a read.
#[tactic(auto, unfolding(crate::specs::Summary::asks))]
fn asks(it: Record) -> u32
    ensures { result ≡ asks it }
{
    match it {
        Record::Read { len, .. } | Record::BlockingRead { len, .. } => len,
        _ => 0,
    }
}

impl Index {
    // One record more, which is number `count` and stands at a place.
    pub fn add(&mut self, count: usize, it: Record, place: usize)
        requires count_bound { (count < 8832) × (place ≤ largest) }
        requires few { (k : ℕ) → get_or self.old.kinds k 0 ≤ count }
        requires narrow { self.old.reads + asks it < 2 ^ 32 }
        ensures { (next : ℕ) → self.new ≡ added count self.old (entry place it next) }
    {
        if count % EVERY == 0 {
            self.places[count / EVERY] = place as u32;
        }
        self.kinds[it.kind() as usize - 1] += 1;
        self.reads += asks(it);
    }
}
