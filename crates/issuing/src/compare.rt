// A number compared with all that are remembered, in one pass that runs to its end whatever it met.
ghost use Rattle.std.specs.Prelude.{◌≡◌, ◌≤◌, length};
ghost use Rattle.desk.specs.Sizes.{remembers, number_bytes};
ghost use Rattle.desk.specs.Desks.{same, among, remembered};

use desk::{Desk, NUMBER_BYTES};

// The same 16 bytes, compared as one word: which byte differs takes no more steps or fewer.
fn same(a: &[u8; NUMBER_BYTES], b: &[u8; NUMBER_BYTES]) -> bool
    ensures { result ≡ same a.now b.now }
{
    u128::from_le_bytes(*a) == u128::from_le_bytes(*b)
}

// The number is among those that the desk remembers.
pub fn repeats(desk: &Desk, number: &[u8; NUMBER_BYTES]) -> bool
    requires { desk.now.count ≤ remembers }
    ensures { result ≡ among number.now (remembered desk.now) }
{
    let (places, _) = desk.numbers.as_chunks::<NUMBER_BYTES>();
    let mut met = false;
    // the newest first: of a pass the other way the compiler makes a slower loop
    for i in (0..desk.count as usize).rev() {
        met |= same(&places[i], number);
    }
    met
}
