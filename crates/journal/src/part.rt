// The bytes that a record carries, as a part of the journal itself: nothing is copied.
ghost use Rattle.std.specs.Prelude.{◌≡◌, ◌-◌, take, drop};

// The `len` bytes from `start` on, or as many of them as the journal has.
fn part(j: &[u8], start: usize, len: usize) -> &[u8]
    ensures { result.now ≡ take len (drop start j.now) }
{
    let rest = j.get(start..).unwrap_or(&[]);
    rest.get(..len).unwrap_or(rest)
}

// The last `len` bytes before the position `next`. Of a record that was read the journal has them all.
pub fn payload(j: &[u8], next: usize, len: usize) -> &[u8]
    ensures { result.now ≡ take len (drop (next - len) j.now) }
{
    part(j, next.saturating_sub(len), len)
}
