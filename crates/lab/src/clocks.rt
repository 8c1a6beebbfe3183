// A clock as a person writes it: decimal digits, from 0 to 4,294,967,295.
ghost use Rattle.std.specs.Prelude.{◌≡◌};
ghost use Rattle.lab.specs.Clocks.{clock_of};
ghost use Rattle.lab.specs.Given.{given_clock};

use crate::numbers::count;

// The clock that a word says. A number that is too large is none: it is not cut to one that fits. Read digit by digit, since the library's `parse`
// takes a `+` before them.
pub fn read_clock(word: &[u8]) -> Option<u32>
    ensures { given_clock result ≡ clock_of word.now }
{
    if word.is_empty() {
        return None;
    }
    let mut value: u32 = 0;
    for b in word {
        let digit = count(*b)?;
        value = value.checked_mul(10)?.checked_add(digit)?;
    }
    Some(value)
}
