// Record numbers as a person writes them: decimal digits, as many as there are.
ghost use Rattle.std.specs.Prelude.{◌≡◌, [], ◌∷◌, ◌+◌, ◌-◌, ◌≤◌, ◌<◌, Some, None, length, ◌==◌, is_some, take_while, IfSome};
ghost use Rattle.ledger.specs.Choice.{pick};
ghost use Rattle.lab.specs.Numbers.{digit, is_number, onward, zeros_before};

// From here on all numbers are alike: no journal has so many records.
const ENOUGH: u32 = 100000;

// What a decimal digit counts. The library's `to_digit` is of a `char`, and these are bytes.
pub fn count(b: u8) -> Option<u32>
    ensures { result ≡ pick (digit b) (Some (b - 48)) None }
{
    match b {
        b'0'..=b'9' => Some(u32::from(b - b'0')),
        _ => None,
    }
}

// One digit more.
fn longer(value: u32, digit: u32) -> u32
    requires { (digit < 10) × (value < 1000000) }
    ensures { (result ≡ onward value ((digit + 48) ∷ [])) × (result < 1000000) }
{
    if value < ENOUGH {
        value * 10 + digit
    } else {
        value
    }
}

// The number that a word says; none where it says none. Not by the library's `parse`: a number of any length is one.
pub fn number(word: &[u8]) -> Option<u32>
    ensures is_one { is_some result ≡ is_number word.now }
    ensures which { IfSome result (λ value. value ≡ onward 0 word.now) }
{
    if word.is_empty() {
        return None;
    }
    let mut value = 0;
    for b in word {
        let digit = count(*b)?;
        value = longer(value, digit);
    }
    Some(value)
}

// How many zeros a word begins with.
fn zeros(word: &[u8]) -> usize
    ensures { result ≡ length (take_while (λ b. b == 48) word.now) }
{
    word.iter().take_while(|b| **b == b'0').count()
}

// How many zeros stand before a number that does not need them.
pub fn zeros_before(word: &[u8]) -> usize
    ensures { (result ≡ zeros_before word.now) × (result ≤ length word.now) }
{
    zeros(word).min(word.len().saturating_sub(1))
}
