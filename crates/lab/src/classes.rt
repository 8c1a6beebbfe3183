// A class as a person writes it: `drill`, `live`, or a class field in hexadecimal.
ghost use Rattle.std.specs.Prelude.{◌≡◌, true, [], ◌∷◌, ◌+◌, ◌*◌, ◌≤◌, ◌<◌, length, IfSome};
ghost use Rattle.std.specs.List.{list_all};
ghost use Rattle.transcript.specs.Text.{Put};
ghost use Rattle.lab.specs.Classes.{hex_value, is_digit, is_hex, bytes_of, class_field, field_of, Gives};
ghost use Rattle.lab.specs.Given.{given_class};

use desk::{DRILL, LIVE};

// What a hexadecimal digit of either case counts, or 16.
fn value(b: u8) -> u8
    ensures { result ≡ hex_value b }
{
    match b {
        b'0'..=b'9' => b - b'0',
        b'A'..=b'F' => b - b'A' + 10,
        b'a'..=b'f' => b - b'a' + 10,
        _ => 16,
    }
}

// By hand, here and below: the kit's own reader of hexadecimal may leave half a room written, and this one leaves all of it as it was.
fn all_digits(word: &[u8]) -> bool
    ensures { result ≡ list_all is_digit word.now }
{
    word.iter().all(|b| value(*b) < 16)
}

// Whether a word is bytes in hexadecimal: digits, two for each byte.
fn is_hex(word: &[u8]) -> bool
    ensures { result ≡ is_hex word.now }
{
    word.len() % 2 == 0 && all_digits(word)
}

fn byte(high: u8, low: u8) -> u8
    requires { (high < 16) × (low < 16) }
    ensures { result ≡ high * 16 + low }
{
    high * 16 + low
}

// The bytes that a word of digits makes, at the start of a room.
fn lay_bytes(word: &[u8], room: &mut [u8]) -> usize
    requires { (is_hex word.now ≡ true) × (length word.now ≤ 2 * length room.old) }
    ensures { (Put room.old room.new 0 (bytes_of word.now) result) × (result ≤ length room.new) }
{
    let n = word.len() / 2;
    for i in 0..n {
        room[i] = byte(value(word[2 * i]), value(word[2 * i + 1]));
    }
    n
}

fn lay_one(b: u8, room: &mut [u8]) -> usize
    requires { 0 < length room.old }
    ensures { (Put room.old room.new 0 (b ∷ []) result) × (result ≤ length room.new) }
{
    room[0] = b;
    1
}

// A word read as a class: how many bytes its field has, which stand at the start of a room that holds a byte for any two letters. Of a word that is
// no class there is none, and the room stays as it was.
pub fn read_class(word: &[u8], room: &mut [u8]) -> Option<usize>
    requires { length word.now ≤ 2 * length room.old }
    ensures gives { Gives (field_of word.now) (given_class result) room.old room.new }
    ensures fits { IfSome result (λ len. len ≤ length room.new) }
{
    match word {
        b"drill" => Some(lay_one(DRILL, room)),
        b"live" => Some(lay_one(LIVE, room)),
        _ => if is_hex(word) {
            Some(lay_bytes(word, room))
        } else {
            None
        },
    }
}
