// A text that is written into a room: numbers in decimal, bytes in hexadecimal, and letters as they are, one behind another.
//
// Each method adds one piece; what it asks is that the room still holds the longest piece of its kind.
ghost use Rattle.std.specs.Prelude.{◌≡◌, ◌+◌, ◌*◌, ◌≤◌, ◌<◌, [], ◌∷◌, length};
ghost use Rattle.transcript.specs.Text.{digits, decimal_of, word_of, glyph_of, hex_of, tail_of};

use itoa::Buffer;

// A hexadecimal digit. (d + 6) / 16 is 1 for the letters and 0 for `0` to `9`; a letter stands 39 further on. The digit is of a byte that was
// handed out, so nothing is branched on or looked up by it.
fn glyph(d: u8) -> u8
    requires { d < 16 }
    ensures { result ≡ glyph_of d }
{
    b'0' + d + 39 * ((d + 6) / 16)
}

// A room, and the place in it where the text ends.
#[derive(Drop)]
pub struct Text<'a> {
    room: &'a mut [u8],
    at: usize,
    pub ghost in_room: { at ≤ length room.now },
}

impl<'a> Text<'a> {
    ghost use Rattle.transcript.specs.Writing.{Adds, AddsAtMost, HasRoom};

    // No text yet.
    pub fn new(room: &'a mut [u8]) -> Text<'a>
        ensures same_reference { result.room.ghost_name ≡ room.entry.ghost_name }
        ensures room { result.room.now ≡ room.old }
        ensures start { result.at ≡ 0 }
    {
        Text { room, at: 0 }
    }

    // How many bytes of the room the text takes. A length and no part of the room: what is promised of lines is said of the whole room.
    pub fn len(&self) -> usize
        ensures { result ≡ self.now.at }
    {
        self.at
    }

    // A byte as it is.
    pub fn push(&mut self, byte: u8)
        requires { HasRoom self.old 1 }
        ensures { Adds self.old self.new (byte ∷ []) }
    {
        self.room[self.at] = byte;
        self.at += 1;
    }

    // Letters as they are.
    pub fn letters(&mut self, letters: &[u8])
        requires { HasRoom self.old (length letters.now) }
        ensures { Adds self.old self.new letters.now }
    {
        let end = self.at + letters.len();
        self.room[self.at..end].copy_from_slice(letters);
        self.at = end;
    }

    // n in decimal: ten digits at most. A function for each type: the rules tell a decimal with its width, ten digits or twenty.
    pub fn number(&mut self, n: u32)
        requires { HasRoom self.old 10 }
        ensures put { Adds self.old self.new (decimal_of n) }
        ensures upper_bound { AddsAtMost self.old self.new 10 }
    {
        self.letters(Buffer::new().format(n).as_bytes());
    }

    // The same of a larger number: one below 2^64 has twenty digits at most.
    pub fn large(&mut self, n: u64)
        requires { HasRoom self.old 20 }
        ensures put { Adds self.old self.new (digits 20 n) }
        ensures upper_bound { AddsAtMost self.old self.new 20 }
    {
        self.letters(Buffer::new().format(n).as_bytes());
    }

    // n in decimal and a space.
    pub fn word(&mut self, n: u32)
        requires { HasRoom self.old 11 }
        ensures put { Adds self.old self.new (word_of n) }
        ensures upper_bound { AddsAtMost self.old self.new 11 }
    {
        self.number(n);
        self.push(b' ');
    }

    // Bytes in hexadecimal.
    fn hex(&mut self, bytes: &[u8])
        requires { HasRoom self.old (2 * length bytes.now) }
        ensures { Adds self.old self.new (hex_of bytes.now) }
    {
        for byte in bytes {
            self.push(glyph(byte / 16));
            self.push(glyph(byte % 16));
        }
    }

    // A space and the bytes in hexadecimal, where there are any.
    pub fn tail(&mut self, bytes: &[u8])
        requires { HasRoom self.old (1 + 2 * length bytes.now) }
        ensures put { Adds self.old self.new (tail_of bytes.now) }
        ensures upper_bound { AddsAtMost self.old self.new (1 + 2 * length bytes.now) }
    {
        if !bytes.is_empty() {
            self.push(b' ');
            self.hex(bytes);
        }
    }
}
