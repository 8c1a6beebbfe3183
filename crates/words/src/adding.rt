// Sums of whole lists of words.
ghost use Rattle.std.specs.Prelude.{◌≡◌};
ghost use Rattle.words.specs.Words.{add_words};

// Words added to as many others, each to the one at its place. By index, since it goes over two lists.
pub fn add_words<const N: usize>(mut t: [u32; N], s: [u32; N]) -> [u32; N]
    ensures { result ≡ add_words t.entry s.entry }
{
    for i in 0..N {
        t[i] = t[i].wrapping_add(s[i]);
    }
    t
}
