// The compression of one block, and the hash value that a message starts from.
ghost use Rattle.std.specs.Prelude.{◌≡◌};
ghost use Rattle.words.specs.Words.{add_words};
ghost use Rattle.secure_hash.specs.Sha1.{initial_hash, compressed};

use crate::ring::next_four;
use crate::steps::{four, of_twenty};
use words::add_words;

// The initial hash value.
#[tactic(auto, unfolding(crate::specs::Sha1::initial_hash))]
pub fn initial_hash() -> [u32; 5]
    ensures { result ≡ initial_hash }
{
    [
        0x6745_2301,
        0xefcd_ab89,
        0x98ba_dcfe,
        0x1032_5476,
        0xc3d2_e1f0,
    ]
}

// The hash value after the block that the ring holds, from the hash value h. The ring is lent, so that whoever lends it can lay something else over
// what a block leaves there: words of the schedule, from sixteen of which the block could be worked out. Before step 64 it has the last of the words,
// and from there on it is left as it is.
pub fn compress_in(h: [u32; 5], w: &mut [u32; 16]) -> [u32; 5]
    ensures { result ≡ compressed h w.old }
{
    let mut s = h;
    for t in (0..64).step_by(4) {
        // by way of `r`: the prover does not follow an array from a call straight into a variable that stands already
        let r = four(s, t, w);
        s = r;
        next_four(w, t);
    }
    for t in (64..80).step_by(4) {
        let r = of_twenty::<3>(s, t, w);
        s = r;
    }
    add_words(s, h)
}

// The hash value after the block m, in a ring of its own.
pub fn compress(h: [u32; 5], m: [u32; 16]) -> [u32; 5]
    ensures { result ≡ compressed h m }
{
    let mut w = m;
    compress_in(h, &mut w)
}
