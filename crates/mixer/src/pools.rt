// A pool that is lent.
ghost use Rattle.std.specs.Prelude.{◌≡◌, length};
ghost use Rattle.mixer.specs.Sizes.{InPool};
ghost use Rattle.mixer.specs.Once.{in_pool_once};

use ledger::Spot;

// The words of a pool of 128 or 32, lent, and where its next byte goes: a place inside it.
#[derive(Drop)]
pub struct Pool<'a, const N: usize> {
    pub words: &'a mut [u32; N],
    pub spot: Spot,
    pub ghost in_pool: { InPool N spot } by { in_pool_once N spot },
    pub ghost as_many: { length words.now ≡ N },
}

impl<'a, const N: usize> Pool<'a, N> {
    // Words that are lent, and a place inside them.
    pub fn new(words: &'a mut [u32; N], spot: Spot) -> Pool<'a, N>
        requires { InPool N spot }
        ensures same_words { result.words.ghost_name ≡ words.entry.ghost_name }
        ensures words_value { result.words.now ≡ words.old }
        ensures spot_value { result.spot ≡ spot }
    {
        Pool { words, spot }
    }
}
