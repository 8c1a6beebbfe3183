// Rotation of a word.
ghost use Rattle.std.specs.Prelude.{◌≡◌, ◌%◌};
ghost use Rattle.words.specs.Words.{rotl};

// x rotated left by k places, where a whole turn of 32 is none.
#[tactic(auto, using(crate::proofs::Rotation::by_shifts))]
pub fn rotate_left(x: u32, k: u32) -> u32
    ensures { result ≡ rotl (k % 32) x }
{
    x.rotate_left(k)
}
