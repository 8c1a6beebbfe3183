// What is decided from of a record besides its ledger. It is the public half's: of the generator only words 0 to 3 go there.
ghost use Rattle.std.specs.Prelude.{◌≡◌, take};
ghost use Rattle.ledger.specs.Range.{others_in_range};
ghost use Rattle.keeper.specs.Record.{timers_in, device_timer};

use keeper::Keeper;
use ledger::Timer;
use ledger::sizes::GENERATOR_WORDS;
use reckon;

// Words 0 to 3 of a generator, as an array: the range test takes it by value.
fn fixed_words(g: [u32; GENERATOR_WORDS]) -> [u32; 4]
    ensures { result ≡ take 4 g }
{
    [g[0], g[1], g[2], g[3]]
}

// All timers and the generator's fixed words are in range. The clocks have no say.
pub fn others_in_range(k: &Keeper) -> bool
    ensures { result ≡ others_in_range (timers_in k.now) (take 4 k.now.generator) }
{
    let w = fixed_words(k.generator);
    reckon::others_in_range(&k.firsts[..], &k.seconds[..], &k.came[..], w)
}

// The timer of a device; where there is no such device, what stands here is not used.
pub fn device_timer(k: &Keeper, device: u32) -> Timer
    ensures { result ≡ device_timer k.now device }
{
    reckon::timer_of(&k.clocks, &k.firsts, &k.seconds, &k.came, device)
}
