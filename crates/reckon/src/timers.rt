// A device's timer in the table: its number in each of four arrays, since the record that C lends has it so.
ghost use Rattle.std.specs.Prelude.{◌≡◌, ◌<◌};
ghost use Rattle.ledger.specs.Sizes.{devices};
ghost use Rattle.ledger.specs.Timers.{timers_of, timer_of, kept};

use ledger::Timer;
use ledger::sizes::DEVICES;

// The timer of a device; where there is no such device, what stands here is not used.
pub fn timer_of(
    clocks: &[u32; DEVICES],
    firsts: &[i64; DEVICES],
    seconds: &[i64; DEVICES],
    came: &[u8; DEVICES],
    device: u32,
) -> Timer
    ensures { result ≡ timer_of (timers_of clocks.now firsts.now seconds.now came.now) device }
{
    let i = device as usize;
    Timer {
        clock: clocks.get(i).copied().unwrap_or(0),
        d1: firsts.get(i).copied().unwrap_or(0),
        d2: seconds.get(i).copied().unwrap_or(0),
        came: came.get(i).copied().unwrap_or(0),
    }
}

// The timer of a device is kept. Only proved code comes here, after the device was tested.
pub fn keep_timer(
    clocks: &mut [u32; DEVICES],
    firsts: &mut [i64; DEVICES],
    seconds: &mut [i64; DEVICES],
    came: &mut [u8; DEVICES],
    device: u32,
    t: Timer,
)
    requires { device < devices }
    ensures { timers_of clocks.new firsts.new seconds.new came.new ≡ kept device t (timers_of clocks.old firsts.old seconds.old came.old) }
{
    let i = device as usize;
    clocks[i] = t.clock;
    firsts[i] = t.d1;
    seconds[i] = t.d2;
    came[i] = t.came;
}
