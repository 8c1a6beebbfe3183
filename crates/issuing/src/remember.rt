// A number more in the desk.
ghost use Rattle.std.specs.Prelude.{◌≡◌, ◌≤◌};
ghost use Rattle.desk.specs.Sizes.{remembers};
ghost use Rattle.desk.specs.Desks.{appended};

use desk::{DESK_BYTES, Desk, NUMBER_BYTES, REMEMBERED};

// Where the newest number of a full desk stands.
const LAST: usize = DESK_BYTES - NUMBER_BYTES;

// The number is the newest; in a full desk the oldest makes room.
pub fn remember(desk: &mut Desk, number: &[u8; NUMBER_BYTES])
    requires { desk.old.count ≤ remembers }
    ensures { desk.new ≡ appended number.now desk.old }
{
    if desk.count == REMEMBERED {
        desk.numbers.copy_within(NUMBER_BYTES.., 0);
        desk.numbers[LAST..].copy_from_slice(number);
        return;
    }
    let place = NUMBER_BYTES * desk.count as usize;
    desk.numbers[place..place + NUMBER_BYTES].copy_from_slice(number);
    desk.count += 1;
}
