// The call of the crate `convert` as C sees it, under the name that it links: include/nk_convert.h has its declaration. It only hands on what
// it is given, and promises what the call of `convert` promises.
#![tactic(auto)]

ghost use Rattle.std.specs.Prelude.{◌≡◌, length};
ghost use Rattle.convert.specs.Converting.{converted_of, room_after};

use convert::Converted;

// Writes a journal of version 1 as one of version 2, at the start of the room.
#[unsafe(no_mangle)]
pub extern "C" fn nk_convert(j: &[u8], room: &mut [u8]) -> Converted
    ensures value { result ≡ converted_of j.now (length room.old) }
    ensures room_after { room.new ≡ room_after j.now room.old }
{
    convert::nk_convert(j, room)
}
