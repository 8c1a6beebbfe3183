// Records looked up by their numbers.
ghost use Rattle.std.specs.Prelude.{◌≡◌, map, ◌≤◌, ◌*◌, max, length, take};
ghost use Rattle.std.proofs.lemmas.List.Edits.{sets};
ghost use Rattle.journal.specs.Header.{largest};
ghost use Rattle.ledger.specs.Refusals.{number_given};
ghost use Rattle.index.specs.Summary.{every, most_places, index_of};
ghost use Rattle.index.specs.Looking.{passed, sought, Finds};
ghost use Rattle.index.specs.Calls.{agrees, file_agrees, look_refused, answers_after, places_after};

use crate::at_hand::Kept;
use crate::fresh::{fresh_in, records, version_in};
use crate::summary::{EVERY, Index, PLACES};
use journal::{LARGEST, read};
use ledger::Refusal;
use ledger::refusals::{DONE, number_given};

// The most record numbers of one call.
pub const NUMBERS: usize = 64;

// A position moved on by n records of a version; where there are not so many, to after the last. Why there are no more is told to nobody, but by `?`
// each way out is a jump of its own: tested together with what was read, a record takes two to three times as long.
fn move_on(version: u32, j: &[u8], n: usize, at: &mut usize) -> Result<(), Refusal>
    ensures value { at.new ≡ passed n version j.now at.old }
    ensures upper_bound { at.new ≤ max at.old (length j.now) }
{
    for _i in 0..n {
        let Some((_, next)) = read(version, j, *at)? else {
            return Ok(());
        };
        *at = next;
    }
    Ok(())
}

// The position after n records of a version; where there are not so many, after the last. A call of its own: as part of the look-up it has to share the
// registers, and a record takes a third longer.
#[inline(never)]
fn pass(version: u32, j: &[u8], from: usize, n: usize) -> usize
    ensures value { result ≡ passed n version j.now from }
    ensures upper_bound { result ≤ max from (length j.now) }
{
    let mut at = from;
    let _ = move_on(version, j, n, &mut at);
    at
}

// The place of the record of a number, from the nearest entry at or before it on.
fn find(
    version: u32,
    j: &[u8],
    places: &[u32; PLACES],
    count: usize,
    number: u32,
) -> Result<u32, Refusal>
    requires { (length j.now ≤ largest) × (count ≤ every * most_places) }
    ensures { Finds result (sought count places.now version j.now number) }
{
    let n = number as usize;
    if n >= count {
        return Err(Refusal::NoSuchRecord);
    }
    let at = pass(version, j, places[n / EVERY] as usize, n % EVERY);
    Ok(at as u32)
}

// Several record numbers, one after another; what is found of each is laid at the start of two rooms, which are C's.
pub fn find_all(
    version: u32,
    j: &[u8],
    places: &[u32; PLACES],
    count: usize,
    numbers: &[u32],
    answers: &mut [u32; NUMBERS],
    found: &mut [u32; NUMBERS],
)
    requires j_len_bound { (length j.now ≤ largest) × (count ≤ every * most_places) }
    requires numbers_len_bound { length numbers.now ≤ 64 }
    ensures answers_after { answers.new ≡ sets answers.old 0 (map (λ m. (sought count places.now version j.now m).answer) numbers.now) }
    ensures found_after { found.new ≡ sets found.old 0 (map (λ m. (sought count places.now version j.now m).place) numbers.now) }
{
    for (i, number) in numbers.iter().enumerate() {
        match find(version, j, places, count, *number) {
            Ok(place) => {
                answers[i] = DONE;
                found[i] = place;
            }
            Err(why) => {
                answers[i] = why.number();
                found[i] = 0;
            }
        }
    }
}

// Looks up where the journal ends with 0, its index is the one worked out from it, and there are no more numbers than one call takes.
fn look_if<K: Kept>(
    kept: &K,
    room: &[u8],
    len: usize,
    numbers: &[u32],
    answers: &mut [u32; NUMBERS],
    found: &mut [u32; NUMBERS],
) -> Result<(), Refusal>
    requires room_len { length room.now ≡ largest }
    ensures value { number_given result ≡ look_refused (K.tells kept.now (index_of (take len room.now))) room.now len numbers.now }
    ensures answers_after { answers.new ≡ answers_after (number_given result) room.now len numbers.now answers.old }
    ensures found_after { found.new ≡ places_after (number_given result) room.now len numbers.now found.old }
{
    let index = fresh_in(room, len)?;
    if !kept.is(&index) {
        return Err(Refusal::IndexDiffers);
    }
    if numbers.len() > NUMBERS {
        return Err(Refusal::TooLong);
    }
    find_all(
        version_in(room, len),
        &room[..len],
        &index.places,
        records(&index.kinds) as usize,
        numbers,
        answers,
        found,
    );
    Ok(())
}

// Looks up to 64 records up by their numbers in the journal that a room's first `len` bytes are: for each 0 and its place, or 18.
pub fn nk_look(
    room: &[u8; LARGEST],
    len: usize,
    index: Index,
    numbers: &[u32],
    answers: &mut [u32; NUMBERS],
    found: &mut [u32; NUMBERS],
) -> u32
    ensures value { result ≡ look_refused (agrees index room.now len) room.now len numbers.now }
    ensures answers_after { answers.new ≡ answers_after result room.now len numbers.now answers.old }
    ensures found_after { found.new ≡ places_after result room.now len numbers.now found.old }
{
    number_given(look_if(&index, &room[..], len, numbers, answers, found))
}

// The same where the index is a file. It answers a number and takes a room as C's call does: one promise is said of both.
pub fn look_filed(
    room: &[u8; LARGEST],
    len: usize,
    file: &[u8],
    numbers: &[u32],
    answers: &mut [u32; NUMBERS],
    found: &mut [u32; NUMBERS],
) -> u32
    ensures value { result ≡ look_refused (file_agrees file.now room.now len) room.now len numbers.now }
    ensures answers_after { answers.new ≡ answers_after result room.now len numbers.now answers.old }
    ensures found_after { found.new ≡ places_after result room.now len numbers.now found.old }
{
    number_given(look_if(&file, &room[..], len, numbers, answers, found))
}
