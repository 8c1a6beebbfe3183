// The header: the mark `NKJ`, the version and the start bytes.
ghost use Rattle.std.specs.Prelude.{◌≡◌, length};
ghost use Rattle.ledger.specs.Refusals.{number_given};
ghost use Rattle.journal.specs.Found.{headed};
ghost use Rattle.journal.specs.Header.{version_of, refusal_within, header_of};

use crate::fields::two;
use crate::versions::known;
use ledger::Refusal;
use ledger::sizes::START_BYTES;

// The most bytes of a journal.
pub const LARGEST: usize = 61440;

// Where the records begin: behind the mark, the version and the start bytes.
pub const RECORDS_BEGIN: usize = 5 + START_BYTES;

// What a good header says.
#[derive(Clone, Copy)]
pub struct Heading {
    pub version: u32,
    pub place: usize,
}

// The first test that fails, if one does.
fn refused(j: &[u8]) -> Result<(), Refusal>
    ensures { number_given result ≡ refusal_within (length j.now) j.now }
{
    if j.len() > LARGEST {
        return Err(Refusal::JournalTooLarge);
    }
    if !j.starts_with(b"NKJ") {
        return Err(Refusal::MarkWrong);
    }
    if j.len() < 5 {
        return Err(Refusal::CutShort);
    }
    if !known(u32::from(two(j, 3))) {
        return Err(Refusal::VersionWrong);
    }
    if j.len() < RECORDS_BEGIN {
        return Err(Refusal::CutShort);
    }
    Ok(())
}

// The version, and where the records begin.
pub fn header(j: &[u8]) -> Result<Heading, Refusal>
    ensures { headed result ≡ header_of j.now }
{
    refused(j)?;
    Ok(Heading {
        version: u32::from(two(j, 3)),
        place: RECORDS_BEGIN,
    })
}

// The version that a journal's records are read in: 0 where its header is not good.
pub fn version(j: &[u8]) -> u32
    ensures { result ≡ version_of j.now }
{
    header(j).map_or(0, |h| h.version)
}
