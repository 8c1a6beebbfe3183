// A journal judged as a whole, without running it.
ghost use Rattle.std.specs.Prelude.{◌≡◌};
ghost use Rattle.ledger.specs.Refusals.{number_given};
ghost use Rattle.journal.specs.Walking.{ending_of};

use crate::heading::header;
use crate::records::read;
use ledger::Refusal;

// Whether the journal's last record is whole; if not, why the journal ends where it does.
pub fn scan(j: &[u8]) -> Result<(), Refusal>
    ensures { number_given result ≡ ending_of j.now }
{
    let h = header(j)?;
    let mut at = h.place;
    while let Some((_, next)) = read(h.version, j, at)? {
        at = next;
    }
    Ok(())
}
