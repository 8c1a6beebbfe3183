// What depends on a journal's version.
ghost use Rattle.std.specs.Prelude.{◌≡◌, ◌≤◌};
ghost use Rattle.journal.specs.Layout.{device_bytes, devices_in};
ghost use Rattle.journal.specs.Header.{known};

use ledger::sizes::DEVICES;

// Whether there is such a version.
#[tactic(auto, unfolding(crate::specs::Header::known))]
pub fn known(version: u32) -> bool
    ensures { result ≡ known version }
{
    matches!(version, 1 | 2)
}

// How many bytes an event's device has.
#[tactic(auto, unfolding(crate::specs::Layout::device_bytes, ledger::specs::Choice::pick))]
pub fn device_bytes(version: u32) -> usize
    ensures { (result ≡ device_bytes version) × (result ≤ 2) }
{
    match version {
        1 => 1,
        _ => 2,
    }
}

// How many devices there were.
#[tactic(auto, unfolding(crate::specs::Layout::devices_in, ledger::specs::Choice::pick))]
pub fn devices_in(version: u32) -> usize
    ensures { result ≡ devices_in version }
{
    match version {
        1 => 16,
        _ => DEVICES,
    }
}
