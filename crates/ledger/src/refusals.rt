// Why something is refused, one name for each reason, and the number that is given back for it: `specs/Refusals.antt` has the same table.
ghost use Rattle.std.specs.Prelude.{◌≡◌};
ghost use Rattle.ledger.specs.Refusals.{number_of, number_given};

// The numbers are the paper's. 15 is none of them.
#[derive(Clone, Copy, Debug, PartialEq, Eq)]
pub enum Refusal {
    WouldBlock = 1,
    Unseeded = 2,
    TooLong = 3,
    NoSuchDevice = 4,
    CreditTooHigh = 5,
    StartNot48 = 6,
    Repeated = 7,
    // Those that end a journal.
    MarkWrong = 8,
    VersionWrong = 9,
    CutShort = 10,
    UnknownKind = 11,
    JournalTooLarge = 12,
    // A class field that is neither drill's nor live's.
    NoSuchClass = 13,
    // A message number whose draws all were remembered.
    AllRepeated = 14,
    // An index that is not its journal's.
    IndexDiffers = 16,
    // A keeper's record that is out of range.
    OutOfRange = 17,
    // A record number past a journal's last record.
    NoSuchRecord = 18,
    // A room that is shorter than what is to be written into it.
    RoomTooShort = 19,
}

impl Refusal {
    // The number that is given back for it.
    pub fn number(self) -> u32
        ensures { result ≡ number_of self }
    {
        self as u32
    }
}

// The number that is given back: 0 where nothing was refused.
pub fn number_given(outcome: Result<(), Refusal>) -> u32
    ensures { result ≡ number_given outcome }
{
    match outcome {
        Ok(()) => DONE,
        Err(why) => why.number(),
    }
}

// Nothing was refused.
pub const DONE: u32 = 0;
