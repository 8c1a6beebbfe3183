// The class of a number.
ghost use Rattle.std.specs.Prelude.{◌≡◌};
ghost use Rattle.issuing.specs.Classes.{byte_of, Names};

use desk::{DRILL, LIVE};
use ledger::Refusal;

#[derive(Clone, Copy, Debug, PartialEq, Eq)]
pub enum Class {
    Drill,
    Live,
}

impl Class {
    // The byte that the class's numbers begin with.
    pub fn byte(self) -> u8
        ensures { result ≡ byte_of self }
    {
        match self {
            Class::Drill => DRILL,
            Class::Live => LIVE,
        }
    }
}

// The class that a class field names: it has one byte.
impl TryFrom<&[u8]> for Class {
    type Error = Refusal;

    ghost try_from_gives = { λ field result. Names field.now result };

    fn try_from(field: &[u8]) -> Result<Class, Refusal> {
        match field {
            [DRILL] => Ok(Class::Drill),
            [LIVE] => Ok(Class::Live),
            _ => Err(Refusal::NoSuchClass),
        }
    }
}
