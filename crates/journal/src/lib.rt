// The journal: what stands at a position of it, the bytes that a record carries, what its header says, and the number that it ends with.
// `versions` has what depends on the version, `fields` reads numbers out of bytes, `records` the six kinds; `part` has what hands on a
// record's bytes, `heading` and `ending` what judges the journal. `writing` goes the other way: it lays a header and records into a room.
//
// Each exported function that reads takes any bytes and any position, and its contract is one equation with a definition of specs/. Nothing is
// made up: where a byte is missing there is no record, but an error that says so. A record's bytes are handed on as a part of the
// journal itself. Which records a journal keeps that is cut anywhere, and with which number it then ends, is proved in
// proofs/CutJournals.antt; that a journal goes on where it ended, in proofs/Appended.antt; that what is written in the layout of specs/ is
// read back, in proofs/Written.antt, and of a whole journal in proofs/WholeJournals.antt. What writes asks for a room that is long enough, and
// moves no other byte of it.
#![tactic(auto)]

pub mod ending;
mod fields;
pub mod heading;
pub mod part;
pub mod records;
pub mod versions;
pub mod writing;

pub use ending::scan;
pub use heading::{Heading, LARGEST, RECORDS_BEGIN, header, version};
pub use part::payload;
pub use records::{Record, read};
pub use versions::devices_in;
pub use writing::{put, put_header};
