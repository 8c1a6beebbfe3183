// The transcript: the text that a replay writes, a line for each record and a last line that says how it ended.
//
// A line has the answer, the bytes delivered, the input count, the blocking count, the ChaCha20 blocks, the compressions and the units
// that were added, in decimal with single spaces between them; where bytes are given, a space and the bytes in lowercase hexadecimal; a
// newline. The last line is `end`, a space, a number and a newline.
//
// Each contract of `lines` is one equation with specs/Lines.antt, for all numbers, all bytes and every room: which bytes are written at the
// room's start, that all others stay, and how many were written. A line of n bytes asks for a room of 78 + 2 * n, which is seven numbers of
// ten digits, six spaces between them, one before the bytes, two digits for each byte and the newline; the last line asks for 15. A room
// that is shorter is left as it was, and the answer is 0. `LONGEST_LINE` is enough for the most bytes that a record delivers.
//
// `text` has a text that grows in a room, by numbers, bytes and letters, for other texts too: its contracts say with specs/Writing.antt
// which piece is added. `lines` has the two kinds of lines.
#![tactic(auto)]

pub mod lines;
pub mod text;

pub use lines::{LONGEST_END, LONGEST_LINE, ending, line};
