// The program nk: journals replayed, indexed, written on and looked up in, message numbers issued behind them, what goes wrong on standard error.
//
// `arguments` does what the program's words ask, `replaying` runs a journal and writes its transcript a room at a time, `batches` fills the
// room, `message_numbers` has the word `issue`, `messages` has the help. The other words, and the files, are in the crate `lab`.
//
// No contract can say what is read or written. So the bytes of a transcript go out by one function, `replaying::hand_over`, whose contract
// says which they are: the text of the journal that comes next, by a count that this function moves. proofs/Texts.antt shows that the texts
// of a journal, one behind another, are its transcript; and where standard output took all that it was handed, it was handed all of them,
// each once and in order. What is left to the eye: that `hand_over` writes what it is handed, and that nothing else in `replaying` writes
// or counts.
#![tactic(auto)]

mod arguments;
mod batches;
mod message_numbers;
mod messages;
mod replaying;

fn main(rt: HostRuntime) {
    arguments::obey(&rt);
}
