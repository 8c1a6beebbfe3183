// The published vectors, computed by the proved code and printed; the file `stdout` beside src/ has what the documents say, and a
// check holds the one to the other. A line opens with the document and the place in it.
#![tactic(auto)]

mod chacha_vectors;
mod print;
mod sha1_vectors;
mod word_vectors;

use std::io;

fn main(rt: HostRuntime) -> io::Result<()> {
    word_vectors::run(&rt)?;
    chacha_vectors::run(&rt)?;
    sha1_vectors::run(&rt)
}
