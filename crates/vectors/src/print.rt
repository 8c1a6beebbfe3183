// Lines of text on standard output: a label, then what belongs to it in hexadecimal.
use std::io;

// A line of words, each after a space.
pub fn words(rt: &impl Print, label: &str, ws: &[u32]) -> io::Result<()> {
    print!(rt; "{label}")?;
    for w in ws {
        print!(rt; " {w:08x}")?;
    }
    println!(rt; "")
}

// A line of bytes, in one run.
pub fn bytes(rt: &impl Print, label: &str, bs: &[u8]) -> io::Result<()> {
    print!(rt; "{label}")?;
    for b in bs {
        print!(rt; "{b:02x}")?;
    }
    println!(rt; "")
}

// A line with one number.
pub fn number(rt: &impl Print, label: &str, x: u64) -> io::Result<()> {
    println!(rt; "{label}{x:x}")
}
