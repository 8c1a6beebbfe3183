// What is said to a person: what the program can do, and that a word is none of its own.
use lab::{StandardError, Status, Told, complain, write};

// What the program can do, line by line, but for the last line.
const HELP: [&[u8]; 23] = [
    b"nk: journals of the noise keeper, replayed, indexed, written on, looked up in and converted, and\nmessage numbers issued to the keepers that they leave\n\n",
    b"    nk replay JOURNAL..            write the transcript of each journal to standard output\n",
    b"    nk index JOURNAL INDEX         write the index of a journal to the file INDEX, and print its sums\n",
    b"    nk append JOURNAL INDEX MORE   append the records in the file MORE to a journal, and to its index\n",
    b"    nk look JOURNAL INDEX N..      print records by their numbers, up to 64, counted from 0\n",
    b"    nk convert JOURNAL OUT         write a journal of version 1 as version 2 to the file OUT\n",
    b"    nk issue JOURNAL CLOCK CLASS.. replay a journal, and issue a message number for each class\n",
    b"    nk --help                      say this\n\n",
    b"A line of a transcript is a record's answer, bytes delivered, input count, blocking count,\n",
    b"ChaCha20 blocks, compressions and what its credit added, in eighths of a bit; then the bytes in\n",
    b"hexadecimal. A line of `look` is the number, 0, the byte place, the kind and the fields of the\n",
    b"record, then its bytes in hexadecimal; or the number and 18, past the last record.\n\n",
    b"A CLASS is asked for by name, `drill` or `live`, or by the bytes of its field in hexadecimal, `''`\n",
    b"where there are none. All numbers are issued at the CLOCK, 0 to 4294967295. A line of `issue` is the\n",
    b"answer, ChaCha20 blocks, compressions and the 16 bytes in hexadecimal. The answer is 0, or there is no\n",
    b"number and the bytes are zeros: 2 not seeded, 13 no such class, 14 all four draws were numbers issued\n",
    b"before. These are answers: the last line is still `end 0`.\n\n",
    b"The last line is `end 0`, or `end` and what was wrong: 3 a length over 4,096 (of a write or a seed) or\n",
    b"a 65th record number, 4 a device over 15 (convert), 8 not a journal, 9 a version other than 1 and 2\n",
    b"(convert: other than 1), 10 cut short, 11 an unknown kind of record, 12 more than 61,440 bytes (convert:\n",
    b"in the outcome too), 16 an index that is not the journal's. Then no file was touched. A file is written\n",
    b"beside its place, with .new behind its name, and renamed: a crash leaves the old one or the new.\n\n",
    b"Exit status of ./nk: 0 where it ended with 0, 1 where a journal ended with another number, 2\n",
];

const LAST: &[u8] =
    b"where a file could not be read or written, or the words make no sense; the worst of all files counts.\n";

// Says what the program can do, and answers the status of saying it: an output that took nothing is told of at the last line.
pub fn help(rt: &(impl Print + StandardError)) -> Result<Status, Told> {
    for line in HELP {
        let _ = rt.write_all(line);
    }
    write(rt, LAST)?;
    Ok(Status::Good)
}

pub fn no_file(rt: &impl StandardError) -> Told {
    complain(
        rt,
        &[b"nk: replay wants the name of a journal; nk --help says what there is\n"],
    )
}

pub fn unknown_word(rt: &impl StandardError, word: &[u8]) -> Told {
    complain(
        rt,
        &[
            b"nk: '",
            word,
            b"' is no command; nk --help says what there is\n",
        ],
    )
}
