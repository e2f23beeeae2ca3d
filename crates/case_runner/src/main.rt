//! `case_runner FILES [NAME]`: runs the cases in some files, or those alone that have a name, and says how many
//! passed and which did not. A word that ends in `.cases` is a file, and another one the name.
//!
//! A case is a run of edump's words over a dump in memory, and what it leaves: its status, and all bytes on its
//! output and its standard error. Its file has a line for each of these, which begins with a word or a sign:
//!
//! ```text
//! # a remark
//! case a list within its budget
//! words term F <0.1.0> 10 2
//! limit section 65
//! | =erl_crash_dump:0.5
//! | =end
//! taken 40
//! status 0
//! > [1|...]
//! ! an expected line of standard error
//! ```
//!
//! A line `word` adds the rest of its line as one more word, with the blanks in it.
//!
//! The dump is the file `F`. `heap 0.5` stands for its first three lines: that of this version, that of the process
//! `<0.1.0>`, and the header of its heap. In a line of the dump, or of what is expected, one letter may follow
//! the sign: with `-` the line lacks its LF, and `r` ends it with CR and LF; `h 1F 8B` stands for
//! these bytes, `x 4095` for that many letters `x`, and `k 3 TEXT` for the text that many times:
//! in a dump as lines, where `@0` stands for 16 times the line's number in hex and `@1` for 16
//! more, and in what is expected without LF. A case without a line of a dump runs on that of the
//! case before. `limit` lowers one limit, and `taken` is the most bytes that the device gives.
//! Of a case that doesn't pass, the first run that failed is shown beside what the case expects.
//!
//! Each case runs with reads and writes of several sizes, and must end alike. Then each call of
//! the device fails once, which must end with the status of a read fault and nothing written;
//! the first eight of them also fail when each read gives a single byte. And each write of a
//! single byte fails once, which must leave the bytes before it. With the line `once` a case
//! runs once, as it is, and with `cuts 36` also with reads of each size up to 35. With `fronts 19 936`
//! it runs once on each prefix of the dump from 19 to 935 bytes; where it expects the report of
//! `index` on the whole dump, it must write what that report says of the prefix.
#![tactic(auto)]

mod case;
mod fronts;
mod outcome;
mod passing;
mod script;
mod text;

use script::run_file;
use std::{env, fs, io};

fn main(rt: HostRuntime) -> io::Result<()> {
    let mut files: Vec<String> = Vec::new(rt.alloc());
    let mut name: Option<String> = None;
    for word in env::args(&rt)?.skip(1) {
        if word.as_str().ends_with(".cases") {
            files.push(word)?;
        } else {
            name = Some(word);
        }
    }
    let only = name.as_ref().map(|name| name.as_str());
    let mut passed = 0u64;
    for file in &files {
        let text = fs::read_to_string(&rt, file.as_str())?;
        passed = passed.saturating_add(run_file(&rt, text.as_str(), only)?);
    }
    println!(&rt; "{passed} cases passed")?;
    Ok(())
}
