//! Tries the whole program on cases: reads the files `*.cases` of a folder, runs
//! [`dangsan_main`](ds_main::dangsan_main) on each case over memory, and prints `NAME: ok`, or what was wanted and
//! what came; then how many cases there were. Its words are the folder, at first the one that it runs in, and the
//! files to read, at first all. It ends with status 0 exactly where no case failed.
//!
//! # To add a case
//!
//! Add lines to a file in `data/`, as
//!
//! ```text
//! case a store through the null pointer
//! words check
//! < define void @main() { store i64 1, ptr null ret void }
//! > accepted: functions 1 instructions 2
//! ```
//!
//! and `NAME: ok` to the file `stdout`, in the order of the files' names. What is wanted comes from the rules of the
//! program, found by hand, never from what it printed. `rt try -- $PWD/data FILE..` in this crate runs the cases of
//! these files with no proof; once the crate is proved, `cd data && ../out/ds_cases` runs all in a second. Where none
//! failed, what that prints is the new `stdout`.
//!
//! # The format
//!
//! A line that is empty or begins with `#` says nothing. Each other line is one of these:
//!
//! | line | what it says |
//! |---|---|
//! | `case NAME` | a case begins; it ends with the next one, or with the file |
//! | `words WORD..` | the words behind the program's name, at first none |
//! | `status N` | the status that is wanted, at first 0 |
//! | `room N` | how many bytes the sink takes in all, at first 65536 |
//! | `most N` | how many bytes a read or a write moves at most, at first 4096; 0 is 1 |
//! | `fail_read N` | the read with this number, from 0 on, fails; at first none |
//! | `fail_write N` | the write with this number, from 0 on, fails; at first none |
//! | `each WORD..` | one call for each of these words, which stands wherever `WORD` is written; more lines add words |
//! | `< TEXT` | a line of the input: these bytes and a line feed |
//! | `<- TEXT` | these bytes of the input, with no line feed |
//! | `<x HH..` | bytes of the input, each by its hexadecimal digits |
//! | `<* N "TEXT"` | N times these bytes of the input |
//! | `<# N "TEXT"` | the same, with the number of each time, from 0 on, wherever `NUMBER` is written |
//! | `<@ FILE` | all bytes of a file of the folder |
//! | `>`, `>-`, `>x`, `>*`, `>#`, `>@` | the same for the output that is wanted |
//!
//! A setting before the first case of a file holds for each of its cases.
#![tactic(auto)]

mod case;
mod error;
mod files;
mod line;
mod piece;
mod script;
mod settings;
mod tally;
mod text;
mod trial;

use error::CaseError;
use files::read_text;
use script::read_cases;
use std::env::Env;
use std::process::ExitCode;
use std::rt::Files;
use std::thread::Threads;
use std::{env, fs};
use tally::Tally;
use trial::try_case;

/// The status where the cases could not be read.
const UNREADABLE: u8 = 2;

/// The words behind the program's name.
fn words_of(rt: &(impl Env + AllocGlobal)) -> Result<Vec<String>, CaseError> {
    let mut words = Vec::new(rt.alloc());
    for word in env::args(rt)?.skip(1) {
        words.push(word)?;
    }
    Ok(words)
}

/// The files of cases in a folder, in the order of their names.
fn files_in<R: Files + AllocGlobal + Clone + Drop>(
    rt: &R,
    folder: &str,
) -> Result<Vec<String>, CaseError> {
    let mut files = Vec::new(rt.alloc());
    for entry in fs::read_dir(rt, folder)? {
        let entry = entry?;
        let name = entry.file_name();
        if name.ends_with(".cases") {
            files.push(String::from_str(rt.alloc(), name)?)?;
        }
    }
    files.sort()?;
    Ok(files)
}

/// Tries the cases of these files of a folder, in order.
fn try_files<R: Files + Threads + Sync + Print + AllocGlobal>(
    rt: &R,
    folder: &str,
    files: &[String],
) -> Result<Tally, CaseError> {
    let mut tally = Tally::default();
    for file in files {
        let text = read_text(rt, folder, file.as_str())?;
        let cases = read_cases(rt, folder, file.as_str(), text.as_str())?;
        for case in &cases {
            try_case(rt, case, &mut tally)?;
        }
    }
    Ok(tally)
}

/// Tries all cases of a folder, or those of the files that are named behind it, and prints how many there were.
fn try_all<R: Files + Env + Threads + Sync + Print + AllocGlobal + Clone + Drop>(
    rt: &R,
) -> Result<Tally, CaseError> {
    let words = words_of(rt)?;
    let tally = match words.as_slice() {
        [] => try_files(rt, ".", files_in(rt, ".")?.as_slice())?,
        [folder] => try_files(
            rt,
            folder.as_str(),
            files_in(rt, folder.as_str())?.as_slice(),
        )?,
        [folder, files @ ..] => try_files(rt, folder.as_str(), files)?,
    };
    println!(rt; "{} cases, {} failed", tally.cases, tally.failed)?;
    Ok(tally)
}

fn main(rt: HostRuntime) -> ExitCode {
    match try_all(&rt) {
        Ok(tally) => ExitCode::from(tally.status()),
        Err(error) => {
            let _ = eprintln!(rt; "{error}");
            ExitCode::from(UNREADABLE)
        }
    }
}
