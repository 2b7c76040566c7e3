//! The program `dangsan`: calls [`dangsan_main`] on its words, its standard input and its standard output, and ends
//! with the status of that.
#![tactic(auto)]

use ds_io::{StdSink, StdSource};
use ds_main::{FreePace, dangsan_main};
use std::env;
use std::env::Env;
use std::process::ExitCode;

/// The status where the system gives the program no list of words. No call answers it.
const NO_WORDS: u8 = 10;

/// The words behind the program's name, or `None` where the system does not give them.
fn words_of(rt: &(impl Env + AllocGlobal)) -> Option<Vec<String>> {
    let mut words = Vec::new(rt.alloc());
    for word in env::args(rt).ok()?.skip(1) {
        words.push(word).ok()?;
    }
    Some(words)
}

fn main(rt: HostRuntime) -> ExitCode {
    let Some(words) = words_of(&rt) else {
        return ExitCode::from(NO_WORDS);
    };
    let mut source = StdSource::new(&rt);
    let mut sink = StdSink::new(&rt);
    let ended = dangsan_main(
        &rt,
        rt.alloc(),
        words.as_slice(),
        &mut source,
        &mut sink,
        &FreePace,
    );
    ExitCode::from(ended.status)
}
