//! Trying a case.
ghost use Rattle.std.specs.Prelude.{◌≡◌, ◌<◌, ◌↔◌, IsTrue};

use crate::case::Case;
use crate::error::CaseError;
use crate::settings::Settings;
use crate::tally::Tally;
use crate::text::push_with;
use ds_io::{MemSink, MemSource};
use ds_main::{FreePace, dangsan_main};
use std::alloc::{AllocError, Global};
use std::thread::Threads;

/// What stands in a case for each of its words.
const PLACE: &[u8] = b"WORD";

/// A text with a word wherever `WORD` stands in it.
fn with_word(alloc: Global, text: &[u8], word: &str) -> Result<Vec<u8>, AllocError> {
    let mut made = Vec::new(alloc);
    push_with(&mut made, text, PLACE, word.as_bytes())?;
    Ok(made)
}

/// The words that a text has, with blanks between them.
fn words_in(alloc: Global, text: &str) -> Result<Vec<String>, AllocError> {
    let mut words = Vec::new(alloc);
    for word in text.split_whitespace() {
        words.push(String::from_str(alloc, word)?)?;
    }
    Ok(words)
}

/// A whole call on an input: its status, and the sink that it wrote to.
fn call<R: Threads + Sync + AllocGlobal>(
    rt: &R,
    settings: &Settings<'_>,
    input: Vec<u8>,
) -> Result<(u8, MemSink), AllocError> {
    let alloc = rt.alloc();
    let words = words_in(alloc, settings.words)?;
    let most = settings.most.max(1);
    let mut source = MemSource::new(input, most, vec![in alloc; settings.fail_read]?);
    let mut sink = MemSink::new(
        alloc,
        settings.room,
        most,
        vec![in alloc; settings.fail_write]?,
    )?;
    let ended = dangsan_main(
        rt,
        alloc,
        words.as_slice(),
        &mut source,
        &mut sink,
        &FreePace,
    );
    Ok((ended.status, sink))
}

/// Whether a status and a text are those that are wanted.
fn is_wanted(status: u8, wanted_status: u8, text: &[u8], wanted_text: &[u8]) -> bool
    ensures { IsTrue result ↔ (status ≡ wanted_status) × (text.now ≡ wanted_text.now) }
{
    status == wanted_status && text == wanted_text
}

/// Prints a status and a text.
fn show<R: Print + AllocGlobal>(
    rt: &R,
    what: &str,
    status: u8,
    text: &[u8],
) -> Result<(), CaseError> {
    let text = String::from_utf8_lossy(rt.alloc(), text)?;
    println!(rt; "  {what} status {status} and\n{text}")?;
    Ok(())
}

/// Makes a call, and prints under a name how that went.
fn try_call<R: Threads + Sync + Print + AllocGlobal>(
    rt: &R,
    name: &str,
    settings: &Settings<'_>,
    input: Vec<u8>,
    wanted: &[u8],
) -> Result<bool, CaseError> {
    let (status, sink) = call(rt, settings, input)?;
    if is_wanted(status, settings.status, sink.taken(), wanted) {
        println!(rt; "{name}: ok")?;
        return Ok(true);
    }
    println!(rt; "{name}: failed")?;
    show(rt, "wanted", settings.status, wanted)?;
    show(rt, "got", status, sink.taken())?;
    Ok(false)
}

/// Makes the calls of a case, and prints and counts how they went.
pub fn try_case<R: Threads + Sync + Print + AllocGlobal>(
    rt: &R,
    case: &Case<'_>,
    tally: &mut Tally,
) -> Result<(), CaseError> {
    let alloc = rt.alloc();
    for word in &case.each {
        let name = format!(in alloc; "{} {word}", case.name)?;
        let input = with_word(alloc, case.input.as_slice(), word)?;
        let wanted = with_word(alloc, case.output.as_slice(), word)?;
        tally.count(try_call(rt, name.as_str(), &case.settings, input, wanted.as_slice())?);
    }
    if case.each.is_empty() {
        let input = Vec::from_slice(alloc, case.input.as_slice())?;
        tally.count(try_call(rt, case.name, &case.settings, input, case.output.as_slice())?);
    }
    Ok(())
}
