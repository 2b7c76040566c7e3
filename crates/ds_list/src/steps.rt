//! The rows of a thread that looks for its log as code: the operation of each position, what its answer means, and
//! what comes next.

ghost use Rattle.std.specs.Prelude.{◌≡◌, ℕ, ◌+◌, ◌*◌, ◌<◌};
ghost use Rattle.ds_map.specs.Bounds.{Bounds};
ghost use Rattle.ds_map.specs.Words.{words};
ghost use Rattle.ds_plain.specs.Listing.{home_word, header_word, list_op, list_row, list_event, list_next};
ghost use Rattle.ds_plain.specs.Listing.{home_seen, behind_home_load, log_drawn, behind_log_draw};
ghost use Rattle.ds_plain.specs.Listing.{header_seen, header_loaded, behind_header_load, IsLife, IsListAt};
ghost use Rattle.ds_plain.specs.Operations.{load_of, store_of};
ghost use Rattle.ds_list.specs.Walks.{next_in, IsNext};

use crate::outcome::ListStep;
use crate::seen::{HeaderWord, HomeWord, header_seen, home_seen};
use ds_entry::header_word;
use ds_map::Limits;
use ds_plain::ListAt;
use ds_step::{Event, FullWhat, OpKind, WordOp};

/// The word that counts the logs that were drawn.
const LOGS_WORD: u32 = 3;

/// The number of the table's words before those of the pages.
const CONTROL_WORDS: u32 = 384;

/// The number of the table's words for each page before the home words: a page word and 256 block words.
const WORDS_BEFORE_HOMES: u32 = 1 + 256;

/// The number of the table's words for each page before those of the logs: the home words of 256 places come too.
const WORDS_BEFORE_LOGS: u32 = WORDS_BEFORE_HOMES + 4096;

/// The number of the table's words for each log, and of the home words for each place.
const GROUP_WORDS: u32 = 16;

// OPERATIONS AND ROWS

/// A load of a word of the table.
fn load(word: u32) -> WordOp
    ensures { result ≡ load_of word }
{
    WordOp {
        kind: OpKind::Load,
        word,
        a: 0,
        b: 0,
    }
}

/// A store of a value to a word of the table.
fn store(word: u32, value: u64) -> WordOp
    ensures { result ≡ store_of word value }
{
    WordOp {
        kind: OpKind::Store,
        word,
        a: value,
        b: 0,
    }
}

/// The table's home word of a thread and a place.
fn home_word_at(limits: &Limits, thread: u8, place: u32) -> u32
    requires thread { thread < 16 }
    requires place { place < 256 * limits.now.pages }
    ensures word { result ≡ home_word limits.now thread place }
    ensures below { result < words limits.now }
{
    let first = CONTROL_WORDS + WORDS_BEFORE_HOMES * limits.pages();
    first + GROUP_WORDS * place + u32::from(thread)
}

/// The table's word of the header of a log.
fn header_word_at(limits: &Limits, log: u32) -> u32
    requires { log < limits.now.logs }
    ensures word { result ≡ header_word limits.now log }
    ensures below { result < words limits.now }
{
    CONTROL_WORDS + WORDS_BEFORE_LOGS * limits.pages() + GROUP_WORDS * log
}

/// The operation that a thread makes at a position.
pub(crate) fn op_of(limits: &Limits, thread: u8, at: ListAt) -> WordOp
    requires thread { thread < 16 }
    requires at { IsListAt limits.now at }
    ensures op { result ≡ list_op limits.now thread at }
    ensures word { result.word < words limits.now }
{
    let _pages = limits.pages();
    match at {
        ListAt::LoadHome { place, life: _ } => load(home_word_at(limits, thread, place)),
        ListAt::DrawLog { place: _, life: _ } => WordOp {
            kind: OpKind::Add,
            word: LOGS_WORD,
            a: 1,
            b: 0,
        },
        ListAt::StoreHeader {
            place: _,
            life,
            log,
        } => store(header_word_at(limits, log), header_word(life, 0, 0)),
        ListAt::StoreHome {
            place,
            life: _,
            log,
        } => store(home_word_at(limits, thread, place), u64::from(log) + 1),
        ListAt::LoadHeader {
            place: _,
            life: _,
            log,
        } => load(header_word_at(limits, log)),
    }
}

/// The number of the row that a thread makes at a position.
pub(crate) fn row_of(at: ListAt) -> u8
    ensures { result ≡ list_row at }
{
    match at {
        ListAt::LoadHome { place: _, life: _ } => 26,
        ListAt::DrawLog { place: _, life: _ } => 27,
        ListAt::StoreHeader {
            place: _,
            life: _,
            log: _,
        } => 28,
        ListAt::StoreHome {
            place: _,
            life: _,
            log: _,
        } => 29,
        ListAt::LoadHeader {
            place: _,
            life: _,
            log: _,
        } => 30,
    }
}

// WHAT ITS ANSWERS MEAN, AND WHAT COMES NEXT

/// What comes of a thread that loaded its home word.
fn behind_home_load(limits: &Limits, place: u32, life: u32, old: u64) -> ListStep
    requires { IsLife limits.now place life }
    ensures next { next_in result ≡ behind_home_load place life (home_seen limits.now old) }
    ensures stands { IsNext limits.now (next_in result) }
{
    match home_seen(limits, old) {
        HomeWord::NoHome => ListStep::ListsOn(ListAt::DrawLog { place, life }),
        HomeWord::HomeOf(log) => ListStep::ListsOn(ListAt::LoadHeader { place, life, log }),
        HomeWord::NoHomeWord => ListStep::ListsOn(ListAt::LoadHome { place, life }),
    }
}

/// What the count of the logs means to a thread that draws one, and what comes next.
fn log_drawn(limits: &Limits, place: u32, life: u32, old: u64) -> (Event, ListStep)
    requires { IsLife limits.now place life }
    ensures event { result.0 ≡ log_drawn limits.now old }
    ensures next { next_in result.1 ≡ behind_log_draw limits.now place life old }
    ensures stands { IsNext limits.now (next_in result.1) }
{
    if old >= u64::from(limits.logs()) {
        let what = FullWhat::Logs;
        return (Event::Full { what }, ListStep::FailsList(what));
    }
    let log = old as u32;
    (
        Event::Log,
        ListStep::ListsOn(ListAt::StoreHeader { place, life, log }),
    )
}

/// What the header means to a thread that loaded it, and what comes next.
fn header_loaded(place: u32, life: u32, log: u32, old: u64) -> (Event, ListStep)
    ensures event { result.0 ≡ header_loaded (header_seen life old) }
    ensures next { next_in result.1 ≡ behind_header_load place life log old (header_seen life old) }
    ensures stands { (lim : Bounds) → IsLife lim place life → log < lim.logs → IsNext lim (next_in result.1) }
{
    match header_seen(life, old) {
        HeaderWord::HasRoom => (Event::Log, ListStep::Owns { log, header: old }),
        HeaderWord::HasNoRoom => {
            let what = FullWhat::Hash;
            (Event::Full { what }, ListStep::FailsList(what))
        }
        HeaderWord::OfOther => (Event::Log, ListStep::Owns { log, header: old }),
        HeaderWord::NoHeader => (
            Event::Log,
            ListStep::ListsOn(ListAt::LoadHeader { place, life, log }),
        ),
    }
}

/// What the answer means to a thread at a position, and what comes next.
pub(crate) fn step_of(limits: &Limits, at: ListAt, old: u64) -> (Event, ListStep)
    requires { IsListAt limits.now at }
    ensures event { result.0 ≡ list_event limits.now at old }
    ensures next { next_in result.1 ≡ list_next limits.now at old }
    ensures stands { IsNext limits.now (next_in result.1) }
{
    match at {
        ListAt::LoadHome { place, life } => {
            (Event::Log, behind_home_load(limits, place, life, old))
        }
        ListAt::DrawLog { place, life } => log_drawn(limits, place, life, old),
        ListAt::StoreHeader { place, life, log } => (
            Event::Log,
            ListStep::ListsOn(ListAt::StoreHome { place, life, log }),
        ),
        ListAt::StoreHome {
            place: _,
            life,
            log,
        } => {
            let header = header_word(life, 0, 0);
            (Event::Log, ListStep::Owns { log, header })
        }
        ListAt::LoadHeader { place, life, log } => header_loaded(place, life, log, old),
    }
}
