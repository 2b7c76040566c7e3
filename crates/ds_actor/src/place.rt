//! The position of a thread by what it wants.

ghost use Rattle.std.specs.Prelude.{◌≡◌, ◌<◌, nat_lt, if◌then◌else◌, IfSome};
ghost use Rattle.ds_map.specs.Regions.{heap, lies_in};
ghost use Rattle.ds_plain.specs.declared.Stop.TheVariants.{Fuel};
ghost use Rattle.ds_plain.specs.declared.Position.TheVariants.{StoreEnded};
ghost use Rattle.ds_plain.specs.Parts.{is_whole};
ghost use Rattle.ds_plain.specs.Accessing.{changing_at};
ghost use Rattle.ds_plain.specs.Noting.{is_notable};
ghost use Rattle.ds_plain.specs.Freeing.{is_freeable};
ghost use Rattle.ds_plain.specs.Searching.{search_from};
ghost use Rattle.ds_plain.specs.Table.{position_of, looking_for, noting_at, freeing_at, end_by};
ghost use Rattle.ds_actor.specs.Actors.{stands_at, wanted_position};

use crate::cursors::Cursors;
use ds_class::class_of;
use ds_frame::{Thread, Want};
use ds_map::Limits;
use ds_plain::{
    Access, AccessAt, AllocAt, Change, FreeAt, JoinAt, NoteAt, Position, Request, Search, SpawnAt,
    StartAt, Stop,
};

/// The address of the heap's first byte.
const HEAP_START: u64 = 0x100_0000;

/// The number of bytes of a page.
const PAGE_BYTES: u64 = 4096;

/// The location of the heap's first word.
const HEAP_LOCATION: u32 = 69_632;

/// The number of words of a page.
const PAGE_WORDS: u32 = 512;

/// The number of places of a page.
const PAGE_PLACES: u32 = 256;

/// Whether an access is of a whole word.
fn is_whole(access: Access) -> bool
    ensures { result ≡ is_whole access }
{
    access.shift == 0 && access.bits == 64
}

/// Where a change of a word begins: at this position where it is one of the whole word, and else with a load.
fn changing_at(access: Access, whole: AccessAt, change: Change) -> AccessAt
    ensures { result ≡ changing_at access whole change }
{
    if is_whole(access) {
        whole
    } else {
        AccessAt::LoadPart { access, change }
    }
}

/// How a thread begins to look for a block of a size class, from this place on.
fn search_from(class: u8, first: u32) -> Search
    ensures { result ≡ search_from class first }
{
    Search {
        class,
        first,
        passed: 0,
        again: first % PAGE_PLACES != 0,
    }
}

/// The position of a thread that asks for a block of a size class.
fn looking_for(cursors: &Cursors, class: Option<u8>) -> Position
    requires { IfSome class (λ c. c < 15) }
    ensures { result ≡ looking_for cursors.now class }
{
    match class {
        None => Position::NoRow,
        Some(class) => Position::Malloc(AllocAt::LoadPage {
            search: search_from(class, cursors.at(class)),
        }),
    }
}

/// Whether an address lies in the heap.
fn lies_in_heap(limits: &Limits, address: u64) -> bool
    ensures { result ≡ lies_in (heap limits.now) address }
{
    address >= HEAP_START && address < HEAP_START + PAGE_BYTES * u64::from(limits.pages())
}

/// Whether a note can be asked for a value at a location: the location is one of program memory, and the value lies in
/// the heap.
fn is_notable(limits: &Limits, loc: u32, value: u64) -> bool
    ensures { result ≡ is_notable limits.now loc value }
{
    loc < HEAP_LOCATION + PAGE_WORDS * limits.pages() && lies_in_heap(limits, value)
}

/// The position of a thread that asks to note a value at a location.
fn noting_at(limits: &Limits, loc: u32, value: u64) -> Position
    ensures { result ≡ noting_at limits.now loc value }
{
    if is_notable(limits, loc, value) {
        Position::Note(NoteAt::LoadPage { loc, value })
    } else {
        Position::NoRow
    }
}

/// Whether a free can be asked for an address: it lies in the heap and is a multiple of 8.
fn is_freeable(limits: &Limits, address: u64) -> bool
    ensures { result ≡ is_freeable limits.now address }
{
    lies_in_heap(limits, address) && address % 8 == 0
}

/// The position of a thread that asks to free an address.
fn freeing_at(limits: &Limits, address: u64) -> Position
    ensures { result ≡ freeing_at limits.now address }
{
    if is_freeable(limits, address) {
        Position::Free(FreeAt::LoadPage { address })
    } else {
        Position::NoRow
    }
}

/// The position of a thread that asks for a stop.
fn end_by(stop: Stop) -> Position
    ensures { result ≡ end_by stop }
{
    match stop {
        Stop::Idle => Position::NoRow,
        Stop::Running => Position::NoRow,
        Stop::Returned(_) => Position::StoreEnded { stop },
        Stop::Trap(_) => Position::StoreEnded { stop },
        Stop::Full(_, _) => Position::NoRow,
        Stop::Fuel => Position::NoRow,
    }
}

/// The first position of a request.
fn position_of(limits: &Limits, cursors: &Cursors, request: Request) -> Position
    ensures { result ≡ position_of limits.now cursors.now request }
{
    match request {
        Request::Load(access) => Position::Access(AccessAt::LoadWord { loc: access.loc }),
        Request::Store(access, value) => {
            let loc = access.loc;
            let whole = AccessAt::StoreWord { loc, value };
            Position::Access(changing_at(access, whole, Change::Put(value)))
        }
        Request::Rmw(access, op, value) => {
            let loc = access.loc;
            let whole = AccessAt::CombineWord { loc, op, value };
            Position::Access(changing_at(access, whole, Change::Combine(op, value)))
        }
        Request::Cas {
            access,
            expected,
            new,
        } => {
            let loc = access.loc;
            let whole = AccessAt::ReplaceWord { loc, expected, new };
            Position::Access(changing_at(access, whole, Change::Replace { expected, new }))
        }
        Request::Malloc(bytes) => looking_for(cursors, class_of(bytes)),
        Request::Free(address) => freeing_at(limits, address),
        Request::Note { loc, value } => noting_at(limits, loc, value),
        Request::Print(value) => Position::DrawPrint { value },
        Request::Spawn { loc, function, arg } => {
            Position::Spawn(SpawnAt::DrawThread { loc, function, arg })
        }
        Request::Join(number) => Position::Join(JoinAt::LoadGiven { number }),
        Request::Stop(stop) => end_by(stop),
    }
}

/// Where a thread comes that wants this.
fn wanted_position(limits: &Limits, cursors: &Cursors, want: Want) -> Position
    ensures { result ≡ wanted_position limits.now cursors.now want }
{
    match want {
        Want::Begin => Position::Start(StartAt::LoadStart),
        Want::Asks(request) => position_of(limits, cursors, request),
    }
}

/// A position where the fuel pays for the step there, and else the last step.
fn paid(limits: &Limits, units: u32, position: Position) -> Position
    ensures { result ≡ (if nat_lt units limits.now.fuel then position else StoreEnded Fuel) }
{
    if units < limits.fuel() {
        position
    } else {
        Position::StoreEnded { stop: Stop::Fuel }
    }
}

/// The position of a thread that has spent these units and comes to this one.
pub(crate) fn stands_at(limits: &Limits, units: u32, position: Position) -> Position
    ensures { result ≡ stands_at limits.now units position }
{
    match position {
        Position::Start(_) => paid(limits, units, position),
        Position::Access(_) => paid(limits, units, position),
        Position::Malloc(_) => paid(limits, units, position),
        Position::Note(_) => paid(limits, units, position),
        Position::Free(_) => paid(limits, units, position),
        Position::Spawn(_) => paid(limits, units, position),
        Position::Join(_) => paid(limits, units, position),
        Position::DrawPrint { value: _ } => paid(limits, units, position),
        Position::StoreEnded { stop: _ } => position,
        Position::Over { stop: _ } => position,
        Position::NoRow => paid(limits, units, position),
    }
}

/// The position of a thread by what it wants and has spent.
pub(crate) fn position_by(limits: &Limits, cursors: &Cursors, thread: &Thread) -> Position
    ensures { result ≡ stands_at limits.now thread.now.units
        (wanted_position limits.now cursors.now thread.now.want) }
{
    stands_at(
        limits,
        thread.units(),
        wanted_position(limits, cursors, thread.want()),
    )
}
