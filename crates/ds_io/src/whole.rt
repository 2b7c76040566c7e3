//! A whole text at once: all that a source gives, and all that a sink is to take.
ghost use Rattle.std.specs.Prelude.{◌≡◌, ◌≢◌, ◌+◌, ◌<◌, ◌≤◌, ◌⊎◌, ◌↔◌, ℕ, [], IsTrue, length, vec_len, IfOk, IfSome};
ghost use Rattle.std.specs.Prelude.{IsErrOf, OnOk, OnErr};
ghost use Rattle.ds_io.specs.declared.whole.ReadAllFault.TheVariants.{Read, Memory};
ghost use Rattle.ds_io.specs.Counts.{Rose};
ghost use Rattle.ds_io.specs.Source.{GivesAll, HadMore, TookAtMost};
ghost use Rattle.ds_io.specs.Sink.{Takes, TakesFront};

use crate::traits::{Failed, Sink, Source};
use std::alloc::{AllocError, Global};
use std::marker::Model;
use thiserror::Error;

/// How many bytes are asked of a source at once, at most.
const PIECE: usize = 65536;

/// Bytes that were read. A contract sees the list of them.
#[derive(Debug, Drop)]
pub struct Bytes {
    items: Vec<u8>,
}

impl Model for Bytes {
    ghost use Rattle.std.specs.Prelude.{ℕ, List};

    ghost Value = { List ℕ };

    ghost view = { λ b. b.items.items };
}

impl Bytes {
    /// The bytes, in order.
    pub fn as_slice(&self) -> &[u8]
        ensures { result.now ≡ self.now }
    {
        self.items.as_slice()
    }

    /// How many bytes there are.
    pub fn len(&self) -> usize
        ensures { result ≡ length self.now }
    {
        self.items.len()
    }

    /// Whether there is no byte.
    pub fn is_empty(&self) -> bool
        ensures { IsTrue result ↔ (length self.now ≡ 0) }
    {
        self.items.is_empty()
    }
}

/// Why a source's bytes could not be read to their end.
#[derive(PartialEq, Eq, Debug, Drop, Error)]
pub enum ReadAllFault {
    /// The source failed, and counted it.
    #[error("reading failed")]
    Read,
    /// More bytes came than the limit allows.
    #[error("there are more bytes than the limit allows")]
    TooLong,
    /// No memory was left.
    #[error("out of memory")]
    Memory,
}

impl From<Failed> for ReadAllFault {
    ghost from_gives = { λ _ fault. fault ≡ Read };

    fn from(_: Failed) -> ReadAllFault {
        ReadAllFault::Read
    }
}

impl From<AllocError> for ReadAllFault {
    ghost from_gives = { λ _ fault. fault ≡ Memory };

    fn from(_: AllocError) -> ReadAllFault {
        ReadAllFault::Memory
    }
}

/// Reads a source to its end, in pieces. It takes at most `limit + 1` bytes, and keeps at most `limit`.
///
/// # Errors
///
/// `Read` where the source failed, `TooLong` exactly where more than `limit` bytes came, `Memory` where no
/// memory was left. Bytes that were taken before are lost.
pub fn read_all<S: Source>(
    alloc: Global,
    source: &mut S,
    limit: usize,
) -> Result<Bytes, ReadAllFault>
    ensures whole { IfOk result (λ bytes. GivesAll (S.left source.old) bytes (S.left source.new)) }
    ensures within { IfOk result (λ bytes. length bytes ≤ limit) }

    ensures failed { IsErrOf result ReadAllFault.Read → Rose (S.faults source.old) (S.faults source.new) }
    ensures too_long { IsErrOf result ReadAllFault.TooLong → HadMore limit (S.left source.old) (S.left source.new) }
    ensures long { IfSome (S.left source.old) (λ bytes. limit < length bytes →
        IsErrOf result ReadAllFault.TooLong ⊎ IsErrOf result ReadAllFault.Memory
        ⊎ (IsErrOf result ReadAllFault.Read × Rose (S.faults source.old) (S.faults source.new))) }

    ensures taken { TookAtMost (limit + 1) (S.left source.old) (S.left source.new) }
    ensures never_falls { S.faults source.old ≤ S.faults source.new }
{
    let mut buffer = zeroes(alloc, PIECE)?;
    let mut items = Vec::new(alloc);
    read_pieces(source, &mut buffer, &mut items, limit)?;
    Ok(Bytes { items })
}

/// A buffer of this many bytes.
fn zeroes(alloc: Global, count: usize) -> Result<Vec<u8>, AllocError>
    ensures { IfOk result (λ buffer. vec_len buffer ≡ count) }
{
    vec![in alloc; 0; count]
}

/// Appends all that a source gives, through a buffer of at least one byte.
fn read_pieces<S: Source>(
    source: &mut S,
    buffer: &mut [u8],
    items: &mut Vec<u8>,
    limit: usize,
) -> Result<(), ReadAllFault>
    requires some { 0 < length buffer.old }
    requires none_yet { items.old.items ≡ [] }
    ensures whole { OnOk result (GivesAll (S.left source.old) items.new.items (S.left source.new)) }
    ensures within { OnOk result (vec_len items.new ≤ limit) }
    ensures failed { IsErrOf result ReadAllFault.Read → Rose (S.faults source.old) (S.faults source.new) }
    ensures too_long { IsErrOf result ReadAllFault.TooLong → HadMore limit (S.left source.old) (S.left source.new) }
    ensures taken { TookAtMost (limit + 1) (S.left source.old) (S.left source.new) }
    ensures never_falls { S.faults source.old ≤ S.faults source.new }
{
    'pieces: loop {
        let room = limit - items.len();
        let asked = room.min(buffer.len() - 1) + 1;
        let count = source.read(&mut buffer[..asked])?;
        if count == 0 {
            return Ok(());
        }
        if count > room {
            return Err(ReadAllFault::TooLong);
        }
        items.extend_from_slice(&buffer[..count])?;
    }
}

/// Writes all the bytes, in pieces. It takes no memory.
///
/// # Errors
///
/// `Failed` where the sink failed. It has then taken a front of the bytes.
#[tactic(auto, using(crate::proofs::Taking::pieces_taken))]
pub fn write_all<K: Sink>(sink: &mut K, bytes: &[u8]) -> Result<(), Failed>
    ensures ok { OnOk result (Takes (K.taken sink.old) bytes.now (K.taken sink.new)) }
    ensures failed { OnErr result (Rose (K.faults sink.old) (K.faults sink.new)) }
    ensures front { TakesFront (K.taken sink.old) bytes.now (K.taken sink.new) }
    ensures never_falls { K.faults sink.old ≤ K.faults sink.new }
{
    let mut done = 0;
    'pieces: while done < bytes.len() {
        done += sink.write(&bytes[done..])?;
    }
    Ok(())
}
