// A source read to its end, and a piece written whole.
ghost use Rattle.std.specs.{Prelude.{◌≡◌, ◌⊎◌, ℕ, ◌+◌, ◌^◌, ◌≤◌, ◌<◌, length, IfOk, OnOk, OnErr, IsErrOf}, Io.KnownBytes.{Appends, Consumes, IsAtEnd}};
ghost use Rattle.swreq_text.specs.{Faults.{HasRisen}, declared.whole.ReadErr.TheVariants.{Fault, Memory}, Given.{AppendsPart, GivesCount, HasGiven}};

use crate::{IoFailed, Sink, Source};
use std::alloc::{AllocError, Global};

/// Why a source was not read to its end.
#[derive(Clone, Copy, Debug, PartialEq, Eq)]
pub enum ReadErr {
    /// More bytes came than the limit allows.
    TooLarge,
    /// A read failed.
    Fault,
    /// There was no memory for the bytes.
    Memory,
}

impl From<AllocError> for ReadErr {
    ghost from_gives = { λ _ e. e ≡ Memory };

    fn from(_: AllocError) -> Self {
        ReadErr::Memory
    }
}

impl From<IoFailed> for ReadErr {
    ghost from_gives = { λ _ e. e ≡ Fault };

    fn from(_: IoFailed) -> Self {
        ReadErr::Fault
    }
}

/// A write failed before all was taken.
#[derive(Clone, Copy, Debug, PartialEq, Eq)]
pub struct WriteFault;

impl From<IoFailed> for WriteFault {
    fn from(_: IoFailed) -> Self {
        WriteFault
    }
}

/// How many bytes are asked for at once.
const CHUNK: usize = 4096;

/// All that the source has left, which may be at most `limit` bytes.
///
/// Of a longer one `limit + 1` bytes are taken, and the answer is `TooLarge`. `Fault` comes only where the source
/// counted one, and where none was counted the count is as before. In each case at most `limit + 1` bytes are taken from the source, the
/// next ones that it had.
pub fn read_all<S: Source>(alloc: Global, src: &mut S, limit: u32) -> Result<Vec<u8>, ReadErr>
    requires { limit + 1 < 2 ^ 32 }
    ensures all { IfOk result (λ bytes. Consumes (S.left src.old) (S.left src.new) bytes.items) }
    ensures end { OnOk result (IsAtEnd (S.left src.new)) }
    ensures within { IfOk result (λ bytes. length bytes.items ≤ limit) }

    // `TooLarge` if and only if `limit + 1` bytes came, unless memory runs out.
    ensures too_large { IsErrOf result ReadErr.TooLarge →
        GivesCount (S.left src.old) (S.left src.new) (limit + 1) }
    ensures exactly { HasGiven (S.left src.old) (S.left src.new) (limit + 1) →
        IsErrOf result ReadErr.TooLarge ⊎ IsErrOf result ReadErr.Memory }
    ensures fault { IsErrOf result ReadErr.Fault → HasRisen (S.faults src.old) (S.faults src.new) }
    ensures uncounted { IsErrOf result ReadErr.Fault ⊎ (S.faults src.new ≡ S.faults src.old) }

    // What is left, in every case.
    ensures rest { (n : ℕ) × (n ≤ limit + 1) × GivesCount (S.left src.old) (S.left src.new) n }
    ensures steady { S.faults src.old ≤ S.faults src.new }
{
    let most = limit as usize + 1;
    let mut bytes = Vec::new(alloc);
    let mut buf = [0u8; CHUNK];
    while bytes.len() < most {
        let want = (most - bytes.len()).min(CHUNK);
        let n = src.read(&mut buf[..want])?;
        if n == 0 {
            return Ok(bytes);
        }
        bytes.extend_from_slice(&buf[..n])?;
    }
    Err(ReadErr::TooLarge)
}

/// Writes all of the bytes, or as many as the sink takes before a write fails.
///
/// `WriteFault` comes only where the sink counted a fault, and then not all was taken.
pub fn write_all<K: Sink>(out: &mut K, bytes: &[u8]) -> Result<(), WriteFault>
    ensures all { OnOk result (Appends (K.taken out.old) (K.taken out.new) bytes.now) }
    ensures part { OnErr result (AppendsPart (K.taken out.old) (K.taken out.new) bytes.now) }
    ensures fault { OnErr result (HasRisen (K.faults out.old) (K.faults out.new)) }
    ensures uncounted { OnOk result (K.faults out.new ≡ K.faults out.old) }
    ensures steady { K.faults out.old ≤ K.faults out.new }
{
    let mut at = 0;
    while at < bytes.len() {
        let n = out.write(&bytes[at..])?;
        at += n;
    }
    Ok(())
}
