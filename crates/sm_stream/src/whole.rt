ghost use Rattle.std.specs.Prelude.{◌≡◌, ◌+◌, ◌<◌, ◌≤◌, ◌^◌, length, IfOk, OnOk, OnErr, IsErrOf};
ghost use Rattle.std.specs.Io.KnownBytes.{prepend_known, append_known, IsAtEnd};
ghost use Rattle.sm_stream.specs.Causes.{Rose};
ghost use Rattle.sm_stream.specs.Whole.{Took, TookAtMost, GotFront, GotPart};

use crate::stream::{Sink, Source};
use sm_base::Failed;
use std::alloc::{AllocError, Global};

/// Why a source was not read to its end.
#[derive(Clone, Copy, Debug, PartialEq, Eq)]
pub enum ReadFault {
    /// The source has more bytes than the limit.
    TooLong,
    /// The source failed.
    Failed,
    /// There is no memory left for the bytes.
    NoMemory,
}

impl From<Failed> for ReadFault {
    ghost use Rattle.std.specs.Prelude.{◌≡◌};
    ghost use Rattle.sm_stream.specs.declared.whole.ReadFault.TheVariants.{Failed as SourceFailed};

    ghost from_gives = { λ _ e. e ≡ SourceFailed };

    fn from(_: Failed) -> ReadFault {
        ReadFault::Failed
    }
}

impl From<AllocError> for ReadFault {
    ghost use Rattle.std.specs.Prelude.{◌≡◌};
    ghost use Rattle.sm_stream.specs.declared.whole.ReadFault.TheVariants.{NoMemory as OutOfMemory};

    ghost from_gives = { λ _ e. e ≡ OutOfMemory };

    fn from(_: AllocError) -> ReadFault {
        ReadFault::NoMemory
    }
}

/// Reads a source to its end, where it has at most `limit` bytes; it takes at most one byte more.
/// Each turn takes at least one byte, so it ends whatever the source does.
pub fn read_whole<S: Source>(
    alloc: Global,
    source: &mut S,
    limit: usize,
) -> Result<Vec<u8>, ReadFault>
    requires { limit < 2 ^ 32 }
    ensures ok { IfOk result (λ bytes. S.left source.old ≡ prepend_known bytes.items (S.left source.new)) }
    ensures at_end { OnOk result (IsAtEnd (S.left source.new)) }
    ensures short { IfOk result (λ bytes. length bytes.items ≤ limit) }

    // What stands after each error: a front of what was left was taken, however the call ends.
    ensures too_long { IsErrOf result ReadFault.TooLong → Took (limit + 1) (S.left source.old) (S.left source.new) }
    ensures failed { IsErrOf result ReadFault.Failed → Rose (S.fault_count source.old) (S.fault_count source.new) }
    ensures taken { TookAtMost (limit + 1) (S.left source.old) (S.left source.new) }
    ensures later { S.fault_count source.old ≤ S.fault_count source.new }
{
    let mut bytes = Vec::new(alloc);
    let mut piece = [0u8; 4096];
    while bytes.len() <= limit {
        let room = 4096usize.min(limit + 1 - bytes.len());
        let n = source.read(&mut piece[..room])?;
        if n == 0 {
            return Ok(bytes);
        }
        bytes.extend_from_slice(&piece[..n])?;
    }
    Err(ReadFault::TooLong)
}

/// Hands all bytes to a sink, at least one in each turn. Where the sink fails, a part of them came
/// to what it holds.
pub fn write_whole<W: Sink>(sink: &mut W, bytes: &[u8]) -> Result<(), Failed>
    ensures ok { OnOk result (W.held sink.new ≡ append_known (W.held sink.old) bytes.now) }
    ensures part { OnErr result (GotPart (W.held sink.old) (W.held sink.new) bytes.now) }
    ensures front { GotFront (W.held sink.old) (W.held sink.new) bytes.now }
    ensures failed { OnErr result (Rose (W.fault_count sink.old) (W.fault_count sink.new)) }
    ensures later { W.fault_count sink.old ≤ W.fault_count sink.new }
{
    let mut rest = bytes;
    while !rest.is_empty() {
        let n = sink.write(rest)?;
        rest = &rest[n..];
    }
    Ok(())
}
