//! Reading a source to its end.

ghost use Rattle.std.specs.Prelude.{◌≡◌, ◌≢◌, ◌+◌, ◌<◌, ◌≤◌, [], length, IfOk, IfSome, OnOk, Some};
ghost use Rattle.mako_io.specs.Causes.{Rose};
ghost use Rattle.mako_io.specs.Streams.{TakesAtMost, TakesMore};

use crate::source::Source;
use std::alloc::Global;

/// How many bytes are asked of the source at once.
const PART: usize = 4096;

/// Why a source was not read to its end.
#[derive(Clone, Copy, Debug, PartialEq, Eq)]
pub enum ReadRefusal {
    /// A read failed.
    Fault,
    /// More bytes came than the limit allows.
    TooLong,
    /// There was not memory enough.
    Memory,
}

/// Reads until a read gives nothing: all the bytes that are left, where these are at most `limit`. Where more come it
/// takes at most 4,096 bytes beyond them, and answers `TooLong`. After `Fault`, `TooLong` and `Memory` the bytes that
/// were taken are lost.
pub fn read_all<S: Source>(
    alloc: Global,
    source: &mut S,
    limit: usize,
) -> Result<Vec<u8>, ReadRefusal>
    ensures whole { IfOk result (λ bytes. IfSome (S.left source.old) (λ all. bytes.items ≡ all)) }
    ensures ended { OnOk result (IfSome (S.left source.old) (λ all. S.left source.new ≡ Some [])) }
    ensures within { IfOk result (λ bytes. length bytes.items ≤ limit) }
    ensures too_long { result ≡ Err ReadRefusal.TooLong → TakesMore limit (S.left source.old) (S.left source.new) }
    ensures not_too_long { result ≢ Err ReadRefusal.TooLong
        → TakesAtMost limit (S.left source.old) (S.left source.new) }
    ensures bounded { TakesAtMost (limit + PART) (S.left source.old) (S.left source.new) }
    ensures fault { result ≡ Err ReadRefusal.Fault → Rose (S.faults source.old) (S.faults source.new) }
    ensures counted { S.faults source.old ≤ S.faults source.new }
{
    let mut bytes = Vec::new(alloc);
    let mut part = [0; PART];
    loop {
        let Ok(count) = source.read(&mut part) else {
            return Err(ReadRefusal::Fault);
        };
        if count == 0 {
            return Ok(bytes);
        }
        if count > limit - bytes.len() {
            return Err(ReadRefusal::TooLong);
        }
        bytes
            .extend_from_slice(&part[..count])
            .map_err(|_| ReadRefusal::Memory)?;
    }
}
