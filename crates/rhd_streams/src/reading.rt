//! Reading a source to its end.

ghost use Rattle.std.specs.Prelude.{◌≡◌, ◌≤◌, List, ℕ, Some};
ghost use Rattle.rhd_streams.specs.Causes.{Rose};
ghost use Rattle.rhd_streams.specs.Streams.{ReadsWhole, EndsBy};

use crate::source::Source;
use std::alloc::Global;

/// Why a source wasn't read to its end.
#[derive(Debug, Drop)]
pub enum ReadEnd {
    Failed,
    TooMany,
    OutOfMemory,
}

/// All bytes of a source, which are to be no more than `most`.
pub fn read_whole<S: Source>(alloc: Global, source: &mut S, most: usize) -> Result<Vec<u8>, ReadEnd>
    ensures end { ReadsWhole most (S.left source.old) (S.left source.new) (S.faults source.old) (S.faults source.new) result }
    ensures later { S.faults source.old ≤ S.faults source.new }
    ensures ends { (xs : List ℕ) → S.left source.old ≡ Some xs → ¬ (Rose (S.faults source.old) (S.faults source.new)) → EndsBy most xs result }
{
    let mut bytes = Vec::new(alloc);
    let mut buf = [0u8; 16384];
    while bytes.len() <= most {
        match source.read(&mut buf) {
            Err(_) => return Err(ReadEnd::Failed),
            Ok(0) => return Ok(bytes),
            Ok(count) => match bytes.extend_from_slice(&buf[..count]) {
                Ok(()) => {}
                Err(_) => return Err(ReadEnd::OutOfMemory),
            },
        }
    }
    Err(ReadEnd::TooMany)
}
