//! One value by itself.

ghost use Rattle.rhd_syntax.specs.Reading.{whole_value_at};
ghost use Rattle.rhd_syntax.specs.Answers.{Gives, ReadsValue};

use crate::fault::Stop;
use crate::utf8::is_text;
use crate::values::value_at;
use crate::words::is_end;
use rhd_value::{Dynamic, OutOfMemory};
use std::alloc::Global;

/// The value that the bytes are, with nothing but blanks around it.
#[tactic(auto, unfolding(crate::specs::Reading::whole_value_at))]
fn whole_value_at(alloc: Global, bytes: &[u8]) -> Result<Dynamic, Stop>
    ensures { Gives (λ x. x) result (whole_value_at bytes.now) }
{
    if !is_text(bytes) {
        return Err(Stop::Bad);
    }
    let (value, rest) = value_at(alloc, bytes)?;
    if !is_end(rest) {
        return Err(Stop::Bad);
    }
    Ok(value)
}

/// The value that the bytes are, with nothing but blanks around it; none exactly where they are
/// no value.
///
/// Bytes that are not UTF-8 are no value, and no value is more than 64 deep.
#[tactic(auto, using(crate::proofs::WholeLaws::whole_sound))]
pub fn read_value(alloc: Global, bytes: &[u8]) -> Result<Option<Dynamic>, OutOfMemory>
    ensures { ReadsValue bytes.now result }
{
    match whole_value_at(alloc, bytes) {
        Ok(value) => Ok(Some(value)),
        Err(Stop::Bad) => Ok(None),
        Err(Stop::Memory) => Err(OutOfMemory),
    }
}
