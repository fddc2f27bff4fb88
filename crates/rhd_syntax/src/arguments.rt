//! The arguments of a call.

ghost use Rattle.std.specs.Prelude.{◌≡◌, IfOk, OnOk};
ghost use Rattle.rhd_syntax.specs.Bytes.{given_of};
ghost use Rattle.rhd_syntax.specs.Arguments.{no_arguments, with_argument};
ghost use Rattle.rhd_syntax.specs.Reading.{given_at, argument_at, arguments_at};
ghost use Rattle.rhd_syntax.specs.Answers.{Gives};

use crate::brackets::comes;
use crate::fault::Stop;
use crate::given::{Given, GivenAt, Places};
use crate::numbers::long_of;
use crate::values::value_at;
use crate::words::{is_end, word_at};
use rhd_value::{Dynamic, OutOfMemory, Value, Values};
use std::alloc::Global;

/// One argument.
#[derive(Drop)]
pub enum Argument {
    /// This value.
    Value(Dynamic),
    /// A value that the body is given where it runs.
    Given(Given),
}

/// The arguments of a call, in order.
#[derive(Drop)]
pub struct Arguments {
    /// The values, with unit in the places of given ones.
    pub values: Values,
    /// Where given values are to stand, in ascending order.
    pub places: Places,
}

impl Arguments {
    /// None yet, with room for so many.
    fn new(alloc: Global, many: usize) -> Result<Arguments, OutOfMemory>
        ensures { IfOk result (λ arguments. arguments ≡ no_arguments) }
    {
        Ok(Arguments {
            values: Values::with_capacity(alloc, many)?,
            places: Places::new(alloc),
        })
    }

    /// Puts an argument last.
    fn push(&mut self, argument: Argument) -> Result<(), OutOfMemory>
        ensures { OnOk result (self.new ≡ with_argument self.old argument) }
    {
        match argument {
            Argument::Value(value) => self.values.push(value),
            Argument::Given(given) => {
                let place = self.values.len();
                self.places.push(GivenAt { place, given })?;
                self.values.push(Dynamic::from(Value::Unit))
            }
        }
    }
}

/// Which given value a word says.
#[tactic(auto, unfolding(crate::specs::Bytes::given_of))]
fn given_of(word: &[u8]) -> Option<Given>
    ensures { result ≡ given_of word.now }
{
    if word == b"$this".as_slice() {
        return Some(Given::This);
    }
    if word == b"$last".as_slice() {
        return Some(Given::Last);
    }
    match word {
        [b'$', digits @ ..] => Some(Given::Arg(long_of(digits)?)),
        _ => None,
    }
}

#[tactic(auto, unfolding(crate::specs::Reading::given_at))]
fn given_at(bytes: &[u8]) -> Result<(Argument, &[u8]), Stop>
    ensures { Gives (λ x. (x.0, x.1.now)) result (given_at bytes.now) }
{
    let (word, rest) = word_at(bytes)?;
    let Some(given) = given_of(word) else {
        return Err(Stop::Bad);
    };
    Ok((Argument::Given(given), rest))
}

/// The next argument, which may be a given value where those are allowed, and the bytes after it.
#[tactic(auto, unfolding(crate::specs::Reading::argument_at))]
#[inline(always)]
pub fn argument_at(alloc: Global, bytes: &[u8], given: bool) -> Result<(Argument, &[u8]), Stop>
    ensures { Gives (λ x. (x.0, x.1.now)) result (argument_at given bytes.now) }
{
    if given && comes(bytes, b'$') {
        return given_at(bytes);
    }
    let (value, rest) = value_at(alloc, bytes)?;
    Ok((Argument::Value(value), rest))
}

/// For how many arguments there should be room at first: for as many as there are blanks before words, but
/// not for more than four, since there are blanks within values too.
fn room_for(bytes: &[u8]) -> usize {
    bytes.iter().filter(|b| **b == b' ').take(4).count()
}

/// Arguments up to the end of the line.
#[tactic(auto, unfolding(crate::specs::Reading::many, crate::specs::Reading::arguments_at))]
pub fn arguments_at(alloc: Global, bytes: &[u8], given: bool) -> Result<(Arguments, &[u8]), Stop>
    ensures { Gives (λ x. (x.0, x.1.now)) result (arguments_at given bytes.now) }
{
    let mut arguments = Arguments::new(alloc, room_for(bytes))?;
    let mut rest = bytes;
    let mut most = bytes.len();
    while most > 0 {
        if is_end(rest) {
            return Ok((arguments, rest));
        }
        let (x, after) = argument_at(alloc, rest, given)?;
        arguments.push(x)?;
        rest = after;
        most -= 1;
    }
    if is_end(rest) {
        Ok((arguments, rest))
    } else {
        Err(Stop::Bad)
    }
}
