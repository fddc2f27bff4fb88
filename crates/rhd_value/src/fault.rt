//! The fault of a call.

ghost use Rattle.std.specs.Prelude.{IfOk, ◌≡◌};

mod boxed;

use crate::memory::OutOfMemory;
use crate::tag::Position;
use crate::text::Text;
use std::alloc::Global;
use std::marker::Model;

/// What is wrong with a name, or with the arguments of an indexer or a property.
#[derive(Drop)]
pub enum ParseErrorType {
    /// The name is reserved.
    Reserved(Text),
    /// An indexer or a property is called with another number of arguments than it takes.
    MalformedIndexExpr(Text),
}

impl ParseErrorType {
    /// An equal one.
    pub fn dup(&self, alloc: Global) -> Result<ParseErrorType, OutOfMemory>
        ensures { IfOk result (λ error. error ≡ self.now) }
    {
        match self {
            ParseErrorType::Reserved(name) => Ok(ParseErrorType::Reserved(name.dup(alloc)?)),
            ParseErrorType::MalformedIndexExpr(text) => {
                Ok(ParseErrorType::MalformedIndexExpr(text.dup(alloc)?))
            }
        }
    }
}

/// Why a call gave no value. Each fault ends with the position of its cause.
#[cycle(fault)]
pub enum EvalAltResult {
    /// Fault 1: no function has this signature.
    ErrorFunctionNotFound(Text, Position),
    /// Fault 2: a property isn't there.
    ErrorDotExpr(Text, Position),
    /// Fault 3: an indexer isn't there.
    ErrorIndexingType(Text, Position),
    /// Fault 4: a name is reserved, or an indexer or a property is called with another number of
    /// arguments than it takes.
    ErrorParsing(ParseErrorType, Position),
    /// Fault 5: a function that may change its first argument is called on a constant.
    ErrorNonPureMethodCallOnConstant(Text, Position),
    /// Fault 6: an argument is being used elsewhere.
    ErrorDataRace(Text, Position),
    /// Fault 7: a call answered a value of another type than is wanted: the type wanted, and the
    /// type got.
    ErrorMismatchOutputType(Text, Text, Position),
    /// Fault 8: an argument is of another type than is wanted: the type wanted, and the type got.
    ErrorMismatchDataType(Text, Text, Position),
    /// Fault 9: the calls of the budget are spent.
    ErrorTooManyOperations(Position),
    /// Fault 10: more calls would be open than the limit allows.
    ErrorStackOverflow(Position),
    /// Fault 11: a value holds more than the limits allow; the text says of what.
    ErrorDataTooLarge(Text, Position),
    /// Fault 12: there is no module of this path.
    ErrorModuleNotFound(Text, Position),
    /// Fault 13: the module of this path couldn't be made, for this fault.
    ErrorInModule(Text, BoxedFault, Position),
    /// Fault 15: a function failed with this text.
    ErrorRuntime(Text, Position),
}

/// A function of its own, so that what drops a fault doesn't ask which one it is.
impl Drop for EvalAltResult {
    #[cycle(faults_drop)]
    fn drop(self) {
        match self {
            EvalAltResult::ErrorFunctionNotFound(text, _) => drop(text),
            EvalAltResult::ErrorDotExpr(text, _) => drop(text),
            EvalAltResult::ErrorIndexingType(text, _) => drop(text),
            EvalAltResult::ErrorParsing(error, _) => drop(error),
            EvalAltResult::ErrorNonPureMethodCallOnConstant(text, _) => drop(text),
            EvalAltResult::ErrorDataRace(text, _) => drop(text),
            EvalAltResult::ErrorMismatchOutputType(wanted, got, _) => {
                drop(wanted);
                drop(got);
            }
            EvalAltResult::ErrorMismatchDataType(wanted, got, _) => {
                drop(wanted);
                drop(got);
            }
            EvalAltResult::ErrorTooManyOperations(_) => {}
            EvalAltResult::ErrorStackOverflow(_) => {}
            EvalAltResult::ErrorDataTooLarge(text, _) => drop(text),
            EvalAltResult::ErrorModuleNotFound(text, _) => drop(text),
            EvalAltResult::ErrorInModule(path, fault, _) => {
                drop(path);
                drop(fault);
            }
            EvalAltResult::ErrorRuntime(text, _) => drop(text),
        }
    }
}

/// A fault inside another one. Contracts see it as plain data.
#[cycle(fault)]
#[derive(Drop)]
pub struct BoxedFault {
    fault: Box<EvalAltResult>,
}

impl Model for BoxedFault {
    ghost use Rattle.rhd_value.specs.Fault.{Fault, layers, coded_fault};

    ghost Value = { Fault };

    ghost coded = { coded_fault };

    ghost use Rattle.rhd_value.specs.Seen.{fault_seen};

    ghost view = { λ a. fault_seen a.fault.value };

    ghost size = { layers };
}

impl EvalAltResult {
    /// An equal fault.
    #[cycle(fault)]
    pub fn dup(&self, alloc: Global) -> Result<EvalAltResult, OutOfMemory>
        ensures { IfOk result (λ fault. fault ≡ self.now) }
    {
        Ok(match self {
            EvalAltResult::ErrorFunctionNotFound(text, pos) => {
                EvalAltResult::ErrorFunctionNotFound(text.dup(alloc)?, *pos)
            }
            EvalAltResult::ErrorDotExpr(text, pos) => {
                EvalAltResult::ErrorDotExpr(text.dup(alloc)?, *pos)
            }
            EvalAltResult::ErrorIndexingType(text, pos) => {
                EvalAltResult::ErrorIndexingType(text.dup(alloc)?, *pos)
            }
            EvalAltResult::ErrorParsing(error, pos) => {
                EvalAltResult::ErrorParsing(error.dup(alloc)?, *pos)
            }
            EvalAltResult::ErrorNonPureMethodCallOnConstant(text, pos) => {
                EvalAltResult::ErrorNonPureMethodCallOnConstant(text.dup(alloc)?, *pos)
            }
            EvalAltResult::ErrorDataRace(text, pos) => {
                EvalAltResult::ErrorDataRace(text.dup(alloc)?, *pos)
            }
            EvalAltResult::ErrorMismatchOutputType(wanted, got, pos) => {
                EvalAltResult::ErrorMismatchOutputType(wanted.dup(alloc)?, got.dup(alloc)?, *pos)
            }
            EvalAltResult::ErrorMismatchDataType(wanted, got, pos) => {
                EvalAltResult::ErrorMismatchDataType(wanted.dup(alloc)?, got.dup(alloc)?, *pos)
            }
            EvalAltResult::ErrorTooManyOperations(pos) => {
                EvalAltResult::ErrorTooManyOperations(*pos)
            }
            EvalAltResult::ErrorStackOverflow(pos) => EvalAltResult::ErrorStackOverflow(*pos),
            EvalAltResult::ErrorDataTooLarge(text, pos) => {
                EvalAltResult::ErrorDataTooLarge(text.dup(alloc)?, *pos)
            }
            EvalAltResult::ErrorModuleNotFound(text, pos) => {
                EvalAltResult::ErrorModuleNotFound(text.dup(alloc)?, *pos)
            }
            EvalAltResult::ErrorInModule(path, fault, pos) => {
                EvalAltResult::ErrorInModule(path.dup(alloc)?, fault.dup(alloc)?, *pos)
            }
            EvalAltResult::ErrorRuntime(text, pos) => {
                EvalAltResult::ErrorRuntime(text.dup(alloc)?, *pos)
            }
        })
    }
}
