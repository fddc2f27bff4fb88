//! What a call asks for, and what a native is told and answers.

ghost use Rattle.std.specs.Prelude.{IfOk, ◌≡◌};

use rhd_names::OpToken;
use rhd_value::{Dynamic, EvalAltResult, OutOfMemory, Position, Text, Texts, TypeTag, Values};
use std::alloc::Global;

/// An equal text, where there is one.
pub(crate) fn dup_text(alloc: Global, text: &Option<Text>) -> Result<Option<Text>, OutOfMemory>
    ensures { IfOk result (λ made. made ≡ text.now) }
{
    match text {
        Some(text) => Ok(Some(text.dup(alloc)?)),
        None => Ok(None),
    }
}

/// An equal value, where there is one.
fn dup_first(alloc: Global, first: &Option<Dynamic>) -> Result<Option<Dynamic>, OutOfMemory>
    ensures { IfOk result (λ made. made ≡ first.now) }
{
    match first {
        Some(first) => Ok(Some(first.dup(alloc)?)),
        None => Ok(None),
    }
}

/// The arguments of a call.
#[derive(Drop)]
pub enum CallShape {
    /// All by value.
    Plain(Values),
    /// The first by reference, and the others.
    ByRef(Dynamic, Values),
    /// An object, whose method is called, and the arguments.
    Method(Dynamic, Values),
}

/// A call that is asked for.
#[derive(Drop)]
pub enum CallRequest {
    /// A call by name.
    Named {
        name: Text,
        /// The token that the name is, if it is one.
        token: Option<OpToken>,
        /// Whether only natives may answer.
        native_only: bool,
        shape: CallShape,
        /// The type that the answer has to have; any, where there is none.
        want: Option<TypeTag>,
        pos: Position,
    },
    /// A call of a function of a module: of an import or a static module, or of a module below it.
    Qualified {
        /// The name of the import or static module, then those of the modules below.
        path: Texts,
        name: Text,
        shape: CallShape,
        pos: Position,
    },
}

impl CallShape {
    /// Equal arguments.
    pub fn dup(&self, alloc: Global) -> Result<CallShape, OutOfMemory>
        ensures { IfOk result (λ shape. shape ≡ self.now) }
    {
        match self {
            CallShape::Plain(args) => Ok(CallShape::Plain(args.dup(alloc)?)),
            CallShape::ByRef(first, args) => {
                Ok(CallShape::ByRef(first.dup(alloc)?, args.dup(alloc)?))
            }
            CallShape::Method(object, args) => {
                Ok(CallShape::Method(object.dup(alloc)?, args.dup(alloc)?))
            }
        }
    }
}

impl CallRequest {
    /// An equal request.
    pub fn dup(&self, alloc: Global) -> Result<CallRequest, OutOfMemory>
        ensures { IfOk result (λ request. request ≡ self.now) }
    {
        match self {
            CallRequest::Named {
                name,
                token,
                native_only,
                shape,
                want,
                pos,
            } => Ok(CallRequest::Named {
                name: name.dup(alloc)?,
                token: *token,
                native_only: *native_only,
                shape: shape.dup(alloc)?,
                want: *want,
                pos: *pos,
            }),
            CallRequest::Qualified {
                path,
                name,
                shape,
                pos,
            } => Ok(CallRequest::Qualified {
                path: path.dup(alloc)?,
                name: name.dup(alloc)?,
                shape: shape.dup(alloc)?,
                pos: *pos,
            }),
        }
    }
}

/// What a function keeps while it waits for the answer to a call.
#[derive(Drop)]
pub struct Carry {
    /// Its first argument by reference, where one was given.
    pub first: Option<Dynamic>,
    /// What it needs to go on.
    pub kept: Dynamic,
}

impl Carry {
    /// An equal carry.
    pub fn dup(&self, alloc: Global) -> Result<Carry, OutOfMemory>
        ensures { IfOk result (λ carry. carry ≡ self.now) }
    {
        Ok(Carry {
            first: dup_first(alloc, &self.first)?,
            kept: self.kept.dup(alloc)?,
        })
    }
}

/// What became of a call that a function asked for.
#[derive(Drop)]
pub struct CallDone {
    pub answer: Result<Dynamic, EvalAltResult>,
    /// The first argument by reference, as it is after the call.
    pub first: Option<Dynamic>,
}

impl CallDone {
    /// An equal one.
    pub fn dup(&self, alloc: Global) -> Result<CallDone, OutOfMemory>
        ensures { IfOk result (λ done. done ≡ self.now) }
    {
        let first = dup_first(alloc, &self.first)?;
        match &self.answer {
            Ok(answer) => Ok(CallDone {
                answer: Ok(answer.dup(alloc)?),
                first,
            }),
            Err(fault) => Ok(CallDone {
                answer: Err(fault.dup(alloc)?),
                first,
            }),
        }
    }
}

/// What a function made of its call so far. A first argument that was given is given back.
#[derive(Drop)]
pub enum NativeStep {
    Done {
        answer: Dynamic,
        first: Option<Dynamic>,
    },
    Failed {
        fault: EvalAltResult,
        first: Option<Dynamic>,
    },
    /// It asks for a call, and goes on with the carry when that is answered.
    Ask {
        request: CallRequest,
        carry: Carry,
    },
}

impl NativeStep {
    /// An equal step.
    pub fn dup(&self, alloc: Global) -> Result<NativeStep, OutOfMemory>
        ensures { IfOk result (λ step. step ≡ self.now) }
    {
        match self {
            NativeStep::Done { answer, first } => Ok(NativeStep::Done {
                answer: answer.dup(alloc)?,
                first: dup_first(alloc, first)?,
            }),
            NativeStep::Failed { fault, first } => Ok(NativeStep::Failed {
                fault: fault.dup(alloc)?,
                first: dup_first(alloc, first)?,
            }),
            NativeStep::Ask { request, carry } => Ok(NativeStep::Ask {
                request: request.dup(alloc)?,
                carry: carry.dup(alloc)?,
            }),
        }
    }
}

/// What the host answers to a call that no function answers.
#[derive(Drop)]
pub enum HostAnswer {
    /// It has none.
    Nothing,
    Value(Dynamic),
    Fault(EvalAltResult),
}

impl HostAnswer {
    /// An equal answer.
    pub fn dup(&self, alloc: Global) -> Result<HostAnswer, OutOfMemory>
        ensures { IfOk result (λ answer. answer ≡ self.now) }
    {
        match self {
            HostAnswer::Nothing => Ok(HostAnswer::Nothing),
            HostAnswer::Value(value) => Ok(HostAnswer::Value(value.dup(alloc)?)),
            HostAnswer::Fault(fault) => Ok(HostAnswer::Fault(fault.dup(alloc)?)),
        }
    }
}

/// What a native may know of the call.
#[derive(Drop)]
pub struct NativeCallContext {
    /// The name by which it is called.
    pub name: Text,
    /// The source of the function.
    pub source: Option<Text>,
    /// The source of the caller.
    pub call_source: Option<Text>,
    /// The position of the call.
    pub pos: Position,
    /// How many calls are open, this one included.
    pub level: u32,
    /// The tag of the run.
    pub tag: Dynamic,
}

impl NativeCallContext {
    /// An equal context.
    pub fn dup(&self, alloc: Global) -> Result<NativeCallContext, OutOfMemory>
        ensures { IfOk result (λ ctx. ctx ≡ self.now) }
    {
        Ok(NativeCallContext {
            name: self.name.dup(alloc)?,
            source: dup_text(alloc, &self.source)?,
            call_source: dup_text(alloc, &self.call_source)?,
            pos: self.pos,
            level: self.level,
            tag: self.tag.dup(alloc)?,
        })
    }
}
