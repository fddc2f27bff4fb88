//! Bodies: the plans of what a script's function does.

ghost use Rattle.std.specs.Prelude.{◌≡◌, ◌++◌, ◌∷◌, [], IfOk, length, if◌then◌else◌, is_ok, slice_get};
ghost use Rattle.std.specs.Option.{option_copied};
ghost use Rattle.rhd_plan.specs.Session.{new_body, stepped, ended, in_latest};
ghost use Rattle.rhd_syntax.specs.Answers.{StepGives};

use rhd_func::CallRequest;
use rhd_syntax::{Given, Places, Stop};
use rhd_value::{Dynamic, OutOfMemory, Text};
use std::alloc::Global;
use std::marker::Model;

/// A call that a body makes.
#[derive(Drop)]
pub struct CallPlan {
    /// The call, with unit in the places of given values.
    pub request: CallRequest,
    /// Where given values are to stand, in ascending order.
    pub places: Places,
}

impl CallPlan {
    /// An equal plan.
    pub fn dup(&self, alloc: Global) -> Result<CallPlan, OutOfMemory>
        ensures { IfOk result (λ plan. plan ≡ self.now) }
    {
        Ok(CallPlan {
            request: self.request.dup(alloc)?,
            places: self.places.dup(alloc)?,
        })
    }
}

/// Calls in the order in which a body makes them. Contracts see the list of them.
#[derive(Drop)]
pub struct CallPlans {
    items: Vec<CallPlan>,
}

impl Model for CallPlans {
    ghost use Rattle.std.specs.Prelude.{List};
    ghost use Rattle.std.specs.Coded.{coded_list};
    ghost use Rattle.rhd_plan.specs.declared.body.CallPlan.{CallPlan};
    ghost use Rattle.rhd_plan.specs.contracts.body.CallPlan as plan;

    ghost Value = { List CallPlan };

    ghost coded = { coded_list plan.the_row.coded };

    ghost view = { λ a. a.items.items };
}

impl CallPlans {
    pub fn new(alloc: Global) -> CallPlans
        ensures { result ≡ [] }
    {
        CallPlans {
            items: Vec::new(alloc),
        }
    }

    /// Puts a call last.
    pub fn push(&mut self, call: CallPlan) -> Result<(), OutOfMemory>
        ensures { self.new ≡ (if is_ok result then self.old ++ call ∷ [] else self.old) }
    {
        self.items.push(call)?;
        Ok(())
    }

    pub fn len(&self) -> usize
        ensures { result ≡ length self.now }
    {
        self.items.len()
    }

    pub fn as_slice(&self) -> &[CallPlan]
        ensures { result.now ≡ self.now }
    {
        self.items.as_slice()
    }

    /// An equal list.
    pub fn dup(&self, alloc: Global) -> Result<CallPlans, OutOfMemory>
        ensures { IfOk result (λ calls. calls ≡ self.now) }
    {
        let mut calls = CallPlans::new(alloc);
        for call in &self.items {
            calls.push(call.dup(alloc)?)?;
        }
        Ok(calls)
    }

    /// The call at a place, counted from 0; none where there is nothing.
    pub fn get(&self, at: usize) -> Option<&CallPlan>
        ensures { option_copied result ≡ slice_get self.now at }
    {
        self.items.get(at)
    }
}

/// How a body ends.
#[derive(Drop)]
pub enum BodyEnd {
    /// It answers this value.
    Ret(Dynamic),
    /// It answers a value that it is given.
    RetGiven(Given),
    /// It fails with this text.
    Fail(Text),
}

impl BodyEnd {
    /// An equal end.
    pub fn dup(&self, alloc: Global) -> Result<BodyEnd, OutOfMemory>
        ensures { IfOk result (λ end. end ≡ self.now) }
    {
        match self {
            BodyEnd::Ret(value) => Ok(BodyEnd::Ret(value.dup(alloc)?)),
            BodyEnd::RetGiven(given) => Ok(BodyEnd::RetGiven(*given)),
            BodyEnd::Fail(text) => Ok(BodyEnd::Fail(text.dup(alloc)?)),
        }
    }
}

/// An equal end, where there is one.
fn dup_end(alloc: Global, end: &Option<BodyEnd>) -> Result<Option<BodyEnd>, OutOfMemory>
    ensures { IfOk result (λ made. made ≡ end.now) }
{
    match end {
        Some(end) => Ok(Some(end.dup(alloc)?)),
        None => Ok(None),
    }
}

/// What a body does.
#[derive(Drop)]
pub struct BodyPlan {
    /// The calls that it makes, in order.
    pub calls: CallPlans,
    /// How it ends, if the text says so.
    pub end: Option<BodyEnd>,
}

impl BodyPlan {
    /// A body that makes no call and has no end yet.
    fn new(alloc: Global) -> BodyPlan
        ensures { result ≡ new_body }
    {
        BodyPlan {
            calls: CallPlans::new(alloc),
            end: None,
        }
    }

    /// An equal plan.
    pub fn dup(&self, alloc: Global) -> Result<BodyPlan, OutOfMemory>
        ensures { IfOk result (λ body. body ≡ self.now) }
    {
        Ok(BodyPlan {
            calls: self.calls.dup(alloc)?,
            end: dup_end(alloc, &self.end)?,
        })
    }

    /// Adds a call, where the body has no end yet.
    #[tactic(auto, unfolding(crate::specs::Session::stepped))]
    fn add_call(&mut self, call: CallPlan) -> Result<(), Stop>
        ensures { StepGives result self.old self.new (stepped call self.old) }
    {
        if self.end.is_some() {
            return Err(Stop::Bad);
        }
        Ok(self.calls.push(call)?)
    }

    /// Ends the body, where it has no end yet.
    #[tactic(auto, unfolding(crate::specs::Session::ended))]
    fn add_end(&mut self, end: BodyEnd) -> Result<(), Stop>
        ensures { StepGives result self.old self.new (ended end self.old) }
    {
        match self.end {
            Some(_) => Err(Stop::Bad),
            None => {
                self.end = Some(end);
                Ok(())
            }
        }
    }
}

/// Bodies by their numbers, counted from 0. Contracts see the list of them.
#[derive(Drop)]
pub struct BodyPlans {
    items: Vec<BodyPlan>,
}

impl Model for BodyPlans {
    ghost use Rattle.std.specs.Prelude.{List};
    ghost use Rattle.std.specs.Coded.{coded_list};
    ghost use Rattle.rhd_plan.specs.declared.body.BodyPlan.{BodyPlan};
    ghost use Rattle.rhd_plan.specs.contracts.body.BodyPlan as body;

    ghost Value = { List BodyPlan };

    ghost coded = { coded_list body.the_row.coded };

    ghost view = { λ a. a.items.items };
}

impl BodyPlans {
    pub fn new(alloc: Global) -> BodyPlans
        ensures { result ≡ [] }
    {
        BodyPlans {
            items: Vec::new(alloc),
        }
    }

    /// Puts a body last.
    pub fn push(&mut self, body: BodyPlan) -> Result<(), OutOfMemory>
        ensures { self.new ≡ (if is_ok result then self.old ++ body ∷ [] else self.old) }
    {
        self.items.push(body)?;
        Ok(())
    }

    pub fn len(&self) -> usize
        ensures { result ≡ length self.now }
    {
        self.items.len()
    }

    /// An equal list.
    pub fn dup(&self, alloc: Global) -> Result<BodyPlans, OutOfMemory>
        ensures { IfOk result (λ bodies. bodies ≡ self.now) }
    {
        let mut bodies = BodyPlans::new(alloc);
        for body in &self.items {
            bodies.push(body.dup(alloc)?)?;
        }
        Ok(bodies)
    }

    /// The body of a number; none where there is nothing.
    pub fn get(&self, number: usize) -> Option<&BodyPlan>
        ensures { option_copied result ≡ slice_get self.now number }
    {
        self.items.get(number)
    }

    /// Begins the next body.
    pub(crate) fn begin(&mut self, alloc: Global) -> Result<(), OutOfMemory>
        ensures { self.new ≡ (if is_ok result then self.old ++ new_body ∷ [] else self.old) }
    {
        self.push(BodyPlan::new(alloc))
    }

    /// Adds a call to the latest body.
    #[tactic(auto, unfolding(crate::specs::Session::in_latest))]
    pub(crate) fn add_call(&mut self, call: CallPlan) -> Result<(), Stop>
        ensures { StepGives result self.old self.new (in_latest (stepped call) self.old) }
    {
        let Some(body) = self.items.last_mut() else {
            return Err(Stop::Bad);
        };
        body.add_call(call)
    }

    /// Ends the latest body.
    #[tactic(auto, unfolding(crate::specs::Session::in_latest))]
    pub(crate) fn add_end(&mut self, end: BodyEnd) -> Result<(), Stop>
        ensures { StepGives result self.old self.new (in_latest (ended end) self.old) }
    {
        let Some(body) = self.items.last_mut() else {
            return Err(Stop::Bad);
        };
        body.add_end(end)
    }
}
