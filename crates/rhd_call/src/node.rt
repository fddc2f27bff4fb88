//! The tree of a call.

ghost use Rattle.std.specs.Prelude.{◌≡◌, ◌++◌, ◌∷◌, [], None, Some, if◌then◌else◌, is_ok, IfOk, OnOk};
ghost use Rattle.std.specs.Option.{option_copied};
ghost use Rattle.rhd_call.specs.Extras.{no_extras};
ghost use Rattle.rhd_call.specs.Nodes.{nodes_in};

use crate::pick::Pick;
use rhd_func::{CallRequest, Carry};
use rhd_value::{Dynamic, EvalAltResult, OutOfMemory, Text};
use std::alloc::Global;
use std::marker::Model;

/// Whose the answer or the fault of a call is.
#[derive(Clone, Copy, PartialEq, Eq, Debug)]
pub enum Whose {
    /// The call's own: nothing ran, or the answer was refused.
    Call,
    /// That of the function that was picked.
    Called,
    /// That of the host, where no function was found.
    Host,
}

/// What a function kept while it waited, for each call that it asked for, in order.
#[derive(Drop)]
pub struct Carries {
    items: Vec<Carry>,
}

impl Model for Carries {
    ghost use Rattle.std.specs.Prelude.{List};
    ghost use Rattle.std.specs.Coded.{coded_list};
    ghost use Rattle.rhd_func.specs.declared.request.Carry.{Carry};
    ghost use Rattle.rhd_func.specs.contracts.request.Carry as carry;

    ghost Value = { List Carry };

    ghost coded = { coded_list carry.the_row.coded };

    ghost view = { λ a. a.items.items };
}

impl Carries {
    pub fn new(alloc: Global) -> Carries
        ensures { result ≡ [] }
    {
        Carries {
            items: Vec::new(alloc),
        }
    }

    /// Puts a carry last.
    pub fn push(&mut self, carry: Carry) -> Result<(), OutOfMemory>
        ensures { self.new ≡ (if is_ok result then self.old ++ carry ∷ [] else self.old) }
    {
        if self.items.is_empty() {
            // Most functions ask once.
            self.items.reserve_exact(1)?;
        }
        self.items.push(carry)?;
        Ok(())
    }

    pub fn as_slice(&self) -> &[Carry]
        ensures { result.now ≡ self.now }
    {
        self.items.as_slice()
    }
}

/// What few calls show of their end.
#[derive(Drop)]
pub struct Extras {
    /// The first argument by reference, or the object, as it is after the call.
    pub first_after: Option<Dynamic>,
    /// The text that was printed, if one was.
    pub printed: Option<Text>,
    /// The value that the call refused, where it did.
    pub refused: Option<Dynamic>,
}

/// What few calls show of their end, in a box of its own where there is any, so that nodes are small.
/// Contracts see all of it.
#[derive(Drop)]
pub struct BoxedExtras {
    boxed: Option<Box<Extras>>,
}

impl Model for BoxedExtras {
    ghost use Rattle.std.specs.Prelude.{unwrap_or};
    ghost use Rattle.std.specs.Option.{option_map};
    ghost use Rattle.rhd_call.specs.declared.node.Extras.{Extras};
    ghost use Rattle.rhd_call.specs.contracts.node.Extras as extras;
    ghost use Rattle.rhd_call.specs.Extras.{no_extras};

    ghost Value = { Extras };

    ghost coded = { extras.the_row.coded };

    ghost view = { λ a. unwrap_or (option_map (λ b. b.value) a.boxed) no_extras };
}

impl BoxedExtras {
    /// None of it. It takes no memory.
    #[inline(always)]
    pub fn none() -> BoxedExtras
        ensures { result ≡ no_extras }
    {
        BoxedExtras { boxed: None }
    }

    fn new(alloc: Global, extras: Extras) -> Result<BoxedExtras, OutOfMemory>
        ensures { IfOk result (λ boxed. boxed ≡ extras) }
    {
        Ok(BoxedExtras {
            boxed: Some(Box::new(alloc, extras)?),
        })
    }

    /// The first argument, if there is one, and nothing else.
    #[inline(always)]
    pub fn of_first(alloc: Global, first: Option<Dynamic>) -> Result<BoxedExtras, OutOfMemory>
        ensures { IfOk result (λ boxed. boxed ≡ record no_extras { first_after = first }) }
    {
        if first.is_none() {
            return Ok(BoxedExtras::none());
        }
        BoxedExtras::new(
            alloc,
            Extras {
                first_after: first,
                printed: None,
                refused: None,
            },
        )
    }

    /// A value that is refused, and the first argument, if there is one.
    pub fn refusing(
        alloc: Global,
        first: Option<Dynamic>,
        value: Dynamic,
    ) -> Result<BoxedExtras, OutOfMemory>
        ensures { IfOk result (λ boxed. boxed ≡ record { first_after = first; printed = None; refused = Some value }) }
    {
        BoxedExtras::new(
            alloc,
            Extras {
                first_after: first,
                printed: None,
                refused: Some(value),
            },
        )
    }

    /// Shows this text as printed, or none.
    pub fn print(&mut self, alloc: Global, text: Option<Text>) -> Result<(), OutOfMemory>
        ensures { OnOk result (self.new ≡ record self.old { printed = text }) }
    {
        if let Some(extras) = &mut self.boxed {
            extras.printed = text;
            return Ok(());
        }
        if text.is_none() {
            return Ok(());
        }
        *self = BoxedExtras::new(
            alloc,
            Extras {
                first_after: None,
                printed: text,
                refused: None,
            },
        )?;
        Ok(())
    }

    /// The first argument by reference, or the object, as it is after the call.
    pub fn first_after(&self) -> Option<&Dynamic>
        ensures { option_copied result ≡ self.now.first_after }
    {
        match &self.boxed {
            Some(extras) => extras.first_after.as_ref(),
            None => None,
        }
    }

    /// The text that was printed, if one was.
    pub fn printed(&self) -> Option<&Text>
        ensures { option_copied result ≡ self.now.printed }
    {
        match &self.boxed {
            Some(extras) => extras.printed.as_ref(),
            None => None,
        }
    }

    /// The value that the call refused, where it did.
    pub fn refused(&self) -> Option<&Dynamic>
        ensures { option_copied result ≡ self.now.refused }
    {
        match &self.boxed {
            Some(extras) => extras.refused.as_ref(),
            None => None,
        }
    }
}

/// A call with its answer, and with the calls that its function asked for.
#[cycle(node)]
#[derive(Drop)]
pub struct CallNode {
    pub call: CallRequest,
    /// How many calls were open, this one included.
    pub level: u32,
    /// False where the budget was spent before it.
    pub begun: bool,
    pub whose: Whose,
    /// The function that was picked, if one was.
    pub pick: Option<Pick>,
    /// One for each child.
    pub carries: Carries,
    pub children: Nodes,
    pub answer: Result<Dynamic, EvalAltResult>,
    pub extras: BoxedExtras,
}

/// Nodes in the order in which they were asked for.
#[cycle(node)]
#[derive(Drop)]
pub struct Nodes {
    pub items: Vec<CallNode>,
}

impl Nodes {
    pub fn new(alloc: Global) -> Nodes
        ensures { nodes_in result ≡ [] }
    {
        Nodes {
            items: Vec::new(alloc),
        }
    }

    /// Puts a node last.
    pub fn push(&mut self, node: CallNode) -> Result<(), OutOfMemory>
        ensures { nodes_in self.new ≡ (if is_ok result then nodes_in self.old ++ node ∷ [] else nodes_in self.old) }
    {
        if self.items.is_empty() {
            // Most calls have one child, if any.
            self.items.reserve_exact(1)?;
        }
        self.items.push(node)?;
        Ok(())
    }
}
