//! The node of a call in a box.

ghost use Rattle.std.specs.Prelude.{ℕ, List, ◌≡◌, ◌<◌, ◌+◌, IfOk, OnOk, length, true};
ghost use Rattle.rhd_module.specs.Tree.{ModuleTree};
ghost use Rattle.rhd_call.specs.Seen.{seen, unbegun_node};
ghost use Rattle.rhd_engine.specs.Of.{lists_of};
ghost use Rattle.rhd_resolve.specs.declared.environs.EncapsulatedEnviron.{EncapsulatedEnviron};
ghost use Rattle.rhd_machine.specs.Held.{frame_held};
ghost use Rattle.rhd_machine.specs.World.{moment};
ghost use Rattle.rhd_machine.specs.Filling.{begun_call, is_begun, picking, joined};
ghost use Rattle.rhd_machine.specs.Setting.{setting_of};
ghost use Rattle.rhd_machine.specs.Waits.{InProgress, under_way, outcome_of, Settled, ComesIn};

use crate::calls::begin;
use crate::filling::{begun, picks, unbegun};
use crate::machine::{Asking, settle};
use rhd_call::{CallNode, Pick};
use rhd_engine::{Engine, GlobalRuntimeState};
use rhd_func::{Bodies, CallRequest, Carry, Host, NativeStep};
use rhd_value::OutOfMemory;
use std::alloc::Global;
use std::marker::Model;

/// A node in a box, since it is large, and is moved at each step of the machine. Contracts see the node.
#[derive(Drop)]
pub struct BoxedNode {
    node: Box<CallNode>,
}

impl Model for BoxedNode {
    ghost use Rattle.rhd_call.specs.declared.node.CallNode.{CallNode};
    ghost use Rattle.rhd_call.specs.contracts.node.CallNode as call_node;

    ghost Value = { CallNode };

    ghost coded = { call_node.the_row.coded };

    ghost view = { λ a. a.node.value };
}

impl BoxedNode {
    /// Puts a node into a box.
    pub fn new(alloc: Global, node: CallNode) -> Result<BoxedNode, OutOfMemory>
        ensures { IfOk result (λ boxed. boxed ≡ node) }
    {
        Ok(BoxedNode {
            node: Box::new(alloc, node)?,
        })
    }

    /// The node of a call that is begun at a level.
    pub fn begun(alloc: Global, call: CallRequest, level: u32) -> Result<BoxedNode, OutOfMemory>
        ensures { IfOk result (λ boxed. seen boxed ≡ begun_call call level) }
    {
        Ok(BoxedNode {
            node: Box::new(alloc, begun(alloc, call, level))?,
        })
    }

    /// A call that isn't begun, as the budget is spent.
    pub fn unbegun(alloc: Global, call: CallRequest, level: u32) -> Result<BoxedNode, OutOfMemory>
        ensures { IfOk result (λ boxed. seen boxed ≡ unbegun_node call level) }
    {
        let node = unbegun(alloc, call, level)?;
        BoxedNode::new(alloc, node)
    }

    /// The node that stands in the box.
    pub fn node(&self) -> &CallNode
        ensures { result.now ≡ self.now }
    {
        &self.node
    }

    /// How many calls are open in it, this one included.
    pub fn level(&self) -> u32
        ensures { result ≡ (seen self.now).level }
    {
        self.node.level
    }

    /// Takes the node out of its box.
    pub fn into_node(self) -> CallNode
        ensures { result ≡ self }
    {
        Box::into_inner(self.node)
    }

    /// Begins the call of a node that was just made.
    pub fn begin<H: Host, B: Bodies>(
        &mut self,
        alloc: Global,
        engine: &Engine,
        state: &GlobalRuntimeState,
        host: &mut H,
        bodies: &mut B,
    ) -> Result<Option<Box<Asking>>, OutOfMemory>
        requires { frame_held (length engine.now.natives.items.items) state.now ≡ true }
        ensures { (modules : List ModuleTree) (environs : List EncapsulatedEnviron) (begun : ℕ) → is_begun (seen self.old) → begun < engine.now.limits.budget → IfOk result (λ asking. ComesIn
            (setting_of allows_call allows_resume B.allows_start B.allows_next H.allows_missing info engine.now modules environs state.now) (seen self.old).level (seen self.old).call (outcome_of self.new asking)
            (moment begun host.old bodies.old) (moment (begun + 1) host.new bodies.new)) }
    {
        begin(alloc, engine, state, &mut self.node, host, bodies)
    }

    /// Takes the step of the function of its call.
    pub fn settle(
        &mut self,
        alloc: Global,
        engine: &Engine,
        pick: Pick,
        step: NativeStep,
    ) -> Result<Option<Box<Asking>>, OutOfMemory>
        ensures { (k : InProgress) → seen self.old ≡ under_way k → pick ≡ k.pick → IfOk result (λ asking. Settled (lists_of info engine.now) k step (outcome_of self.new asking)) }
    {
        settle(alloc, engine, &mut self.node, pick, step)
    }

    /// Puts a carry, and the call that was asked for with it, last.
    pub fn join(&mut self, carry: Carry, child: BoxedNode) -> Result<(), OutOfMemory>
        ensures { OnOk result (seen self.new ≡ joined (seen self.old) carry child) }
    {
        self.node.carries.push(carry)?;
        self.node.children.push(child.into_node())
    }

    /// Shows the function that was picked.
    pub fn picks(&mut self, pick: Pick)
        ensures { seen self.new ≡ picking (seen self.old) pick }
    {
        picks(&mut self.node, pick);
    }
}
