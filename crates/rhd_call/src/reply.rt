//! What a session answers.

ghost use Rattle.std.specs.Prelude.{◌≡◌, ◌++◌, ◌∷◌, [], length, if◌then◌else◌, is_ok};

use crate::command::ModuleId;
use crate::node::CallNode;
use rhd_module::DeclFault;
use rhd_value::{EvalAltResult, OutOfMemory};
use std::alloc::Global;
use std::marker::Model;

/// The answer to one command.
#[derive(Drop)]
pub enum Reply {
    /// It is done.
    Done,
    /// A module was made, of this number.
    Made(ModuleId),
    /// The fault of a resolver: no module was given.
    Fault(EvalAltResult),
    /// A declaration was refused, and nothing has changed. Want of memory is no reply.
    Refused(DeclFault),
    /// How many variables, functions and functions that iterate a module has.
    Count(u64, u64, u64),
    /// Whether something is so.
    Truth(bool),
    /// A call was made.
    Called(CallNode),
}

/// Replies in order. Contracts see the list of them.
#[derive(Drop)]
pub struct Replies {
    items: Vec<Reply>,
}

impl Model for Replies {
    ghost use Rattle.std.specs.Prelude.{List};
    ghost use Rattle.std.specs.Coded.{coded_list};
    ghost use Rattle.rhd_call.specs.declared.reply.Reply.{Reply};
    ghost use Rattle.rhd_call.specs.contracts.reply.Reply as reply;

    ghost Value = { List Reply };

    ghost coded = { coded_list reply.the_row.coded };

    ghost view = { λ a. a.items.items };
}

impl Replies {
    pub fn new(alloc: Global) -> Replies
        ensures { result ≡ [] }
    {
        Replies {
            items: Vec::new(alloc),
        }
    }

    pub fn from_vec(items: Vec<Reply>) -> Replies
        ensures { result ≡ items.items }
    {
        Replies { items }
    }

    /// Puts a reply last.
    pub fn push(&mut self, reply: Reply) -> Result<(), OutOfMemory>
        ensures { self.new ≡ (if is_ok result then self.old ++ reply ∷ [] else self.old) }
    {
        self.items.push(reply)?;
        Ok(())
    }

    pub fn len(&self) -> usize
        ensures { result ≡ length self.now }
    {
        self.items.len()
    }

    pub fn as_slice(&self) -> &[Reply]
        ensures { result.now ≡ self.now }
    {
        self.items.as_slice()
    }
}

/// Memory ran out, with the replies to the commands before.
#[derive(Drop)]
pub struct Stopped {
    pub replies: Replies,
}
