//! Parts of a session text.

ghost use Rattle.std.specs.Prelude.{◌≡◌};
ghost use Rattle.rhd_plan.specs.Session.{is_header};

use crate::body::{BodyEnd, CallPlan};
use rhd_call::Command;
use rhd_engine::Limits;
use rhd_func::{FnNamespace, ManifestId};
use rhd_hash::Seeds;
use rhd_names::OpToken;
use rhd_syntax::Printer;
use rhd_value::{Dynamic, FnId, Text, TypeTag};

/// What one line adds to a session text.
#[derive(Drop)]
pub enum Part {
    /// The seeds of the session.
    Seeds(Seeds),
    /// The limits of the session.
    Limits(Limits),
    /// A printer that is set.
    Printer(Printer),
    /// The function of an operator between two kinds.
    Builtin {
        op: OpToken,
        left: TypeTag,
        right: TypeTag,
        id: FnId,
    },
    /// What the host answers for a name.
    Host {
        name: Text,
        answer: Dynamic,
    },
    /// The text of the file at a path.
    File {
        path: Text,
        text: Text,
    },
    /// The beginning of the next manifest.
    Manifest,
    /// A native that the latest manifest lists under a name.
    Entry {
        name: Text,
        func: FnId,
        namespace: FnNamespace,
    },
    /// A sub-manifest of the latest manifest.
    Sub {
        name: Text,
        sub: ManifestId,
    },
    /// A variable of the latest manifest.
    ManifestVar {
        name: Text,
        value: Dynamic,
    },
    /// A custom type of the latest manifest: the name of a type, and the name by which it is shown.
    ManifestType {
        type_name: Text,
        display: Text,
    },
    /// The beginning of the next body.
    Body,
    /// A call of the latest body.
    Do(CallPlan),
    /// The end of the latest body.
    End(BodyEnd),
    /// One thing to do.
    Command(Command),
}

impl Part {
    /// Whether it is a header, which stands before the first command.
    pub fn is_header(&self) -> bool
        ensures { result ≡ is_header self.now }
    {
        match self {
            Part::Command(_) => false,
            _ => true,
        }
    }
}
