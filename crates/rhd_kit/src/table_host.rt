//! The host of a session text, which answers calls that no function answers.

ghost use Rattle.std.specs.Prelude.{◌≡◌, IfOk};

use rhd_func::{Host, HostAnswer};
use rhd_value::{Entries, OutOfMemory, Text, Values};
use std::alloc::Global;
use std::marker::Model;

/// The values that the host of a session text answers, by the names of calls. Contracts see the list of
/// names in ascending order, each with its value.
#[derive(Drop)]
pub struct TableHost {
    answers: Entries,
}

impl Model for TableHost {
    ghost use Rattle.std.specs.Prelude.{List};
    ghost use Rattle.rhd_value.specs.Tree.{Bytes, Tree};
    ghost use Rattle.rhd_value.specs.Codes.{coded_entries};

    ghost Value = { List (Bytes × Tree) };

    ghost coded = { coded_entries };

    ghost view = { λ a. a.answers };
}

impl TableHost {
    /// The host that answers these values for these names, and nothing for any other.
    pub fn new(answers: Entries) -> TableHost
        ensures { result ≡ answers }
    {
        TableHost { answers }
    }

    /// An equal host.
    pub fn dup(&self, alloc: Global) -> Result<TableHost, OutOfMemory>
        ensures { IfOk result (λ host. host ≡ self.now) }
    {
        Ok(TableHost {
            answers: self.answers.dup(alloc)?,
        })
    }
}

impl Host for TableHost {
    ghost use Rattle.rhd_kit.specs.TableHost.{table_answers};

    ghost allows_missing = { table_answers };

    fn missing(
        &mut self,
        alloc: Global,
        name: &Text,
        _args: &Values,
        _is_method: bool,
    ) -> Result<HostAnswer, OutOfMemory> {
        match self.answers.get(name) {
            Some(value) => Ok(HostAnswer::Value(value.dup(alloc)?)),
            None => Ok(HostAnswer::Nothing),
        }
    }
}
