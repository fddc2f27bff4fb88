//! What a loader makes of a text.

use rhd_engine::ImportList;
use rhd_func::SharedDef;
use rhd_value::{Dynamic, Text, Texts};

/// A value that a script leaves, and the names under which its module has it.
#[derive(Drop)]
pub struct ScopeEntry {
    pub value: Dynamic,
    pub aliases: Texts,
}

/// A script that was loaded: the values that it leaves, its imports with their names, its functions, the
/// source that it is of, if there is one, and its documentation.
#[derive(Drop)]
pub struct LoadedScript {
    pub scope: Vec<ScopeEntry>,
    pub imports: ImportList,
    pub functions: Vec<SharedDef>,
    pub source: Option<Text>,
    pub doc: Text,
}
