//! Parts of a module text.

use rhd_func::SharedDef;
use rhd_value::{Dynamic, Text, Texts};

/// What one line of a module text says.
#[derive(Drop)]
pub enum ModulePart {
    /// A value that the script leaves, and its names.
    Var { aliases: Texts, value: Dynamic },
    /// A function of the script.
    Fn(SharedDef),
    /// A function of the imported module of a name.
    Import { name: Text, def: SharedDef },
    /// The documentation.
    Doc(Text),
    /// The script can't be loaded, for a fault of this text.
    Fault(Text),
}
