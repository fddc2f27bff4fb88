//! How functions are shown.

ghost use Rattle.std.specs.Prelude.{◌++◌, Some, flat_map, codes};
ghost use Rattle.std.specs.Fmt.{WritesStyledOnOk};
ghost use Rattle.rhd_func.specs.Shown.{shown_access, shown_object, shown_params, shown_script, shown_func};

use crate::access::FnAccess;
use crate::func::{RhaiFunc, ScriptFuncDef};
use rhd_value::Text;
use std::fmt;

/// Shows further parameters, each behind a comma.
fn show_more_params<W: fmt::Write>(params: &[Text], f: &mut fmt::Formatter<W>) -> fmt::Result
    ensures { WritesStyledOnOk W.write_str_gives f.old result (flat_map (λ p. codes ", " ++ p) params.now) f.new }
{
    for param in params {
        f.write_str(", ")?;
        f.write_str(param.as_str())?;
    }
    Ok(())
}

/// Shows parameters with commas between them.
fn show_params<W: fmt::Write>(params: &[Text], f: &mut fmt::Formatter<W>) -> fmt::Result
    ensures { WritesStyledOnOk W.write_str_gives f.old result (shown_params params.now) f.new }
{
    match params {
        [] => Ok(()),
        [first, more @ ..] => {
            f.write_str(first.as_str())?;
            show_more_params(more, f)
        }
    }
}

/// Shows the type of an object, if there is one.
fn show_object<W: fmt::Write>(this_type: &Option<Text>, f: &mut fmt::Formatter<W>) -> fmt::Result
    ensures { WritesStyledOnOk W.write_str_gives f.old result (shown_object this_type.now) f.new }
{
    match this_type {
        Some(this_type) => {
            f.write_str(this_type.as_str())?;
            f.write_str(".")
        }
        None => Ok(()),
    }
}

/// Shows that a function is private, if it is.
fn show_access<W: fmt::Write>(access: FnAccess, f: &mut fmt::Formatter<W>) -> fmt::Result
    ensures { WritesStyledOnOk W.write_str_gives f.old result (shown_access access) f.new }
{
    match access {
        FnAccess::Private => f.write_str("private "),
        FnAccess::Public => Ok(()),
    }
}

/// Shows a script's definition.
fn show_script<W: fmt::Write>(def: &ScriptFuncDef, f: &mut fmt::Formatter<W>) -> fmt::Result
    ensures { WritesStyledOnOk W.write_str_gives f.old result (shown_script def.now) f.new }
{
    show_access(def.access, f)?;
    show_object(&def.this_type, f)?;
    f.write_str(def.name.as_str())?;
    f.write_str("(")?;
    show_params(def.params.as_slice(), f)?;
    f.write_str(")")
}

/// A native shows as its kind, and a script with its name and parameters.
impl fmt::Display for RhaiFunc {
    ghost output = { λ func. Some (shown_func func) };

    ghost styled_output = { λ func _. Some (shown_func func) };

    fn fmt<W: fmt::Write>(&self, f: &mut fmt::Formatter<W>) -> fmt::Result {
        match self {
            RhaiFunc::Pure { .. } => f.write_str("NativePureFunction"),
            RhaiFunc::Method { .. } => f.write_str("NativeMethod"),
            RhaiFunc::Iterator { .. } => f.write_str("NativeIterator"),
            RhaiFunc::Plugin { .. } => f.write_str("PluginFunction"),
            RhaiFunc::StaticPlugin { .. } => f.write_str("PluginFunction"),
            RhaiFunc::Script { fn_def, .. } => show_script(fn_def.def(), f),
        }
    }
}

/// The same text as `Display` gives.
impl fmt::Debug for RhaiFunc {
    ghost debug_output = { λ func. Some (shown_func func) };

    fn fmt<W: fmt::Write>(&self, f: &mut fmt::Formatter<W>) -> fmt::Result {
        fmt::Display::fmt(self, f)
    }
}
