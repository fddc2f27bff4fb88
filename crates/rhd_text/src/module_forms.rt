//! One function for each row of the table that is about what a module has, or about natives under a name.

ghost use Rattle.std.specs.Prelude.{◌≡◌};
ghost use Rattle.rhd_text.specs.declared.keyword.Keyword.TheVariants as keywords;
ghost use Rattle.rhd_text.specs.Rows.{form, access, found_in, registration, raw_func};
ghost use Rattle.rhd_text.specs.ReadRows.{row_at, scripted_at, definition_at};
ghost use Rattle.rhd_syntax.specs.Answers.{Gives};

use crate::place::Place;
use rhd_call::{Command, ModuleId};
use rhd_func::{BodyId, FnAccess, FnNamespace, IterId, RhaiFunc, ScriptFuncDef, SharedDef};
use rhd_hash::Key;
use rhd_module::FuncRegistration;
use rhd_plan::Part;
use rhd_syntax::{
    Stop, flag_at, is_end, kinds_at, long_at, num_at, purity_at, texts_at, this_at, value_at,
    wording_at,
};
use rhd_value::{FnId, Text, Texts, Types};
use std::alloc::Global;

#[tactic(auto, unfolding(crate::specs::ReadRows::row_at))]
pub fn register_at(alloc: Global, bytes: &[u8], place: Place) -> Result<Part, Stop>
    ensures { Gives (λ x. x) result (row_at place (form keywords.Register) bytes.now) }
{
    let (name, rest) = wording_at(alloc, bytes)?;
    let (number, rest) = num_at(rest)?;
    if !is_end(rest) {
        return Err(Stop::Bad);
    }
    Ok(Part::Command(Command::RegisterFn {
        name,
        id: FnId(number),
    }))
}

#[tactic(auto, unfolding(crate::specs::ReadRows::row_at))]
pub fn register_raw_at(alloc: Global, bytes: &[u8], place: Place) -> Result<Part, Stop>
    ensures { Gives (λ x. x) result (row_at place (form keywords.RegisterRaw) bytes.now) }
{
    let (name, rest) = wording_at(alloc, bytes)?;
    let (types, rest) = kinds_at(alloc, rest)?;
    let (number, rest) = num_at(rest)?;
    if !is_end(rest) {
        return Err(Stop::Bad);
    }
    Ok(Part::Command(Command::RegisterRaw {
        name,
        types,
        id: FnId(number),
    }))
}

#[tactic(auto, unfolding(crate::specs::ReadRows::row_at))]
pub fn register_type_at(alloc: Global, bytes: &[u8], place: Place) -> Result<Part, Stop>
    ensures { Gives (λ x. x) result (row_at place (form keywords.RegisterType) bytes.now) }
{
    let (kind, rest) = num_at(bytes)?;
    let (display, rest) = wording_at(alloc, rest)?;
    if !is_end(rest) {
        return Err(Stop::Bad);
    }
    Ok(Part::Command(Command::RegisterType { kind, display }))
}

#[tactic(auto, unfolding(crate::specs::ReadRows::row_at))]
pub fn id_at(alloc: Global, bytes: &[u8], place: Place) -> Result<Part, Stop>
    ensures { Gives (λ x. x) result (row_at place (form keywords.SetId) bytes.now) }
{
    let (module, rest) = num_at(bytes)?;
    let (id, rest) = wording_at(alloc, rest)?;
    if !is_end(rest) {
        return Err(Stop::Bad);
    }
    Ok(Part::Command(Command::SetId {
        module: ModuleId(module),
        id,
    }))
}

#[tactic(auto, unfolding(crate::specs::ReadRows::row_at))]
pub fn doc_at(alloc: Global, bytes: &[u8], place: Place) -> Result<Part, Stop>
    ensures { Gives (λ x. x) result (row_at place (form keywords.SetDoc) bytes.now) }
{
    let (module, rest) = num_at(bytes)?;
    let (doc, rest) = wording_at(alloc, rest)?;
    if !is_end(rest) {
        return Err(Stop::Bad);
    }
    Ok(Part::Command(Command::SetDoc {
        module: ModuleId(module),
        doc,
    }))
}

#[tactic(auto, unfolding(crate::specs::ReadRows::row_at))]
pub fn var_at(alloc: Global, bytes: &[u8], place: Place) -> Result<Part, Stop>
    ensures { Gives (λ x. x) result (row_at place (form keywords.SetVar) bytes.now) }
{
    let (module, rest) = num_at(bytes)?;
    let (name, rest) = wording_at(alloc, rest)?;
    let (value, rest) = value_at(alloc, rest)?;
    if !is_end(rest) {
        return Err(Stop::Bad);
    }
    Ok(Part::Command(Command::SetVar {
        module: ModuleId(module),
        name,
        value,
    }))
}

#[tactic(auto, unfolding(crate::specs::ReadRows::row_at))]
pub fn type_line_at(alloc: Global, bytes: &[u8], place: Place) -> Result<Part, Stop>
    ensures { Gives (λ x. x) result (row_at place (form keywords.SetType) bytes.now) }
{
    let (module, rest) = num_at(bytes)?;
    let (type_name, rest) = wording_at(alloc, rest)?;
    let (display, rest) = wording_at(alloc, rest)?;
    if !is_end(rest) {
        return Err(Stop::Bad);
    }
    Ok(Part::Command(Command::SetType {
        module: ModuleId(module),
        type_name,
        display,
    }))
}

/// Whether a function is found by all calls.
pub fn found_in(global: bool) -> FnNamespace
    ensures { result ≡ found_in global }
{
    match global {
        true => FnNamespace::Global,
        false => FnNamespace::Internal,
    }
}

/// How a native is registered under a name.
fn registration(
    alloc: Global,
    name: Text,
    global: bool,
    purity: Option<bool>,
    volatile: bool,
) -> FuncRegistration
    ensures { result ≡ registration name global purity volatile }
{
    FuncRegistration {
        name,
        namespace: found_in(global),
        purity,
        volatility: if volatile { Some(true) } else { None },
        params_info: Texts::new(alloc),
        comments: Texts::new(alloc),
    }
}

#[tactic(auto, unfolding(crate::specs::ReadRows::row_at))]
pub fn native_at(alloc: Global, bytes: &[u8], place: Place) -> Result<Part, Stop>
    ensures { Gives (λ x. x) result (row_at place (form keywords.Native) bytes.now) }
{
    let (module, rest) = num_at(bytes)?;
    let (name, rest) = wording_at(alloc, rest)?;
    let (number, rest) = num_at(rest)?;
    let (global, rest) = flag_at(rest, b"global");
    let (purity, rest) = purity_at(rest);
    let (volatile, rest) = flag_at(rest, b"volatile");
    if !is_end(rest) {
        return Err(Stop::Bad);
    }
    Ok(Part::Command(Command::Native {
        module: ModuleId(module),
        reg: registration(alloc, name, global, purity, volatile),
        id: FnId(number),
    }))
}

/// A native, which takes its first argument by reference where it is a method.
fn raw_func(method: bool, number: u32, impure: bool, context: bool, volatile: bool) -> RhaiFunc
    ensures { result ≡ raw_func method number impure context volatile }
{
    if method {
        RhaiFunc::Method {
            func: FnId(number),
            has_context: context,
            is_pure: !impure,
            is_volatile: volatile,
        }
    } else {
        RhaiFunc::Pure {
            func: FnId(number),
            has_context: context,
            is_pure: !impure,
            is_volatile: volatile,
        }
    }
}

#[tactic(auto, unfolding(crate::specs::ReadRows::row_at))]
pub fn raw_at(alloc: Global, bytes: &[u8], place: Place) -> Result<Part, Stop>
    ensures { Gives (λ x. x) result (row_at place (form keywords.Raw) bytes.now) }
{
    let (module, rest) = num_at(bytes)?;
    let (name, rest) = wording_at(alloc, rest)?;
    let (types, rest) = kinds_at(alloc, rest)?;
    let (number, rest) = num_at(rest)?;
    let (global, rest) = flag_at(rest, b"global");
    let (method, rest) = flag_at(rest, b"method");
    let (impure, rest) = flag_at(rest, b"impure");
    let (context, rest) = flag_at(rest, b"context");
    let (volatile, rest) = flag_at(rest, b"volatile");
    if !is_end(rest) {
        return Err(Stop::Bad);
    }
    Ok(Part::Command(Command::RawNative {
        module: ModuleId(module),
        name,
        namespace: found_in(global),
        types,
        func: raw_func(method, number, impure, context, volatile),
    }))
}

#[tactic(auto, unfolding(crate::specs::ReadRows::row_at))]
pub fn raw_iter_at(alloc: Global, bytes: &[u8], place: Place) -> Result<Part, Stop>
    ensures { Gives (λ x. x) result (row_at place (form keywords.RawIter) bytes.now) }
{
    let (module, rest) = num_at(bytes)?;
    let (name, rest) = wording_at(alloc, rest)?;
    let (number, rest) = num_at(rest)?;
    if !is_end(rest) {
        return Err(Stop::Bad);
    }
    Ok(Part::Command(Command::RawNative {
        module: ModuleId(module),
        name,
        namespace: FnNamespace::Internal,
        types: Types::new(alloc),
        func: RhaiFunc::Iterator {
            func: IterId(number),
        },
    }))
}

fn access(private: bool) -> FnAccess
    ensures { result ≡ access private }
{
    match private {
        true => FnAccess::Private,
        false => FnAccess::Public,
    }
}

/// The definition of a script, to the end of the line: its name, its parameters, the number of its body,
/// the type of its object, and whether it is private.
#[tactic(auto, unfolding(crate::specs::ReadRows::scripted_at))]
pub fn scripted_at(alloc: Global, bytes: &[u8]) -> Result<ScriptFuncDef, Stop>
    ensures { Gives (λ x. x) result (scripted_at bytes.now) }
{
    let (name, rest) = wording_at(alloc, bytes)?;
    let (params, rest) = texts_at(alloc, rest)?;
    let (body, rest) = num_at(rest)?;
    let (this_type, rest) = this_at(alloc, rest)?;
    let (private, rest) = flag_at(rest, b"private");
    if !is_end(rest) {
        return Err(Stop::Bad);
    }
    Ok(ScriptFuncDef {
        name,
        params,
        this_type,
        access: access(private),
        body: BodyId(body),
    })
}

/// The number of a module, and the definition of a script in it, to the end of the line.
#[tactic(auto, using(crate::proofs::PlanLaws::defined_row))]
fn definition_at(alloc: Global, bytes: &[u8]) -> Result<(ModuleId, ScriptFuncDef), Stop>
    ensures { Gives (λ x. (x.0.0, x.1)) result (definition_at bytes.now) }
{
    let (module, rest) = num_at(bytes)?;
    Ok((ModuleId(module), scripted_at(alloc, rest)?))
}

#[tactic(auto, using(crate::proofs::PlanLaws::script_row))]
pub fn script_at(alloc: Global, bytes: &[u8], place: Place) -> Result<Part, Stop>
    ensures { Gives (λ x. x) result (row_at place (form keywords.Script) bytes.now) }
{
    let (module, def) = definition_at(alloc, bytes)?;
    Ok(Part::Command(Command::Script {
        module,
        def: SharedDef::new(alloc, def)?,
    }))
}

#[tactic(auto, using(crate::proofs::PlanLaws::raw_script_row))]
pub fn raw_script_at(alloc: Global, bytes: &[u8], place: Place) -> Result<Part, Stop>
    ensures { Gives (λ x. x) result (row_at place (form keywords.RawScript) bytes.now) }
{
    let (module, def) = definition_at(alloc, bytes)?;
    let name = def.name.dup(alloc)?;
    Ok(Part::Command(Command::RawNative {
        module,
        name,
        namespace: FnNamespace::Internal,
        types: Types::new(alloc),
        func: RhaiFunc::Script {
            fn_def: SharedDef::new(alloc, def)?,
            env: None,
        },
    }))
}

#[tactic(auto, unfolding(crate::specs::ReadRows::row_at))]
pub fn submodule_at(alloc: Global, bytes: &[u8], place: Place) -> Result<Part, Stop>
    ensures { Gives (λ x. x) result (row_at place (form keywords.Submodule) bytes.now) }
{
    let (module, rest) = num_at(bytes)?;
    let (name, rest) = wording_at(alloc, rest)?;
    let (sub, rest) = num_at(rest)?;
    if !is_end(rest) {
        return Err(Stop::Bad);
    }
    Ok(Part::Command(Command::SubModule {
        module: ModuleId(module),
        name,
        sub: ModuleId(sub),
    }))
}

#[tactic(auto, unfolding(crate::specs::ReadRows::row_at))]
pub fn index_at(bytes: &[u8], place: Place) -> Result<Part, Stop>
    ensures { Gives (λ x. x) result (row_at place (form keywords.Index) bytes.now) }
{
    let (module, rest) = num_at(bytes)?;
    if !is_end(rest) {
        return Err(Stop::Bad);
    }
    Ok(Part::Command(Command::Index {
        module: ModuleId(module),
    }))
}

#[tactic(auto, unfolding(crate::specs::ReadRows::row_at))]
pub fn clear_at(bytes: &[u8], place: Place) -> Result<Part, Stop>
    ensures { Gives (λ x. x) result (row_at place (form keywords.Clear) bytes.now) }
{
    let (module, rest) = num_at(bytes)?;
    if !is_end(rest) {
        return Err(Stop::Bad);
    }
    Ok(Part::Command(Command::Clear {
        module: ModuleId(module),
    }))
}

#[tactic(auto, unfolding(crate::specs::ReadRows::row_at))]
pub fn count_at(bytes: &[u8], place: Place) -> Result<Part, Stop>
    ensures { Gives (λ x. x) result (row_at place (form keywords.Count) bytes.now) }
{
    let (module, rest) = num_at(bytes)?;
    if !is_end(rest) {
        return Err(Stop::Bad);
    }
    Ok(Part::Command(Command::Count {
        module: ModuleId(module),
    }))
}

#[tactic(auto, unfolding(crate::specs::ReadRows::row_at))]
pub fn has_native_at(alloc: Global, bytes: &[u8], place: Place) -> Result<Part, Stop>
    ensures { Gives (λ x. x) result (row_at place (form keywords.HasNative) bytes.now) }
{
    let (module, rest) = num_at(bytes)?;
    let (name, rest) = wording_at(alloc, rest)?;
    let (types, rest) = kinds_at(alloc, rest)?;
    if !is_end(rest) {
        return Err(Stop::Bad);
    }
    Ok(Part::Command(Command::Contains {
        module: ModuleId(module),
        key: Key::Native {
            path: None,
            name,
            types,
        },
    }))
}

#[tactic(auto, unfolding(crate::specs::ReadRows::row_at))]
pub fn has_script_at(alloc: Global, bytes: &[u8], place: Place) -> Result<Part, Stop>
    ensures { Gives (λ x. x) result (row_at place (form keywords.HasScript) bytes.now) }
{
    let (module, rest) = num_at(bytes)?;
    let (name, rest) = wording_at(alloc, rest)?;
    let (params, rest) = long_at(rest)?;
    if !is_end(rest) {
        return Err(Stop::Bad);
    }
    Ok(Part::Command(Command::Contains {
        module: ModuleId(module),
        key: Key::Script {
            path: None,
            name,
            params,
        },
    }))
}
