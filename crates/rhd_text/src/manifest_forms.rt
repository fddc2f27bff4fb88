//! One function for each row of the table that is about manifests, and these rows by their words.

ghost use Rattle.std.specs.Prelude.{◌≡◌};
ghost use Rattle.rhd_text.specs.declared.keyword.ManifestWord.TheVariants as lists;
ghost use Rattle.rhd_text.specs.Rows.{manifest_form};
ghost use Rattle.rhd_text.specs.ReadRows.{row_at};
ghost use Rattle.rhd_syntax.specs.Answers.{Gives};

use crate::keyword::ManifestWord;
use crate::module_forms::found_in;
use crate::place::Place;
use rhd_call::{Command, ModuleId};
use rhd_func::ManifestId;
use rhd_plan::Part;
use rhd_syntax::{Stop, flag_at, is_end, num_at, value_at, wording_at};
use rhd_value::FnId;
use std::alloc::Global;

#[tactic(auto, unfolding(crate::specs::ReadRows::row_at))]
fn manifest_at(bytes: &[u8], place: Place) -> Result<Part, Stop>
    ensures { Gives (λ x. x) result (row_at place (manifest_form lists.Manifest) bytes.now) }
{
    if !is_end(bytes) {
        return Err(Stop::Bad);
    }
    Ok(Part::Manifest)
}

#[tactic(auto, unfolding(crate::specs::ReadRows::row_at))]
fn entry_at(alloc: Global, bytes: &[u8], place: Place) -> Result<Part, Stop>
    ensures { Gives (λ x. x) result (row_at place (manifest_form lists.Entry) bytes.now) }
{
    let (name, rest) = wording_at(alloc, bytes)?;
    let (number, rest) = num_at(rest)?;
    let (global, rest) = flag_at(rest, b"global");
    if !is_end(rest) {
        return Err(Stop::Bad);
    }
    Ok(Part::Entry {
        name,
        func: FnId(number),
        namespace: found_in(global),
    })
}

#[tactic(auto, unfolding(crate::specs::ReadRows::row_at))]
fn sub_at(alloc: Global, bytes: &[u8], place: Place) -> Result<Part, Stop>
    ensures { Gives (λ x. x) result (row_at place (manifest_form lists.Sub) bytes.now) }
{
    let (name, rest) = wording_at(alloc, bytes)?;
    let (sub, rest) = num_at(rest)?;
    if !is_end(rest) {
        return Err(Stop::Bad);
    }
    Ok(Part::Sub {
        name,
        sub: ManifestId(sub),
    })
}

#[tactic(auto, unfolding(crate::specs::ReadRows::row_at))]
fn manifest_var_at(alloc: Global, bytes: &[u8], place: Place) -> Result<Part, Stop>
    ensures { Gives (λ x. x) result (row_at place (manifest_form lists.Var) bytes.now) }
{
    let (name, rest) = wording_at(alloc, bytes)?;
    let (value, rest) = value_at(alloc, rest)?;
    if !is_end(rest) {
        return Err(Stop::Bad);
    }
    Ok(Part::ManifestVar { name, value })
}

#[tactic(auto, unfolding(crate::specs::ReadRows::row_at))]
fn manifest_type_at(alloc: Global, bytes: &[u8], place: Place) -> Result<Part, Stop>
    ensures { Gives (λ x. x) result (row_at place (manifest_form lists.Type) bytes.now) }
{
    let (type_name, rest) = wording_at(alloc, bytes)?;
    let (display, rest) = wording_at(alloc, rest)?;
    if !is_end(rest) {
        return Err(Stop::Bad);
    }
    Ok(Part::ManifestType { type_name, display })
}

#[tactic(auto, unfolding(crate::specs::ReadRows::row_at))]
fn from_manifest_at(bytes: &[u8], place: Place) -> Result<Part, Stop>
    ensures { Gives (λ x. x) result (row_at place (manifest_form lists.FromManifest) bytes.now) }
{
    let (manifest, rest) = num_at(bytes)?;
    if !is_end(rest) {
        return Err(Stop::Bad);
    }
    Ok(Part::Command(Command::FromManifest {
        manifest: ManifestId(manifest),
    }))
}

#[tactic(auto, unfolding(crate::specs::ReadRows::row_at))]
fn combine_manifest_at(bytes: &[u8], place: Place) -> Result<Part, Stop>
    ensures { Gives (λ x. x) result (row_at place (manifest_form lists.CombineManifest) bytes.now) }
{
    let (module, rest) = num_at(bytes)?;
    let (manifest, rest) = num_at(rest)?;
    if !is_end(rest) {
        return Err(Stop::Bad);
    }
    Ok(Part::Command(Command::CombineManifest {
        module: ModuleId(module),
        manifest: ManifestId(manifest),
    }))
}

#[tactic(auto, unfolding(crate::specs::ReadRows::row_at))]
fn register_lazy_at(bytes: &[u8], place: Place) -> Result<Part, Stop>
    ensures { Gives (λ x. x) result (row_at place (manifest_form lists.RegisterLazy) bytes.now) }
{
    let (module, rest) = num_at(bytes)?;
    if !is_end(rest) {
        return Err(Stop::Bad);
    }
    Ok(Part::Command(Command::RegisterLazy {
        module: ModuleId(module),
    }))
}

/// The part of a line about manifests, by what stands after its word.
pub fn manifest_row_at(
    alloc: Global,
    bytes: &[u8],
    place: Place,
    word: ManifestWord,
) -> Result<Part, Stop>
    ensures { Gives (λ x. x) result (row_at place (manifest_form word) bytes.now) }
{
    match word {
        ManifestWord::Manifest => manifest_at(bytes, place),
        ManifestWord::Entry => entry_at(alloc, bytes, place),
        ManifestWord::Sub => sub_at(alloc, bytes, place),
        ManifestWord::Var => manifest_var_at(alloc, bytes, place),
        ManifestWord::Type => manifest_type_at(alloc, bytes, place),
        ManifestWord::FromManifest => from_manifest_at(bytes, place),
        ManifestWord::CombineManifest => combine_manifest_at(bytes, place),
        ManifestWord::RegisterLazy => register_lazy_at(bytes, place),
    }
}
