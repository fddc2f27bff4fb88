//! One function for each row of the table, and the rows by their keywords.

ghost use Rattle.std.specs.Prelude.{◌≡◌, ◌+◌, ◌<◌, ◌^◌, List, length};
ghost use Rattle.rhd_func.specs.Infos.{infos_of};
ghost use Rattle.rhd_func.specs.Natives.{NativeInfo};
ghost use Rattle.rhd_text.specs.declared.keyword.Keyword.TheVariants as keywords;
ghost use Rattle.rhd_text.specs.Rows.{answered, built_in, called, step, form, step_forms};
ghost use Rattle.rhd_text.specs.ReadRows.{row_at, form_at, part_at};
ghost use Rattle.rhd_text.specs.ReadSession.{with_read};
ghost use Rattle.rhd_syntax.specs.Answers.{Gives, StepGives};

use crate::join_forms::join_at;
use crate::keyword::{CallWord, Keyword, call_of, keyword_of};
use crate::manifest_forms::manifest_row_at;
use crate::module_forms::{
    clear_at, count_at, doc_at, has_native_at, has_script_at, id_at, index_at, native_at, raw_at,
    raw_iter_at, raw_script_at, register_at, register_raw_at, register_type_at, script_at,
    submodule_at, type_line_at, var_at,
};
use crate::place::Place;
use crate::requests::plan_at;
use rhd_call::{Command, ModuleId};
use rhd_engine::Limits;
use rhd_func::Natives;
use rhd_hash::Seeds;
use rhd_plan::{BodyEnd, Part, SessionText};
use rhd_syntax::{
    Argument, Stop, argument_at, is_end, long_at, num_at, operator_of, printer_at, value_at,
    value_kind_at, word_at, wording_at,
};
use rhd_value::{FnId, Position, Text, TypeTag};
use std::alloc::Global;

#[tactic(auto, unfolding(crate::specs::ReadRows::row_at))]
fn printer_line_at(bytes: &[u8], place: Place) -> Result<Part, Stop>
    ensures { Gives (λ x. x) result (row_at place (form keywords.Printer) bytes.now) }
{
    let (printer, rest) = printer_at(bytes)?;
    if !is_end(rest) {
        return Err(Stop::Bad);
    }
    Ok(Part::Printer(printer))
}

/// The native of a number for the operator of a word.
fn built_in(word: &Text, left: TypeTag, right: TypeTag, number: u32) -> Option<Part>
    ensures { result ≡ built_in word.now left right number }
{
    let op = operator_of(word.as_str())?;
    Some(Part::Builtin {
        op,
        left,
        right,
        id: FnId(number),
    })
}

#[tactic(auto, unfolding(crate::specs::ReadRows::row_at))]
fn builtin_at(alloc: Global, bytes: &[u8], place: Place) -> Result<Part, Stop>
    ensures { Gives (λ x. x) result (row_at place (form keywords.Builtin) bytes.now) }
{
    let (word, rest) = wording_at(alloc, bytes)?;
    let (left, rest) = value_kind_at(rest)?;
    let (right, rest) = value_kind_at(rest)?;
    let (number, rest) = num_at(rest)?;
    if !is_end(rest) {
        return Err(Stop::Bad);
    }
    match built_in(&word, left, right, number) {
        Some(part) => Ok(part),
        None => Err(Stop::Bad),
    }
}

#[tactic(auto, unfolding(crate::specs::ReadRows::row_at))]
fn host_at(alloc: Global, bytes: &[u8], place: Place) -> Result<Part, Stop>
    ensures { Gives (λ x. x) result (row_at place (form keywords.Host) bytes.now) }
{
    let (name, rest) = wording_at(alloc, bytes)?;
    let (answer, rest) = value_at(alloc, rest)?;
    if !is_end(rest) {
        return Err(Stop::Bad);
    }
    Ok(Part::Host { name, answer })
}

#[tactic(auto, unfolding(crate::specs::ReadRows::row_at))]
fn file_at(alloc: Global, bytes: &[u8], place: Place) -> Result<Part, Stop>
    ensures { Gives (λ x. x) result (row_at place (form keywords.File) bytes.now) }
{
    let (path, rest) = wording_at(alloc, bytes)?;
    let (text, rest) = wording_at(alloc, rest)?;
    if !is_end(rest) {
        return Err(Stop::Bad);
    }
    Ok(Part::File { path, text })
}

#[tactic(auto, using(crate::proofs::PlanLaws::call_row))]
#[inline(always)]
fn call_at(alloc: Global, bytes: &[u8], place: Place, call: CallWord) -> Result<Part, Stop>
    ensures { Gives (λ x. x) result (row_at place (called call) bytes.now) }
{
    let plan = plan_at(alloc, bytes, false, call, place.position())?;
    Ok(Part::Command(Command::Call(plan.request)))
}

#[tactic(auto, using(crate::proofs::PlanLaws::step_row))]
fn do_at(alloc: Global, bytes: &[u8], place: Place, call: CallWord) -> Result<Part, Stop>
    ensures { Gives (λ x. x) result (row_at place (step call) bytes.now) }
{
    let plan = plan_at(alloc, bytes, true, call, Position::NONE)?;
    Ok(Part::Do(plan))
}

#[tactic(auto, unfolding(crate::specs::ReadRows::row_at))]
fn body_at(bytes: &[u8], place: Place) -> Result<Part, Stop>
    ensures { Gives (λ x. x) result (row_at place (form keywords.Body) bytes.now) }
{
    if !is_end(bytes) {
        return Err(Stop::Bad);
    }
    Ok(Part::Body)
}

fn answered(argument: Argument) -> BodyEnd
    ensures { result ≡ answered argument }
{
    match argument {
        Argument::Value(value) => BodyEnd::Ret(value),
        Argument::Given(given) => BodyEnd::RetGiven(given),
    }
}

#[tactic(auto, unfolding(crate::specs::ReadRows::row_at))]
fn ret_at(alloc: Global, bytes: &[u8], place: Place) -> Result<Part, Stop>
    ensures { Gives (λ x. x) result (row_at place (form keywords.Ret) bytes.now) }
{
    let (argument, rest) = argument_at(alloc, bytes, true)?;
    if !is_end(rest) {
        return Err(Stop::Bad);
    }
    Ok(Part::End(answered(argument)))
}

#[tactic(auto, unfolding(crate::specs::ReadRows::row_at))]
fn fail_at(alloc: Global, bytes: &[u8], place: Place) -> Result<Part, Stop>
    ensures { Gives (λ x. x) result (row_at place (form keywords.Fail) bytes.now) }
{
    let (text, rest) = wording_at(alloc, bytes)?;
    if !is_end(rest) {
        return Err(Stop::Bad);
    }
    Ok(Part::End(BodyEnd::Fail(text)))
}

#[tactic(auto, unfolding(crate::specs::ReadRows::row_at))]
fn seeds_at(bytes: &[u8], place: Place) -> Result<Part, Stop>
    ensures { Gives (λ x. x) result (row_at place (form keywords.Seeds) bytes.now) }
{
    let (seed0, rest) = long_at(bytes)?;
    let (seed1, rest) = long_at(rest)?;
    let (mask, rest) = long_at(rest)?;
    if !is_end(rest) {
        return Err(Stop::Bad);
    }
    Ok(Part::Seeds(Seeds { seed0, seed1, mask }))
}

#[tactic(auto, unfolding(crate::specs::ReadRows::row_at))]
fn limits_at(bytes: &[u8], place: Place) -> Result<Part, Stop>
    ensures { Gives (λ x. x) result (row_at place (form keywords.Limits) bytes.now) }
{
    let (array, rest) = num_at(bytes)?;
    let (map, rest) = num_at(rest)?;
    let (text, rest) = num_at(rest)?;
    let (level, rest) = num_at(rest)?;
    let (budget, rest) = long_at(rest)?;
    if !is_end(rest) {
        return Err(Stop::Bad);
    }
    Ok(Part::Limits(Limits {
        array,
        map,
        text,
        level,
        budget,
    }))
}

#[tactic(auto, unfolding(crate::specs::ReadRows::row_at))]
fn module_at(bytes: &[u8], place: Place) -> Result<Part, Stop>
    ensures { Gives (λ x. x) result (row_at place (form keywords.Module) bytes.now) }
{
    if !is_end(bytes) {
        return Err(Stop::Bad);
    }
    Ok(Part::Command(Command::NewModule))
}

#[tactic(auto, unfolding(crate::specs::ReadRows::row_at))]
fn lib_at(bytes: &[u8], place: Place) -> Result<Part, Stop>
    ensures { Gives (λ x. x) result (row_at place (form keywords.Lib) bytes.now) }
{
    let (module, rest) = num_at(bytes)?;
    if !is_end(rest) {
        return Err(Stop::Bad);
    }
    Ok(Part::Command(Command::PushLib {
        module: ModuleId(module),
    }))
}

#[tactic(auto, unfolding(crate::specs::ReadRows::row_at))]
fn pop_lib_at(bytes: &[u8], place: Place) -> Result<Part, Stop>
    ensures { Gives (λ x. x) result (row_at place (form keywords.PopLib) bytes.now) }
{
    if !is_end(bytes) {
        return Err(Stop::Bad);
    }
    Ok(Part::Command(Command::PopLib))
}

#[tactic(auto, unfolding(crate::specs::ReadRows::row_at))]
fn global_at(bytes: &[u8], place: Place) -> Result<Part, Stop>
    ensures { Gives (λ x. x) result (row_at place (form keywords.Global) bytes.now) }
{
    let (module, rest) = num_at(bytes)?;
    if !is_end(rest) {
        return Err(Stop::Bad);
    }
    Ok(Part::Command(Command::GlobalModule {
        module: ModuleId(module),
    }))
}

#[tactic(auto, unfolding(crate::specs::ReadRows::row_at))]
fn static_at(alloc: Global, bytes: &[u8], place: Place) -> Result<Part, Stop>
    ensures { Gives (λ x. x) result (row_at place (form keywords.Static) bytes.now) }
{
    let (name, rest) = wording_at(alloc, bytes)?;
    let (module, rest) = num_at(rest)?;
    if !is_end(rest) {
        return Err(Stop::Bad);
    }
    Ok(Part::Command(Command::StaticModule {
        name,
        module: ModuleId(module),
    }))
}

#[tactic(auto, unfolding(crate::specs::ReadRows::row_at))]
fn import_at(alloc: Global, bytes: &[u8], place: Place) -> Result<Part, Stop>
    ensures { Gives (λ x. x) result (row_at place (form keywords.Import) bytes.now) }
{
    let (name, rest) = wording_at(alloc, bytes)?;
    let (module, rest) = num_at(rest)?;
    if !is_end(rest) {
        return Err(Stop::Bad);
    }
    Ok(Part::Command(Command::PushImport {
        name,
        module: ModuleId(module),
    }))
}

#[tactic(auto, unfolding(crate::specs::ReadRows::row_at))]
fn import_path_at(alloc: Global, bytes: &[u8], place: Place) -> Result<Part, Stop>
    ensures { Gives (λ x. x) result (row_at place (form keywords.ImportPath) bytes.now) }
{
    let (name, rest) = wording_at(alloc, bytes)?;
    let (path, rest) = wording_at(alloc, rest)?;
    if !is_end(rest) {
        return Err(Stop::Bad);
    }
    Ok(Part::Command(Command::ImportPath { name, path }))
}

#[tactic(auto, unfolding(crate::specs::ReadRows::row_at))]
fn pop_import_at(bytes: &[u8], place: Place) -> Result<Part, Stop>
    ensures { Gives (λ x. x) result (row_at place (form keywords.PopImport) bytes.now) }
{
    if !is_end(bytes) {
        return Err(Stop::Bad);
    }
    Ok(Part::Command(Command::PopImport))
}

#[tactic(auto, unfolding(crate::specs::ReadRows::row_at))]
fn source_at(alloc: Global, bytes: &[u8], place: Place) -> Result<Part, Stop>
    ensures { Gives (λ x. x) result (row_at place (form keywords.Source) bytes.now) }
{
    let (source, rest) = wording_at(alloc, bytes)?;
    if !is_end(rest) {
        return Err(Stop::Bad);
    }
    Ok(Part::Command(Command::SetSource(Some(source))))
}

#[tactic(auto, unfolding(crate::specs::ReadRows::row_at))]
fn no_source_at(bytes: &[u8], place: Place) -> Result<Part, Stop>
    ensures { Gives (λ x. x) result (row_at place (form keywords.NoSource) bytes.now) }
{
    if !is_end(bytes) {
        return Err(Stop::Bad);
    }
    Ok(Part::Command(Command::SetSource(None)))
}

#[tactic(auto, unfolding(crate::specs::ReadRows::row_at))]
fn tag_at(alloc: Global, bytes: &[u8], place: Place) -> Result<Part, Stop>
    ensures { Gives (λ x. x) result (row_at place (form keywords.Tag) bytes.now) }
{
    let (tag, rest) = value_at(alloc, bytes)?;
    if !is_end(rest) {
        return Err(Stop::Bad);
    }
    Ok(Part::Command(Command::SetTag(tag)))
}

/// The part of a line form, by what stands after its keyword.
#[inline(never)]
fn row_at(alloc: Global, keyword: Keyword, bytes: &[u8], place: Place) -> Result<Part, Stop>
    ensures { Gives (λ x. x) result (row_at place (form keyword) bytes.now) }
{
    match keyword {
        Keyword::Seeds => seeds_at(bytes, place),
        Keyword::Limits => limits_at(bytes, place),
        Keyword::Printer => printer_line_at(bytes, place),
        Keyword::Builtin => builtin_at(alloc, bytes, place),
        Keyword::Host => host_at(alloc, bytes, place),
        Keyword::File => file_at(alloc, bytes, place),
        Keyword::Body => body_at(bytes, place),
        Keyword::Ret => ret_at(alloc, bytes, place),
        Keyword::Fail => fail_at(alloc, bytes, place),
        Keyword::Register => register_at(alloc, bytes, place),
        Keyword::RegisterRaw => register_raw_at(alloc, bytes, place),
        Keyword::RegisterType => register_type_at(alloc, bytes, place),
        Keyword::Module => module_at(bytes, place),
        Keyword::SetId => id_at(alloc, bytes, place),
        Keyword::SetDoc => doc_at(alloc, bytes, place),
        Keyword::SetVar => var_at(alloc, bytes, place),
        Keyword::SetType => type_line_at(alloc, bytes, place),
        Keyword::Native => native_at(alloc, bytes, place),
        Keyword::Raw => raw_at(alloc, bytes, place),
        Keyword::RawIter => raw_iter_at(alloc, bytes, place),
        Keyword::RawScript => raw_script_at(alloc, bytes, place),
        Keyword::Script => script_at(alloc, bytes, place),
        Keyword::Submodule => submodule_at(alloc, bytes, place),
        Keyword::Clear => clear_at(bytes, place),
        Keyword::Count => count_at(bytes, place),
        Keyword::HasNative => has_native_at(alloc, bytes, place),
        Keyword::HasScript => has_script_at(alloc, bytes, place),
        Keyword::Lib => lib_at(bytes, place),
        Keyword::PopLib => pop_lib_at(bytes, place),
        Keyword::Index => index_at(bytes, place),
        Keyword::Global => global_at(bytes, place),
        Keyword::Static => static_at(alloc, bytes, place),
        Keyword::Import => import_at(alloc, bytes, place),
        Keyword::ImportPath => import_path_at(alloc, bytes, place),
        Keyword::PopImport => pop_import_at(bytes, place),
        Keyword::Source => source_at(alloc, bytes, place),
        Keyword::NoSource => no_source_at(bytes, place),
        Keyword::Tag => tag_at(alloc, bytes, place),
        Keyword::Manifest(word) => manifest_row_at(alloc, bytes, place, word),
        Keyword::Join(word) => join_at(bytes, place, word),
        Keyword::Call(call) => call_at(alloc, bytes, place, call),
    }
}

/// What stands after `do`.
#[tactic(auto, unfolding(crate::specs::ReadRows::form_at))]
fn step_at(alloc: Global, bytes: &[u8], place: Place) -> Result<Part, Stop>
    ensures { Gives (λ x. x) result (form_at step_forms place bytes.now) }
{
    let (word, rest) = word_at(bytes)?;
    let Some(call) = call_of(word) else {
        return Err(Stop::Bad);
    };
    do_at(alloc, rest, place, call)
}

/// The part of a text that a line is.
#[tactic(auto, unfolding(crate::specs::ReadRows::part_at))]
pub fn part_at(alloc: Global, line: &[u8], place: Place) -> Result<Part, Stop>
    ensures { Gives (λ x. x) result (part_at place line.now) }
{
    let (word, rest) = word_at(line)?;
    if word == b"do".as_slice() {
        return step_at(alloc, rest, place);
    }
    let Some(keyword) = keyword_of(word) else {
        return Err(Stop::Bad);
    };
    row_at(alloc, keyword, rest, place)
}

/// Adds the request of a call line, by what stands after its keyword.
#[tactic(auto, unfolding(rhd_plan::specs::Session::with_part), using(crate::proofs::PlanLaws::call_row))]
#[inline(always)]
fn add_call(
    alloc: Global,
    said: &mut SessionText,
    bytes: &[u8],
    place: Place,
    call: CallWord,
) -> Result<(), Stop>
    ensures { (natives : List NativeInfo) → StepGives result said.old said.new (with_read natives said.old (row_at place (called call) bytes.now)) }
{
    let plan = plan_at(alloc, bytes, false, call, place.position())?;
    said.add_request(plan.request)
}

/// Adds what a line of a form says. Most lines are calls: their requests don't become parts before.
fn add_row(
    alloc: Global,
    said: &mut SessionText,
    keyword: Keyword,
    bytes: &[u8],
    place: Place,
    natives: &Natives,
) -> Result<(), Stop>
    requires manifests { length said.old.manifests + 1 < 2 ^ 32 }
    ensures { StepGives result said.old said.new (with_read (infos_of info natives.now) said.old (row_at place (form keyword) bytes.now)) }
{
    match keyword {
        Keyword::Call(call) => add_call(alloc, said, bytes, place, call),
        other => {
            let part = row_at(alloc, other, bytes, place)?;
            said.add_part(alloc, part, natives)
        }
    }
}

/// Adds what a line says, where it may stand there; else all stays as it was.
#[tactic(auto, unfolding(crate::specs::ReadRows::part_at))]
pub fn add_line(
    alloc: Global,
    said: &mut SessionText,
    line: &[u8],
    place: Place,
    natives: &Natives,
) -> Result<(), Stop>
    requires manifests { length said.old.manifests + 1 < 2 ^ 32 }
    ensures { StepGives result said.old said.new (with_read (infos_of info natives.now) said.old (part_at place line.now)) }
{
    let (word, rest) = word_at(line)?;
    if word == b"do".as_slice() {
        let part = step_at(alloc, rest, place)?;
        return said.add_part(alloc, part, natives);
    }
    let Some(keyword) = keyword_of(word) else {
        return Err(Stop::Bad);
    };
    add_row(alloc, said, keyword, rest, place, natives)
}
