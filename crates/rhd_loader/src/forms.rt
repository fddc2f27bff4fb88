//! One function for each row of the table of module texts, and the rows by their words.

ghost use Rattle.rhd_syntax.specs.Answers.{Gives};
ghost use Rattle.rhd_text.specs.ReadRows.{row_at, form_at};
ghost use Rattle.rhd_loader.specs.declared.keyword.ModuleWord.TheVariants as words;
ghost use Rattle.rhd_loader.specs.Rows.{module_form, module_forms, anywhere};

use crate::keyword::{ModuleWord, word_of};
use crate::part::ModulePart;
use rhd_func::SharedDef;
use rhd_syntax::{Stop, is_end, texts_at, value_at, word_at, wording_at};
use rhd_text::scripted_at;
use std::alloc::Global;

#[tactic(auto, unfolding(rhd_text::specs::ReadRows::row_at))]
fn var_at(alloc: Global, bytes: &[u8]) -> Result<ModulePart, Stop>
    ensures { Gives (λ x. x) result (row_at anywhere (module_form words.Var) bytes.now) }
{
    let (aliases, rest) = texts_at(alloc, bytes)?;
    let (value, rest) = value_at(alloc, rest)?;
    if !is_end(rest) {
        return Err(Stop::Bad);
    }
    Ok(ModulePart::Var { aliases, value })
}

#[tactic(auto, using(crate::proofs::PlanRows::fn_row))]
fn fn_at(alloc: Global, bytes: &[u8]) -> Result<ModulePart, Stop>
    ensures { Gives (λ x. x) result (row_at anywhere (module_form words.Fn) bytes.now) }
{
    let def = scripted_at(alloc, bytes)?;
    Ok(ModulePart::Fn(SharedDef::new(alloc, def)?))
}

#[tactic(auto, using(crate::proofs::PlanRows::import_row))]
fn import_at(alloc: Global, bytes: &[u8]) -> Result<ModulePart, Stop>
    ensures { Gives (λ x. x) result (row_at anywhere (module_form words.Import) bytes.now) }
{
    let (name, rest) = wording_at(alloc, bytes)?;
    let def = scripted_at(alloc, rest)?;
    Ok(ModulePart::Import {
        name,
        def: SharedDef::new(alloc, def)?,
    })
}

#[tactic(auto, unfolding(rhd_text::specs::ReadRows::row_at))]
fn doc_at(alloc: Global, bytes: &[u8]) -> Result<ModulePart, Stop>
    ensures { Gives (λ x. x) result (row_at anywhere (module_form words.Doc) bytes.now) }
{
    let (text, rest) = wording_at(alloc, bytes)?;
    if !is_end(rest) {
        return Err(Stop::Bad);
    }
    Ok(ModulePart::Doc(text))
}

#[tactic(auto, unfolding(rhd_text::specs::ReadRows::row_at))]
fn fault_at(alloc: Global, bytes: &[u8]) -> Result<ModulePart, Stop>
    ensures { Gives (λ x. x) result (row_at anywhere (module_form words.Fault) bytes.now) }
{
    let (text, rest) = wording_at(alloc, bytes)?;
    if !is_end(rest) {
        return Err(Stop::Bad);
    }
    Ok(ModulePart::Fault(text))
}

/// The part of a line, by its word and what stands after it.
fn row_at(alloc: Global, word: ModuleWord, bytes: &[u8]) -> Result<ModulePart, Stop>
    ensures { Gives (λ x. x) result (row_at anywhere (module_form word) bytes.now) }
{
    match word {
        ModuleWord::Var => var_at(alloc, bytes),
        ModuleWord::Fn => fn_at(alloc, bytes),
        ModuleWord::Import => import_at(alloc, bytes),
        ModuleWord::Doc => doc_at(alloc, bytes),
        ModuleWord::Fault => fault_at(alloc, bytes),
    }
}

/// The part of a module text that a line is.
#[tactic(auto, unfolding(rhd_text::specs::ReadRows::form_at))]
pub fn part_at(alloc: Global, line: &[u8]) -> Result<ModulePart, Stop>
    ensures { Gives (λ x. x) result (form_at module_forms anywhere line.now) }
{
    let (word, rest) = word_at(line)?;
    let Some(word) = word_of(word) else {
        return Err(Stop::Bad);
    };
    row_at(alloc, word, rest)
}
