//! The line of a call.

ghost use Rattle.std.specs.Prelude.{◌≡◌, ◌++◌, ◌∷◌, [], OnOk, codes, if◌then◌else◌};
ghost use Rattle.rhd_print.specs.PrintedTexts.{quoted};
ghost use Rattle.std.specs.Fmt.{decimal};
ghost use Rattle.std.specs.Option.{option_copied};
ghost use Rattle.rhd_value.specs.Seen.{fault_seen};
ghost use Rattle.rhd_print.specs.PrintedReplies.{spelled_error, spelled_fault, label, layer_text, func_text, pick_text, whose_text, result_text, after_text, shown_text, call_line, indent, tree_text, nodes_text};
ghost use Rattle.rhd_call.specs.declared.node.CallNode.{out-CallNode};

use crate::keys::push_path_names;
use crate::quotes::{push_number, push_quoted};
use crate::values::push_value;
use rhd_call::{CallNode, Layer, Nodes, Pick, Whose};
use rhd_func::{CallRequest, RhaiFunc};
use rhd_value::{Dynamic, EvalAltResult, OutOfMemory, ParseErrorType, Text};
use std::alloc::Global;

/// The type wanted and the type got.
fn push_types(wanted: &Text, got: &Text, out: &mut Vec<u8>) -> Result<(), OutOfMemory>
    ensures { OnOk result (out.new.items ≡ out.old.items ++ (quoted wanted.now ++ codes " " ++ quoted got.now)) }
{
    push_quoted(wanted.as_str(), out)?;
    out.push(b' ')?;
    push_quoted(got.as_str(), out)
}

#[tactic(auto, unfolding(crate::specs::PrintedReplies::spelled_error))]
fn push_error(error: &ParseErrorType, out: &mut Vec<u8>) -> Result<(), OutOfMemory>
    ensures { OnOk result (out.new.items ≡ out.old.items ++ spelled_error error.now) }
{
    match error {
        ParseErrorType::Reserved(name) => {
            out.extend_from_slice(b"reserved ")?;
            push_quoted(name.as_str(), out)
        }
        ParseErrorType::MalformedIndexExpr(text) => {
            out.extend_from_slice(b"index ")?;
            push_quoted(text.as_str(), out)
        }
    }
}

/// A fault of one text.
#[inline(always)]
fn push_fault_of(number: &[u8], text: &Text, out: &mut Vec<u8>) -> Result<(), OutOfMemory>
    ensures { OnOk result (out.new.items ≡ out.old.items ++ (number.now ++ quoted text.now)) }
{
    out.extend_from_slice(number)?;
    push_quoted(text.as_str(), out)
}

/// A fault of two types.
fn push_fault_of_types(
    number: &[u8],
    wanted: &Text,
    got: &Text,
    out: &mut Vec<u8>,
) -> Result<(), OutOfMemory>
    ensures { OnOk result (out.new.items ≡ out.old.items ++ (number.now ++ quoted wanted.now ++ codes " " ++ quoted got.now)) }
{
    out.extend_from_slice(number)?;
    push_types(wanted, got, out)
}

/// A fault by its number, without its position.
#[cycle(faults)]
#[tactic(auto, unfolding(crate::specs::PrintedReplies::spelled_fault))]
pub(crate) fn push_fault(fault: &EvalAltResult, out: &mut Vec<u8>) -> Result<(), OutOfMemory>
    ensures { OnOk result (out.new.items ≡ out.old.items ++ spelled_fault (fault_seen fault.now)) }
{
    match fault {
        EvalAltResult::ErrorFunctionNotFound(text, _) => push_fault_of(b"1 ", text, out),
        EvalAltResult::ErrorDotExpr(text, _) => push_fault_of(b"2 ", text, out),
        EvalAltResult::ErrorIndexingType(text, _) => push_fault_of(b"3 ", text, out),
        EvalAltResult::ErrorParsing(error, _) => {
            out.extend_from_slice(b"4 ")?;
            push_error(error, out)
        }
        EvalAltResult::ErrorNonPureMethodCallOnConstant(name, _) => push_fault_of(b"5 ", name, out),
        EvalAltResult::ErrorDataRace(text, _) => push_fault_of(b"6 ", text, out),
        EvalAltResult::ErrorMismatchOutputType(wanted, got, _) => {
            push_fault_of_types(b"7 ", wanted, got, out)
        }
        EvalAltResult::ErrorMismatchDataType(wanted, got, _) => {
            push_fault_of_types(b"8 ", wanted, got, out)
        }
        EvalAltResult::ErrorTooManyOperations(_) => Ok(out.extend_from_slice(b"9")?),
        EvalAltResult::ErrorStackOverflow(_) => Ok(out.extend_from_slice(b"10")?),
        EvalAltResult::ErrorDataTooLarge(text, _) => push_fault_of(b"11 ", text, out),
        EvalAltResult::ErrorModuleNotFound(path, _) => push_fault_of(b"12 ", path, out),
        EvalAltResult::ErrorInModule(path, fault, _) => {
            push_fault_of(b"13 ", path, out)?;
            out.extend_from_slice(b" (")?;
            push_fault(fault.fault(), out)?;
            Ok(out.push(b')')?)
        }
        EvalAltResult::ErrorRuntime(text, _) => push_fault_of(b"15 ", text, out),
    }
}

fn push_label(call: &CallRequest, out: &mut Vec<u8>) -> Result<(), OutOfMemory>
    ensures { OnOk result (out.new.items ≡ out.old.items ++ label call.now) }
{
    match call {
        CallRequest::Named { name, .. } => { Ok(out.extend_from_slice(name.as_str().as_bytes())?) }
        CallRequest::Qualified { path, name, .. } => {
            push_path_names(path.as_slice(), out)?;
            Ok(out.extend_from_slice(name.as_str().as_bytes())?)
        }
    }
}

#[tactic(auto, unfolding(crate::specs::PrintedReplies::layer_text))]
fn push_layer(layer: Layer, out: &mut Vec<u8>) -> Result<(), OutOfMemory>
    ensures { OnOk result (out.new.items ≡ out.old.items ++ layer_text layer) }
{
    match layer {
        Layer::Library(number) => {
            out.extend_from_slice(b"lib")?;
            push_number(number, out)
        }
        Layer::Global(number) => {
            out.extend_from_slice(b"global")?;
            push_number(number, out)
        }
        Layer::Import(number) => {
            out.extend_from_slice(b"import")?;
            push_number(number, out)
        }
        Layer::Static(number) => {
            out.extend_from_slice(b"static")?;
            push_number(number, out)
        }
        Layer::Builtin => Ok(out.extend_from_slice(b"builtin")?),
    }
}

#[inline(always)]
fn push_marked(mark: u8, number: u32, out: &mut Vec<u8>) -> Result<(), OutOfMemory>
    ensures { OnOk result (out.new.items ≡ out.old.items ++ (mark ∷ []) ++ decimal number) }
{
    out.push(mark)?;
    push_number(u64::from(number), out)
}

/// A native or a function that iterates by its number, a script by that of its body.
#[tactic(auto, unfolding(crate::specs::PrintedReplies::func_text))]
fn push_func(func: &RhaiFunc, out: &mut Vec<u8>) -> Result<(), OutOfMemory>
    ensures { OnOk result (out.new.items ≡ out.old.items ++ func_text func.now) }
{
    match func {
        RhaiFunc::Pure { func, .. } => push_marked(b'#', func.0, out),
        RhaiFunc::Method { func, .. } => push_marked(b'#', func.0, out),
        RhaiFunc::Iterator { func } => push_marked(b'#', func.0, out),
        RhaiFunc::Plugin { func } => push_marked(b'#', func.0, out),
        RhaiFunc::StaticPlugin { func } => push_marked(b'#', func.0, out),
        RhaiFunc::Script { fn_def, .. } => push_marked(b'@', fn_def.def().body.0, out),
    }
}

#[tactic(auto, unfolding(crate::specs::PrintedReplies::pick_text))]
fn push_pick(pick: &Option<Pick>, out: &mut Vec<u8>) -> Result<(), OutOfMemory>
    ensures { OnOk result (out.new.items ≡ out.old.items ++ pick_text pick.now) }
{
    match pick {
        None => Ok(out.extend_from_slice(b"-")?),
        Some(pick) => {
            push_layer(pick.layer, out)?;
            push_func(&pick.func, out)
        }
    }
}

/// Whose answer or fault it is, between two spaces, and the sign of an answer or of a fault.
fn answer_sign(whose: Whose, answered: bool) -> &'static [u8]
    ensures { result.now ≡ codes " " ++ whose_text whose ++ codes " " ++ (if answered then codes "= " else codes "! ") }
{
    match (whose, answered) {
        (Whose::Call, true) => b" call = ",
        (Whose::Call, false) => b" call ! ",
        (Whose::Called, true) => b" called = ",
        (Whose::Called, false) => b" called ! ",
        (Whose::Host, true) => b" host = ",
        (Whose::Host, false) => b" host ! ",
    }
}

/// Whose answer or fault it is, after a space, and then that.
#[tactic(auto, unfolding(crate::specs::PrintedReplies::result_text))]
fn push_result(
    alloc: Global,
    whose: Whose,
    answer: &Result<Dynamic, EvalAltResult>,
    out: &mut Vec<u8>,
) -> Result<(), OutOfMemory>
    ensures { OnOk result (out.new.items ≡ out.old.items ++ codes " " ++ whose_text whose ++ codes " " ++ result_text answer.now) }
{
    match answer {
        Ok(value) => {
            out.extend_from_slice(answer_sign(whose, true))?;
            push_value(alloc, value, out)
        }
        Err(fault) => {
            out.extend_from_slice(answer_sign(whose, false))?;
            push_fault(fault, out)
        }
    }
}

#[tactic(auto, unfolding(crate::specs::PrintedReplies::after_text))]
fn push_after(alloc: Global, after: Option<&Dynamic>, out: &mut Vec<u8>) -> Result<(), OutOfMemory>
    ensures { OnOk result (out.new.items ≡ out.old.items ++ after_text (option_copied after.entry)) }
{
    match after {
        None => Ok(()),
        Some(value) => {
            out.extend_from_slice(b" & ")?;
            push_value(alloc, value, out)
        }
    }
}

#[tactic(auto, unfolding(crate::specs::PrintedReplies::shown_text))]
fn push_shown(shown: Option<&Text>, out: &mut Vec<u8>) -> Result<(), OutOfMemory>
    ensures { OnOk result (out.new.items ≡ out.old.items ++ shown_text (option_copied shown.entry)) }
{
    match shown {
        None => Ok(()),
        Some(text) => {
            out.extend_from_slice(b" > ")?;
            push_quoted(text.as_str(), out)
        }
    }
}

/// A call with its answer, without the end of the line.
#[tactic(auto, unfolding(crate::specs::PrintedReplies::call_line))]
fn push_call_line(alloc: Global, node: &CallNode, out: &mut Vec<u8>) -> Result<(), OutOfMemory>
    ensures { OnOk result (out.new.items ≡ out.old.items ++ call_line (out-CallNode node.now).call (out-CallNode node.now).pick (out-CallNode node.now).whose (out-CallNode node.now).answer
        (out-CallNode node.now).extras.first_after (out-CallNode node.now).extras.printed) }
{
    push_label(&node.call, out)?;
    out.push(b' ')?;
    push_pick(&node.pick, out)?;
    push_result(alloc, node.whose, &node.answer, out)?;
    push_after(alloc, node.extras.first_after(), out)?;
    push_shown(node.extras.printed(), out)
}

/// Two spaces for each call above one of this level.
fn push_indent(level: u32, out: &mut Vec<u8>) -> Result<(), OutOfMemory>
    ensures { OnOk result (out.new.items ≡ out.old.items ++ indent level) }
{
    let spaces = 2 * (level as usize).saturating_sub(1);
    Ok(out.resize(out.len() + spaces, b' ')?)
}

/// A call on a line, and the calls that it led to on the lines after it.
#[cycle(trees)]
pub fn push_tree(alloc: Global, node: &CallNode, out: &mut Vec<u8>) -> Result<(), OutOfMemory>
    ensures { OnOk result (out.new.items ≡ out.old.items ++ tree_text node.now) }
{
    push_indent(node.level, out)?;
    push_call_line(alloc, node, out)?;
    out.push(b'\n')?;
    push_trees(alloc, &node.children, out)
}

#[cycle(trees)]
fn push_trees(alloc: Global, nodes: &Nodes, out: &mut Vec<u8>) -> Result<(), OutOfMemory>
    ensures { OnOk result (out.new.items ≡ out.old.items ++ nodes_text nodes.now) }
{
    for node in nodes.items.as_slice() {
        push_tree(alloc, node, out)?;
    }
    Ok(())
}
