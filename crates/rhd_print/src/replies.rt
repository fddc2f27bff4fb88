//! Replies as text, one line for each.

ghost use Rattle.std.specs.Prelude.{◌≡◌, ◌++◌, ◌∷◌, ◌≤◌, [], ℕ, length, take, OnOk, OnErr, codes};
ghost use Rattle.std.specs.Fmt.{decimal};
ghost use Rattle.rhd_value.specs.Seen.{fault_seen};
ghost use Rattle.rhd_print.specs.PrintedKeys.{key_text};
ghost use Rattle.rhd_print.specs.PrintedReplies.{spelled_fault, spelled_refusal, truth_text, printed, all_printed};

use crate::keys::push_key;
use crate::nodes::{push_fault, push_tree};
use crate::quotes::push_number;
use rhd_call::Reply;
use rhd_hash::Key;
use rhd_module::DeclFault;
use rhd_value::{EvalAltResult, OutOfMemory};
use std::alloc::Global;

/// Room for the bytes of the lines of most replies.
const MOST_BYTES: usize = 128;

/// Puts two keys at the end, with a space between.
fn push_keys(alloc: Global, held: &Key, new: &Key, out: &mut Vec<u8>) -> Result<(), OutOfMemory>
    ensures { OnOk result (out.new.items ≡ out.old.items ++ (key_text held.now ++ codes " " ++ key_text new.now)) }
{
    push_key(alloc, held, out)?;
    out.push(b' ')?;
    push_key(alloc, new, out)
}

/// Puts the number of a refusal and its parts at the end.
#[tactic(auto, unfolding(crate::specs::PrintedReplies::spelled_refusal))]
fn push_refusal(alloc: Global, fault: &DeclFault, out: &mut Vec<u8>) -> Result<(), OutOfMemory>
    ensures { OnOk result (out.new.items ≡ out.old.items ++ spelled_refusal fault.now) }
{
    match fault {
        DeclFault::HashCollision { held, new } => {
            out.extend_from_slice(b"1 ")?;
            push_keys(alloc, held.key(), new.key(), out)
        }
        DeclFault::IndexerNotAllowed { key } => {
            out.extend_from_slice(b"2 ")?;
            push_key(alloc, key.key(), out)
        }
        DeclFault::NotCallable => Ok(out.extend_from_slice(b"3")?),
        DeclFault::UnknownNumber { number, length } => {
            out.extend_from_slice(b"4 ")?;
            push_number(*number, out)?;
            out.push(b' ')?;
            push_number(*length, out)
        }
        DeclFault::OutOfMemory => Ok(out.extend_from_slice(b"5")?),
    }
}

/// Puts the fault of a resolver at the end, and the end of the line.
fn push_fault_line(fault: &EvalAltResult, out: &mut Vec<u8>) -> Result<(), OutOfMemory>
    ensures { OnOk result (out.new.items ≡ out.old.items ++ (codes "! " ++ spelled_fault (fault_seen fault.now) ++ 10 ∷ [])) }
{
    out.extend_from_slice(b"! ")?;
    push_fault(fault, out)?;
    Ok(out.push(b'\n')?)
}

/// Puts three counts at the end, and the end of the line.
fn push_counts(
    vars: u64,
    functions: u64,
    iterators: u64,
    out: &mut Vec<u8>,
) -> Result<(), OutOfMemory>
    ensures { OnOk result (out.new.items ≡ out.old.items ++ (codes "count " ++ decimal vars ++ codes " " ++ decimal functions ++ codes " " ++ decimal iterators ++ 10 ∷ [])) }
{
    out.extend_from_slice(b"count ")?;
    push_number(vars, out)?;
    out.push(b' ')?;
    push_number(functions, out)?;
    out.push(b' ')?;
    push_number(iterators, out)?;
    Ok(out.push(b'\n')?)
}

/// Whether something is so, and the end of the line.
fn truth_line(truth: bool) -> &'static [u8]
    ensures { result.now ≡ truth_text truth ++ 10 ∷ [] }
{
    match truth {
        true => b"true\n",
        false => b"false\n",
    }
}

/// Puts the lines of a reply at the end, or a part of them where memory runs out.
#[tactic(auto, unfolding(crate::specs::PrintedReplies::printed))]
fn push_lines(alloc: Global, reply: &Reply, lines: &mut Vec<u8>) -> Result<(), OutOfMemory>
    ensures { OnOk result (lines.new.items ≡ lines.old.items ++ printed reply.now) }
{
    match reply {
        Reply::Done => lines.extend_from_slice(b"ok\n")?,
        Reply::Made(module) => {
            lines.extend_from_slice(b"module ")?;
            push_number(u64::from(module.0), lines)?;
            lines.push(b'\n')?;
        }
        Reply::Fault(fault) => push_fault_line(fault, lines)?,
        Reply::Refused(fault) => {
            lines.extend_from_slice(b"refused ")?;
            push_refusal(alloc, fault, lines)?;
            lines.push(b'\n')?;
        }
        Reply::Count(vars, functions, iterators) => push_counts(
            *vars, *functions, *iterators, lines,
        )?,
        Reply::Truth(truth) => lines.extend_from_slice(truth_line(*truth))?,
        Reply::Called(node) => push_tree(alloc, node, lines)?,
    }
    Ok(())
}

/// Puts the lines of a reply at the end, all or none, by way of a vector that they are made in.
fn print_by(
    alloc: Global,
    reply: &Reply,
    lines: &mut Vec<u8>,
    out: &mut Vec<u8>,
) -> Result<(), OutOfMemory>
    ensures ok { OnOk result (out.new.items ≡ out.old.items ++ printed reply.now) }
    ensures err { OnErr result (out.new.items ≡ out.old.items) }
{
    lines.clear();
    push_lines(alloc, reply, lines)?;
    Ok(out.append(lines)?)
}

/// Puts the lines of a reply at the end. Each ends with a line feed.
///
/// A refusal for want of memory is never a reply, yet has a line, so that each reply has one.
pub fn print_reply(alloc: Global, reply: &Reply, out: &mut Vec<u8>) -> Result<(), OutOfMemory>
    ensures ok { OnOk result (out.new.items ≡ out.old.items ++ printed reply.now) }
    ensures err { OnErr result (out.new.items ≡ out.old.items) }
{
    let mut lines = Vec::with_capacity(alloc, MOST_BYTES)?;
    print_by(alloc, reply, &mut lines, out)
}

/// Puts the lines of replies at the end, in order.
///
/// Where memory runs out, those of the first replies stand there, each reply's as a whole.
pub fn print_replies(alloc: Global, replies: &[Reply], out: &mut Vec<u8>) -> Result<(), OutOfMemory>
    ensures ok { OnOk result (out.new.items ≡ out.old.items ++ all_printed replies.now) }
    ensures err { OnErr result ((n : ℕ) × (n ≤ length replies.now) × (out.new.items ≡ out.old.items ++ all_printed (take n replies.now))) }
{
    let mut lines = Vec::with_capacity(alloc, MOST_BYTES)?;
    for reply in replies {
        print_by(alloc, reply, &mut lines, out)?;
    }
    Ok(())
}
