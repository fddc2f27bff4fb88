//! Reading a text.

ghost use Rattle.std.specs.Prelude.{◌≡◌, true, ℕ, ◌+◌, ◌<◌, ◌≤◌, ◌^◌, length, IfOk, IfSome, OnOk, IsTrue};
ghost use Rattle.std.specs.Str.{is_utf8};
ghost use Rattle.std.specs.Str.Lines.{lines};
ghost use Rattle.rhd_func.specs.Infos.{infos_of};
ghost use Rattle.rhd_manifest.specs.Fits.{fits};
ghost use Rattle.rhd_engine.specs.Held.{builtins_held};
ghost use Rattle.rhd_plan.specs.declared.session.SessionText.{SessionText};
ghost use Rattle.rhd_text.specs.Session.{IsSession, IsFirstBad, ReadsText, ReadsNoOther, NamesNoOther};
ghost use Rattle.rhd_text.specs.ReadSession.{after_line, session_of};
ghost use Rattle.rhd_syntax.specs.Answers.{StepGives};
ghost use Rattle.rhd_text.specs.Answers.{Reads};

use crate::fault::TextFault;
use crate::forms::add_line;
use crate::line::is_skipped;
use crate::lines::first_line;
use crate::place::Place;
use rhd_func::Natives;
use rhd_plan::SessionText;
use rhd_syntax::{Stop, is_text};
use std::alloc::Global;

/// Reads one line after what is said so far. A line that is not known to be UTF-8 is tested.
#[tactic(auto, unfolding(crate::specs::ReadSession::after_line, crate::specs::ReadRows::line_by))]
fn read_line(
    alloc: Global,
    said: &mut SessionText,
    line: &[u8],
    place: Place,
    known: bool,
    natives: &Natives,
) -> Result<(), Stop>
    requires known { IsTrue known → is_utf8 line.now ≡ true }
    requires manifests { length said.old.manifests + 1 < 2 ^ 32 }
    ensures { StepGives result said.old said.new (after_line (infos_of info natives.now) place.line said.old line.now) }
{
    if !known && !is_text(line) {
        return Err(Stop::Bad);
    }
    if is_skipped(line) {
        return Ok(());
    }
    add_line(alloc, said, line, place, natives)
}

fn read_lines(alloc: Global, bytes: &[u8], natives: &Natives) -> Result<SessionText, TextFault>
    requires { length bytes.now < 2 ^ 32 }
    ensures reads { Reads result (session_of (infos_of info natives.now) (lines bytes.now)) }
    ensures few { OnOk result (length (lines bytes.now) ≤ length bytes.now) }
{
    let known = is_text(bytes);
    let mut said = SessionText::new(alloc);
    let mut rest = bytes;
    let mut number = 0u32;
    while !rest.is_empty() {
        let (line, after) = first_line(rest);
        number += 1;
        let place = Place { line: number };
        match read_line(alloc, &mut said, line, place, known, natives) {
            Ok(()) => {}
            Err(Stop::Bad) => return Err(TextFault::BadLine(number)),
            Err(Stop::Memory) => return Err(TextFault::OutOfMemory),
        }
        rest = after;
    }
    Ok(said)
}

/// The commands of a session text.
pub fn read_text(alloc: Global, bytes: &[u8], natives: &Natives) -> Result<SessionText, TextFault>
    requires { length bytes.now < 2 ^ 32 }
    // What it answers is what the bytes are.
    ensures reads { ReadsText (infos_of info natives.now) (lines bytes.now) result }
    // A session text is read as what it says, unless memory runs out.
    ensures text { (u : SessionText) → IsSession (infos_of info natives.now) (lines bytes.now) u → ReadsNoOther result u }
    // The first bad line is named, unless memory runs out.
    ensures bad { (number : ℕ) → IsFirstBad (infos_of info natives.now) number (lines bytes.now) → NamesNoOther result number }
    // The limits that it sets are allowed.
    ensures limits { IfOk result (λ t. IfSome t.limits (λ l. l.level ≤ 1000)) }
    // The natives of the built-in functions are held.
    ensures builtins { IfOk result (λ t. builtins_held (length natives.now.items.items) t.builtins ≡ true) }
    // What the manifests list fits the natives.
    ensures manifests { IfOk result (λ t. fits (infos_of info natives.now) t.manifests ≡ true) }
    // A command takes a line, and a line takes a byte.
    ensures count { IfOk result (λ t. length t.commands ≤ length bytes.now) }
{
    read_lines(alloc, bytes, natives)
}
