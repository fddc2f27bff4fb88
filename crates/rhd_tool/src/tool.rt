//! The program's one call.

ghost use Rattle.std.specs.Prelude.{ℕ, Some, None, ◌^◌, ◌≡◌, ◌≢◌, ◌↔◌, ◌⊎◌, ◌<◌, ◌≤◌, true, List, [], IfOk, IfErr, length, take, IsTrue};
ghost use Rattle.std.specs.Io.KnownBytes.{Appends};
ghost use Rattle.std.specs.Str.Lines.{lines};
ghost use Rattle.rhd_func.specs.Infos.{infos_of};
ghost use Rattle.rhd_manifest.specs.Fits.{fits};
ghost use Rattle.rhd_engine.specs.Held.{builtins_held};
ghost use Rattle.rhd_plan.specs.declared.session.SessionText.{SessionText};
ghost use Rattle.rhd_text.specs.Session.{IsSession, IsFirstBad};
ghost use Rattle.rhd_print.specs.PrintedReplies.{all_printed};
ghost use Rattle.rhd_streams.specs.Causes.{Rose};
ghost use Rattle.rhd_streams.specs.Streams.{CameMore, WrotePart, WroteLess};
ghost use Rattle.rhd_tool.specs.Handed.{handed_of};
ghost use Rattle.rhd_tool.specs.Ends.{AskForRun, most_bytes, limits_of, IsAnswered, AskedAfterAll, Ran, RanPart, WasBad, WasDone, WasCut, WasStarved};

use crate::writing::write_replies;
use rhd_call::{Replies, Stopped};
use rhd_engine::Limits;
use rhd_files::MemFiles;
use rhd_func::Natives;
use rhd_hash::Seeds;
use rhd_kit::{PlanBodies, TableHost};
use rhd_loader::PlanLoader;
use rhd_session::Session;
use rhd_streams::{ReadEnd, Sink, SinkFault, Source, read_whole};
use rhd_text::{SessionText, TextFault, read_text};
use std::alloc::Global;

/// The most bytes that a text may have.
const MOST: usize = 16_777_216;

/// The seeds where a text sets none.
const DEFAULT_SEEDS: Seeds = Seeds {
    seed0: 0,
    seed1: 0,
    mask: u64::MAX,
};

/// How a run ended.
#[derive(Drop)]
pub struct ToolEnd {
    /// The exit status of the program.
    pub status: u8,
    /// The first bad line, counted from 1, where that is why it ended; else 0.
    pub line: u32,
    /// The replies to the commands of the text.
    pub replies: Replies,
    /// The session that answered them, where one was made. To drop it takes time, so a program that ends
    /// with it may forget it.
    pub session: Option<TextSession>,
}

/// The session of a text.
type TextSession = Session<MemFiles, PlanLoader>;

fn end(alloc: Global, status: u8, line: u32) -> ToolEnd
    ensures { result ≡ record { status = status; line = line; replies = []; session = None } }
{
    ToolEnd {
        status,
        line,
        replies: Replies::new(alloc),
        session: None,
    }
}

/// Writes the replies to all commands, which this session answered.
fn end_written<K: Sink>(
    alloc: Global,
    replies: Replies,
    session: Option<TextSession>,
    sink: &mut K,
) -> ToolEnd
    ensures statuses { (result.status ≡ 0) ⊎ (result.status ≡ 4) ⊎ (result.status ≡ 5) }
    ensures line { result.line ≡ 0 }
    ensures replies { result.replies ≡ replies }
    ensures all { result.status ≡ 0 → Appends (K.written sink.old) (K.written sink.new) (all_printed replies) }
    ensures part { WrotePart (K.written sink.old) (K.written sink.new) (all_printed replies) }
    ensures short { result.status ≡ 4 → WroteLess (K.written sink.old) (K.written sink.new) (all_printed replies) }
    ensures fault { result.status ≡ 4 → Rose (K.faults sink.old) (K.faults sink.new) }
    ensures later { K.faults sink.old ≤ K.faults sink.new }
{
    let status = match write_replies(alloc, replies.as_slice(), sink) {
        Ok(()) => 0,
        Err(SinkFault::Failed) => 4,
        Err(SinkFault::OutOfMemory) => 5,
    };
    ToolEnd {
        status,
        line: 0,
        replies,
        session,
    }
}

/// The replies to the commands of a text, in a new session, and that session, where one was made.
fn answer(
    alloc: Global,
    natives: Natives,
    text: SessionText,
) -> (Result<Replies, Stopped>, Option<TextSession>)
    requires level { (limits_of text).level ≤ 1000 }
    requires builtins { builtins_held (length natives.items.items) text.builtins ≡ true }
    requires fits { fits (infos_of info natives) text.manifests ≡ true }
    requires count { length text.commands < 2 ^ 32 }
    ensures all { IfOk result.0 (IsAnswered (handed_of allows_call allows_resume info natives) text text.commands) }
    ensures count { IfOk result.0 (λ replies. length replies ≡ length text.commands) }
    ensures some { IfErr result.0 (λ s. IsAnswered (handed_of allows_call allows_resume info natives) text (take (length s.replies) text.commands) s.replies) }
{
    let SessionText {
        seeds,
        limits,
        printers,
        builtins,
        hosts,
        files,
        manifests,
        bodies,
        commands,
    } = text;
    let seeds = seeds.unwrap_or(DEFAULT_SEEDS);
    let limits = limits.unwrap_or(Limits::DEFAULT);
    let mut host = TableHost::new(hosts);
    let mut bodies = PlanBodies::new(bodies);
    let files = MemFiles::new(files, Vec::new(alloc));
    let loader = PlanLoader::new();
    let Ok(mut session) = Session::new(
        alloc, natives, manifests, files, loader, seeds, limits, builtins, printers,
    ) else {
        let stopped = Stopped {
            replies: Replies::new(alloc),
        };
        return (Err(stopped), None);
    };
    let answered = session.run_commands(alloc, commands, &mut host, &mut bodies);
    (answered, Some(session))
}

/// Answers the commands of a text, and writes the replies where all commands are answered.
fn answer_and_write<K: Sink>(
    alloc: Global,
    natives: Natives,
    text: SessionText,
    sink: &mut K,
) -> ToolEnd
    requires level { (limits_of text).level ≤ 1000 }
    requires builtins { builtins_held (length natives.items.items) text.builtins ≡ true }
    requires fits { fits (infos_of info natives) text.manifests ≡ true }
    requires count { length text.commands < 2 ^ 32 }
    ensures statuses { (result.status ≡ 0) ⊎ (result.status ≡ 4) ⊎ (result.status ≡ 5) }
    ensures line { result.line ≡ 0 }
    ensures all { (result.status ≡ 0) ⊎ (result.status ≡ 4) → IsAnswered (handed_of allows_call allows_resume info natives) text text.commands result.replies }
    ensures some { IsAnswered (handed_of allows_call allows_resume info natives) text (take (length result.replies) text.commands) result.replies }
    ensures asked { AskedAfterAll sink.old sink.new (length text.commands) (length result.replies) }
    ensures done { result.status ≡ 0 → Appends (K.written sink.old) (K.written sink.new) (all_printed result.replies) }
    ensures part { WrotePart (K.written sink.old) (K.written sink.new) (all_printed result.replies) }
    ensures short { result.status ≡ 4 → WroteLess (K.written sink.old) (K.written sink.new) (all_printed result.replies) }
    ensures fault { result.status ≡ 4 → Rose (K.faults sink.old) (K.faults sink.new) }
    ensures later { K.faults sink.old ≤ K.faults sink.new }
{
    let (answered, session) = answer(alloc, natives, text);
    match answered {
        Ok(replies) => end_written(alloc, replies, session, sink),
        Err(stopped) => ToolEnd {
            status: 5,
            line: 0,
            replies: stopped.replies,
            session,
        },
    }
}

/// Runs the text that these bytes are.
fn run_bytes<K: Sink>(alloc: Global, natives: Natives, bytes: &[u8], sink: &mut K) -> ToolEnd
    requires { length bytes.now ≤ most_bytes }
    ensures statuses { (result.status ≡ 0) ⊎ (result.status ≡ 2) ⊎ (result.status ≡ 4) ⊎ (result.status ≡ 5) }
    ensures line { (result.status ≡ 2) ⊎ (result.line ≡ 0) }
    ensures ran { (result.status ≡ 0) ⊎ (result.status ≡ 4) → Ran (handed_of allows_call allows_resume info natives) bytes.now result.replies }
    ensures made { result.status ≡ 5 → RanPart (handed_of allows_call allows_resume info natives) bytes.now sink.old sink.new result.replies }
    ensures done { result.status ≡ 0 → Appends (K.written sink.old) (K.written sink.new) (all_printed result.replies) }
    ensures part { WrotePart (K.written sink.old) (K.written sink.new) (all_printed result.replies) }
    ensures short { result.status ≡ 4 → WroteLess (K.written sink.old) (K.written sink.new) (all_printed result.replies) }
    ensures bad { result.status ≡ 2 → IsFirstBad (infos_of info natives) result.line (lines bytes.now) × (K.written sink.new ≡ K.written sink.old) × (result.replies ≡ []) }
    ensures untouched { result.status ≡ 2 → sink.new ≡ sink.old }
    ensures idle { result.status ≡ 2 → result.session ≡ None }
    ensures fault { result.status ≡ 4 → Rose (K.faults sink.old) (K.faults sink.new) }
    ensures later { K.faults sink.old ≤ K.faults sink.new }
    ensures text { (text : SessionText) → IsSession (infos_of info natives) (lines bytes.now) text → result.status ≢ 2 }
    ensures first { (n : ℕ) → IsFirstBad (infos_of info natives) n (lines bytes.now) → (result.status ≡ 2) × (result.line ≡ n) ⊎ (result.status ≡ 5) }
{
    match read_text(alloc, bytes, &natives) {
        Err(TextFault::BadLine(line)) => end(alloc, 2, line),
        Err(TextFault::OutOfMemory) => end(alloc, 5, 0),
        Ok(text) => answer_and_write(alloc, natives, text, sink),
    }
}

fn is_run(words: &[String]) -> bool
    ensures { IsTrue result ↔ AskForRun words.now }
{
    match words {
        [word] => word.as_str() == "run",
        _ => false,
    }
}

/// Reads the source to its end, runs the commands of the text on a new session with these natives, and
/// writes the replies, printed.
///
/// The words are those after the program's name. Reading comes before the test of the text, which comes
/// before running.
pub fn run_tool<S: Source, K: Sink>(
    alloc: Global,
    words: &[String],
    source: &mut S,
    sink: &mut K,
    natives: Natives,
) -> ToolEnd
    // The status is one of seven.
    ensures statuses { result.status ≤ 6 }
    // 0: all bytes of the source are a session text, its commands were answered one after the other in a
    // new session, and all replies were written, printed.
    ensures done { result.status ≡ 0 → WasDone (handed_of allows_call allows_resume info natives) (S.left source.old) (S.left source.new) (K.written sink.old) (K.written sink.new) result.replies }
    // 1: exactly where the words are not `run`.
    ensures words { (result.status ≡ 1) ↔ (¬ (AskForRun words.now)) }
    // 2: the bytes are no session text, and this line is the first bad one.
    ensures bad { result.status ≡ 2 → WasBad (infos_of info natives) (S.left source.old) (S.left source.new) result.line }
    // 3: only where the source failed.
    ensures read { result.status ≡ 3 → Rose (S.faults source.old) (S.faults source.new) }
    // 4: only where the sink failed; all commands were answered, and a front of the printed replies was
    // written.
    ensures write { result.status ≡ 4 → Rose (K.faults sink.old) (K.faults sink.new) }
    ensures cut { result.status ≡ 4 → WasCut (handed_of allows_call allows_resume info natives) (S.left source.old) (S.left source.new) (K.written sink.old) (K.written sink.new) result.replies }
    // 5: memory ran out; the replies answer as many of the first commands, the sink was asked to write
    // only where these are all, and a front of the printed replies was written.
    ensures stopped { result.status ≡ 5 → WasStarved (handed_of allows_call allows_resume info natives) (S.left source.old) (S.left source.new) sink.old sink.new result.replies }
    ensures part { result.status ≡ 5 → WrotePart (K.written sink.old) (K.written sink.new) (all_printed result.replies) }
    // 6: more bytes came than a text may have.
    ensures many { result.status ≡ 6 → CameMore most_bytes (S.left source.old) (S.left source.new) }
    // A line is named for status 2 alone.
    ensures line { (result.status ≡ 2) ⊎ (result.line ≡ 0) }
    // For 1, 2, 3 and 6 nothing was written, and there are no replies.
    ensures nothing { (result.status ≡ 1) ⊎ (result.status ≡ 2) ⊎ (result.status ≡ 3) ⊎ (result.status ≡ 6) → (K.written sink.new ≡ K.written sink.old) × (result.replies ≡ []) }
    // For 1 the source was not asked for anything.
    ensures unread { result.status ≡ 1 → source.new ≡ source.old }
    // For 1, 2, 3 and 6 the sink was not asked to write, also where it tells no bytes.
    ensures untouched { (result.status ≡ 1) ⊎ (result.status ≡ 2) ⊎ (result.status ≡ 3) ⊎ (result.status ≡ 6) → sink.new ≡ sink.old }
    // Nor was a session made.
    ensures idle { (result.status ≡ 1) ⊎ (result.status ≡ 2) ⊎ (result.status ≡ 3) ⊎ (result.status ≡ 6) → result.session ≡ None }
    // 4: what was written is less than all.
    ensures short { result.status ≡ 4 → WroteLess (K.written sink.old) (K.written sink.new) (all_printed result.replies) }
    // A session text of at most that many bytes ends with 0, unless the source or the sink failed or
    // memory ran out.
    ensures complete { (bytes : List ℕ) (text : SessionText) → AskForRun words.now → S.left source.old ≡ Some bytes → length bytes ≤ most_bytes → IsSession (infos_of info natives) (lines bytes) text
        → ¬ (Rose (S.faults source.old) (S.faults source.new)) → ¬ (Rose (K.faults sink.old) (K.faults sink.new)) → (result.status ≡ 0) ⊎ (result.status ≡ 5) }
    // One that isn't a session text ends with 2 and its first bad line, unless the source failed or memory
    // ran out.
    ensures refused { (bytes : List ℕ) (n : ℕ) → AskForRun words.now → S.left source.old ≡ Some bytes → length bytes ≤ most_bytes → IsFirstBad (infos_of info natives) n (lines bytes)
        → ¬ (Rose (S.faults source.old) (S.faults source.new)) → (result.status ≡ 2) × (result.line ≡ n) ⊎ (result.status ≡ 5) }
    // One of more bytes ends with 6, unless the source failed or memory ran out.
    ensures large { (bytes : List ℕ) → AskForRun words.now → S.left source.old ≡ Some bytes → most_bytes < length bytes
        → ¬ (Rose (S.faults source.old) (S.faults source.new)) → (result.status ≡ 6) ⊎ (result.status ≡ 5) }
{
    if !is_run(words) {
        return end(alloc, 1, 0);
    }
    match read_whole(alloc, source, MOST) {
        Err(ReadEnd::Failed) => end(alloc, 3, 0),
        Err(ReadEnd::TooMany) => end(alloc, 6, 0),
        Err(ReadEnd::OutOfMemory) => end(alloc, 5, 0),
        Ok(bytes) => run_bytes(alloc, natives, &bytes, sink),
    }
}
