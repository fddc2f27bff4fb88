//! Runs the texts of its input, and prints each with what it gives.
//!
//! A line that begins with `== ` begins a block and says how the lines up to the next block are run;
//! after a semicolon there it may say what they show. Lines before the first block are a remark.
//!
//! | Block | Its lines |
//! |---|---|
//! | `text` | are a text |
//! | `bad` | but for the first are tried one by one, each after the first |
//! | `cuts` | are a text, which is also tried cut after each of its bytes |
//! | `stream FAILS MOST FAILS MOST` | are a text, read from and answered to memory: the source's call of that number fails, none for 0, and a call moves so many bytes at most; then the sink's |
//! | `repeat CHARACTER COUNT` | come after so many of the character |
//! | `words WORD,..` | are a text, run on these words in the place of `run`, each ended by a comma |
//!
//! A line stands for its bytes and a line feed. Between backticks bytes are written in hexadecimal, with
//! a blank between two; nothing between backticks takes the line feed from the end of its line.
#![tactic(auto)]

use rhd_func::{Natives, PluginFunc};
use rhd_tool::{MemSink, MemSource, kit, run_tool};
use std::alloc::Global;
use std::io;

/// How a run ended: its status, the line that it names, and the number of its replies.
#[derive(Clone, Copy, PartialEq, Eq)]
struct Ended {
    status: u8,
    line: u32,
    replies: usize,
}

/// What a run comes to for which no natives could be made.
const UNMADE: Ended = Ended {
    status: 255,
    line: 0,
    replies: 0,
};

/// Streams of which no call fails or is bounded.
const FREE: [u64; 4] = [0, u64::MAX, 0, u64::MAX];

/// Runs the tool with the kit's natives.
fn run_kit(alloc: Global, words: &[String], source: &mut MemSource, sink: &mut MemSink) -> Ended {
    let mut natives = Natives::new(alloc);
    kit!(alloc, natives, return UNMADE);
    let end = run_tool(alloc, words, source, sink, natives);
    Ended {
        status: end.status,
        line: end.line,
        replies: end.replies.len(),
    }
}

/// The words that end with a comma each.
fn words_of(alloc: Global, listed: &str) -> io::Result<Vec<String>> {
    let mut words = Vec::new(alloc);
    let count = listed.split(',').count();
    for word in listed.split(',').take(count.saturating_sub(1)) {
        words.push(String::from_str(alloc, word)?)?;
    }
    Ok(words)
}

/// Runs a text over these streams; the answer has what was written besides.
fn run_text(
    alloc: Global,
    words: &str,
    streams: [u64; 4],
    text: &[u8],
) -> io::Result<(Ended, String)> {
    let words = words_of(alloc, words)?;
    let [reads, read_most, writes, write_most] = streams;
    let bytes = Vec::from_slice(alloc, text)?;
    let mut source = MemSource::new(bytes, vec![in alloc; reads]?, read_most.max(1));
    let mut sink = MemSink::new(alloc, vec![in alloc; writes]?, write_most.max(1));
    let end = run_kit(alloc, words.as_slice(), &mut source, &mut sink);
    let written = String::from_utf8_lossy(alloc, sink.bytes())?;
    Ok((end, written))
}

fn show_end(rt: &impl Print, end: Ended) -> io::Result<()> {
    print!(rt;
        "status {} line {} replies {}",
        end.status, end.line, end.replies
    )
}

/// Runs a text over these streams, and prints what was written and how it ended.
fn show_run(
    rt: &impl Print,
    alloc: Global,
    words: &str,
    streams: [u64; 4],
    text: &[u8],
) -> io::Result<()> {
    let (end, written) = run_text(alloc, words, streams, text)?;
    print!(rt; "{written}")?;
    if !written.is_empty() && !written.ends_with('\n') {
        println!(rt;)?;
    }
    show_end(rt, end)?;
    println!(rt;)
}

/// Tries a text cut after each of its bytes, and prints from how many bytes on it ends in another way.
fn show_cuts(rt: &impl Print, alloc: Global, text: &[u8]) -> io::Result<()> {
    let mut latest = UNMADE;
    for len in 0..=text.len() {
        let (end, _written) = run_text(alloc, "run,", FREE, &text[..len])?;
        if end != latest {
            latest = end;
            print!(rt; "{len} bytes: ")?;
            show_end(rt, end)?;
            println!(rt;)?;
        }
    }
    Ok(())
}

/// Tries a line after the lines of a text, and prints how that ended.
fn show_after(rt: &impl Print, alloc: Global, text: &[u8], line: &str) -> io::Result<()> {
    let mut text = Vec::from_slice(alloc, text)?;
    push_line(&mut text, line)?;
    let (end, written) = run_text(alloc, "run,", FREE, &text)?;
    print!(rt; "{written}")?;
    show_end(rt, end)?;
    println!(rt; " > {line}")
}

/// Adds the bytes of a line, and answers whether a line feed is to follow.
fn push_bytes(text: &mut Vec<u8>, line: &str) -> io::Result<bool> {
    let mut is_whole = true;
    let mut is_code = false;
    for piece in line.split('`') {
        if !is_code {
            text.extend_from_slice(piece.as_bytes())?;
        } else if piece.is_empty() {
            is_whole = false;
        } else {
            push_codes(text, piece)?;
        }
        is_code = !is_code;
    }
    Ok(is_whole)
}

/// Adds the bytes that are written in hexadecimal.
fn push_codes(text: &mut Vec<u8>, codes: &str) -> io::Result<()> {
    for code in codes.split(' ') {
        text.push(u8::from_str_radix(code, 16).unwrap_or(b'?'))?;
    }
    Ok(())
}

/// Adds a line to a text.
fn push_line(text: &mut Vec<u8>, line: &str) -> io::Result<()> {
    if push_bytes(text, line)? {
        text.push(b'\n')?;
    }
    Ok(())
}

/// The number that a word is; 0 for another.
fn number_of(word: Option<&str>) -> u64 {
    match word {
        Some(word) => word.parse().unwrap_or(0),
        None => 0,
    }
}

/// The four numbers of a header.
fn streams_of(header: &str) -> [u64; 4] {
    let mut words = header.split(' ').skip(1);
    let reads = number_of(words.next());
    let read_most = number_of(words.next());
    let writes = number_of(words.next());
    [reads, read_most, writes, number_of(words.next())]
}

/// Adds the character that a header names, as often as it says.
fn push_repeated(alloc: Global, text: &mut Vec<u8>, header: &str) -> io::Result<()> {
    let mut words = header.split(' ').skip(1);
    let mut bytes = Vec::new(alloc);
    push_bytes(&mut bytes, words.next().unwrap_or(""))?;
    for _ in 0..number_of(words.next()) {
        text.extend_from_slice(&bytes)?;
    }
    Ok(())
}

/// Prints a block, and runs its text.
fn show_block(rt: &impl Print, alloc: Global, block: &str) -> io::Result<()> {
    let mut lines = block.split('\n');
    let header = lines.next().unwrap_or("");
    let kind = header.split(' ').next().unwrap_or("");
    println!(rt; "== {header}")?;
    let mut text = Vec::new(alloc);
    if kind == "repeat" {
        push_repeated(alloc, &mut text, header)?;
    }
    for line in lines {
        if kind == "bad" && !text.is_empty() {
            show_after(rt, alloc, &text, line)?;
        } else {
            println!(rt; "> {line}")?;
            push_line(&mut text, line)?;
        }
    }
    match kind {
        "bad" => Ok(()),
        "cuts" => {
            show_cuts(rt, alloc, &text)?;
            show_run(rt, alloc, "run,", FREE, &text)
        }
        "stream" => show_run(rt, alloc, "run,", streams_of(header), &text),
        "words" => show_run(
            rt,
            alloc,
            header.split(' ').nth(1).unwrap_or(""),
            FREE,
            &text,
        ),
        _ => show_run(rt, alloc, "run,", FREE, &text),
    }
}

fn main(rt: HostRuntime) -> io::Result<()> {
    let alloc = rt.alloc();
    let input = io::read_to_string(alloc, rt.reader())?;
    let input = input.as_str();
    let input = input.strip_suffix('\n').unwrap_or(input);
    for block in input.split("\n== ").skip(1) {
        show_block(&rt, alloc, block)?;
    }
    Ok(())
}
