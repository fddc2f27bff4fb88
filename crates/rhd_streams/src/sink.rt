//! Where bytes go.

ghost use Rattle.std.specs.Prelude.{◌≡◌, ◌<◌, ◌≤◌, List, [], ℕ, Option, Some, None, IfSome, length, min, take, IfOk, IfErr};
ghost use Rattle.std.specs.Io.KnownBytes.{WriteAppends, Appends, Keeps};
ghost use Rattle.rhd_streams.specs.Causes.{HasSinkCause};

use std::alloc::Global;
use std::io::{ErrorKind, Write};

/// Why a write gave no count.
#[derive(Clone, Copy, Debug, PartialEq, Eq)]
pub enum SinkFault {
    Failed,
    OutOfMemory,
}

/// A sink of bytes, which counts its faults.
pub trait Sink {
    /// The bytes that were written, where the sink tells them.
    ghost written: { Self → Option (List ℕ) };

    /// How many writes have failed. The count stands still at the greatest `u64`.
    ghost faults: { Self → ℕ };

    /// Takes bytes from the front of `piece` and answers how many; of a `piece` that isn't empty, at
    /// least one.
    fn write(&mut self, piece: &[u8]) -> Result<usize, SinkFault>
        ensures bound { IfOk result (λ n. n ≤ length piece.now) }
        ensures some { 0 < length piece.now → IfOk result (λ n. 0 < n) }
        ensures bytes { WriteAppends (written self.old) (written self.new) result piece.now }
        ensures cause { HasSinkCause (faults self.old) (faults self.new) result };
}

/// Any writer of std. It tells the bytes that were written where the writer does. A write of nothing is
/// a fault.
#[derive(Drop)]
pub struct Writing<W: Write + Drop> {
    inner: W,
    faults: u64,
}

impl<W: Write + Drop> Writing<W> {
    pub fn new(inner: W) -> Self
        ensures faults { ⟦<Writing<W> as Sink>⟧.faults result ≡ 0 }
        ensures written { ⟦<Writing<W> as Sink>⟧.written result ≡ W.contents inner }
    {
        Writing { inner, faults: 0 }
    }
}

/// One write, called again where a signal interrupts it; none where it failed or took nothing.
fn write_once<W: Write>(writer: &mut W, piece: &[u8]) -> Option<usize>
    ensures within { IfSome result (λ n. n ≤ length piece.now) }
    ensures some { IfSome result (λ n. 0 < n) }
    ensures bytes { IfSome result (λ n. Appends (W.contents writer.old) (W.contents writer.new) (take n piece.now)) }
    ensures none { result ≡ None → Keeps (W.contents writer.old) (W.contents writer.new) }
{
    for _ in 0..u64::MAX {
        match writer.write(piece) {
            Ok(0) => return None,
            Ok(count) => return Some(count),
            Err(error) => {
                if error.kind() != ErrorKind::Interrupted {
                    return None;
                }
            }
        }
    }
    None
}

impl<W: Write + Drop> Sink for Writing<W> {
    ghost written = { λ s. W.contents s.inner };

    ghost faults = { λ s. s.faults };

    fn write(&mut self, piece: &[u8]) -> Result<usize, SinkFault> {
        match write_once(&mut self.inner, piece) {
            Some(count) => Ok(count),
            None => {
                self.faults = self.faults.saturating_add(1);
                Err(SinkFault::Failed)
            }
        }
    }
}

/// A list of what was written; the calls whose numbers are listed fail, counted from 1.
#[derive(Drop)]
pub struct MemSink {
    bytes: Vec<u8>,
    fails: Vec<u64>,
    most: u64,
    calls: u64,
    faults: u64,
    ghost some: { 0 < most },
}

impl MemSink {
    /// `most` is the most bytes that one call takes.
    pub fn new(alloc: Global, fails: Vec<u64>, most: u64) -> Self
        requires { 0 < most }
        ensures written { ⟦<MemSink as Sink>⟧.written result ≡ Some [] }
        ensures faults { ⟦<MemSink as Sink>⟧.faults result ≡ 0 }
        ensures calls { result.calls ≡ 0 }
        ensures listed { result.fails.items ≡ fails.items }
        ensures most { result.most ≡ most }
    {
        MemSink {
            bytes: Vec::new(alloc),
            fails,
            most,
            calls: 0,
            faults: 0,
        }
    }

    /// The bytes that were written.
    pub fn bytes(&self) -> &[u8]
        ensures { ⟦<MemSink as Sink>⟧.written self.now ≡ Some result.now }
    {
        self.bytes.as_slice()
    }
}

/// The lesser of two numbers.
fn lesser(a: usize, b: u64) -> usize
    ensures { result ≡ min a b }
{
    if b < a as u64 { b as usize } else { a }
}

impl Sink for MemSink {
    ghost use Rattle.rhd_streams.specs.Memory.{bytes_written, next_call, fails_next, is_failed};

    ghost written = { λ s. Some (bytes_written s) };

    ghost faults = { λ s. s.faults };

    fn write(&mut self, piece: &[u8]) -> Result<usize, SinkFault>
        ensures bound { IfOk result (λ n. n ≤ length piece.now) }
        ensures some { 0 < length piece.now → IfOk result (λ n. 0 < n) }
        ensures bytes { WriteAppends (Some (bytes_written self.old)) (Some (bytes_written self.new)) result piece.now }
        ensures cause { HasSinkCause self.old.faults self.new.faults result }
        ensures failed { is_failed result ≡ fails_next self.old.calls self.old.fails.items }
        ensures count { IfOk result (λ n. n ≡ min (length piece.now) self.old.most) }
        ensures calls { self.new.calls ≡ next_call self.old.calls }
        ensures kept { (self.new.fails.items ≡ self.old.fails.items) × (self.new.most ≡ self.old.most) }
    {
        self.calls = self.calls.saturating_add(1);
        if self.fails.contains(&self.calls) {
            self.faults = self.faults.saturating_add(1);
            return Err(SinkFault::Failed);
        }
        let count = lesser(piece.len(), self.most);
        match self.bytes.extend_from_slice(&piece[..count]) {
            Ok(()) => Ok(count),
            Err(_) => Err(SinkFault::OutOfMemory),
        }
    }
}

/// A list of what was written; no call fails but for want of memory.
#[derive(Drop)]
pub struct PlainSink {
    bytes: Vec<u8>,
}

impl PlainSink {
    pub fn new(alloc: Global) -> Self
        ensures written { ⟦<PlainSink as Sink>⟧.written result ≡ Some [] }
        ensures faults { ⟦<PlainSink as Sink>⟧.faults result ≡ 0 }
    {
        PlainSink {
            bytes: Vec::new(alloc),
        }
    }

    /// The bytes that were written.
    pub fn bytes(&self) -> &[u8]
        ensures { ⟦<PlainSink as Sink>⟧.written self.now ≡ Some result.now }
    {
        self.bytes.as_slice()
    }
}

impl Sink for PlainSink {
    ghost written = { λ s. Some s.bytes.items };

    ghost faults = { λ _. 0 };

    fn write(&mut self, piece: &[u8]) -> Result<usize, SinkFault>
        ensures bound { IfOk result (λ n. n ≤ length piece.now) }
        ensures some { 0 < length piece.now → IfOk result (λ n. 0 < n) }
        ensures bytes { WriteAppends (Some self.old.bytes.items) (Some self.new.bytes.items) result piece.now }
        ensures cause { HasSinkCause 0 0 result }
        ensures never { IfErr result (λ e. e ≡ SinkFault.OutOfMemory) }
    {
        match self.bytes.extend_from_slice(piece) {
            Ok(()) => Ok(piece.len()),
            Err(_) => Err(SinkFault::OutOfMemory),
        }
    }
}
