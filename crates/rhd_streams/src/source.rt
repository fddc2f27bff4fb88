//! Where bytes come from.

ghost use Rattle.std.specs.Prelude.{◌≡◌, ◌<◌, ◌≤◌, List, ℕ, Option, Some, None, IfSome, IfOk, IsOk, is_err, length, min, take};
ghost use Rattle.std.specs.Io.{ReadsAtMost};
ghost use Rattle.std.specs.Io.KnownBytes.{ReadConsumes, Consumes, IsAtEnd, Keeps};
ghost use Rattle.rhd_streams.specs.Causes.{HasCause};

use std::io::{ErrorKind, Read};

/// A read failed.
#[derive(Clone, Copy, Debug, PartialEq, Eq)]
pub struct Failed;

/// A source of bytes, which counts its faults.
pub trait Source {
    /// The bytes that are left, where the source tells them.
    ghost left: { Self → Option (List ℕ) };

    /// How many reads have failed. The count stands still at the greatest `u64`.
    ghost faults: { Self → ℕ };

    /// Puts bytes at the front of `buf` and answers how many; of a `buf` that isn't empty, 0 only at
    /// the end.
    fn read(&mut self, buf: &mut [u8]) -> Result<usize, Failed>
        ensures bound { ReadsAtMost result buf.new }
        ensures bytes { ReadConsumes (left self.old) (left self.new) result buf.new }
        ensures cause { HasCause (faults self.old) (faults self.new) result };
}

/// Any reader of std. It tells the bytes that are left where the reader does.
#[derive(Drop)]
pub struct Reading<R: Read + Drop> {
    inner: R,
    faults: u64,
}

impl<R: Read + Drop> Reading<R> {
    pub fn new(inner: R) -> Self
        ensures faults { ⟦<Reading<R> as Source>⟧.faults result ≡ 0 }
        ensures left { ⟦<Reading<R> as Source>⟧.left result ≡ R.remaining inner }
    {
        Reading { inner, faults: 0 }
    }
}

/// One read, called again where a signal interrupts it; none where it failed.
fn read_once<R: Read>(reader: &mut R, buf: &mut [u8]) -> Option<usize>
    ensures within { IfSome result (λ n. n ≤ length buf.new) }
    ensures bytes { IfSome result (λ n. Consumes (R.remaining reader.old) (R.remaining reader.new) (take n buf.new)) }
    ensures end { IfSome result (λ n. n ≡ 0 → 0 < length buf.new → IsAtEnd (R.remaining reader.new)) }
    ensures none { result ≡ None → Keeps (R.remaining reader.old) (R.remaining reader.new) }
{
    for _ in 0..u64::MAX {
        match reader.read(buf) {
            Ok(count) => return Some(count),
            Err(error) => {
                if error.kind() != ErrorKind::Interrupted {
                    return None;
                }
            }
        }
    }
    None
}

impl<R: Read + Drop> Source for Reading<R> {
    ghost left = { λ s. R.remaining s.inner };

    ghost faults = { λ s. s.faults };

    fn read(&mut self, buf: &mut [u8]) -> Result<usize, Failed> {
        match read_once(&mut self.inner, buf) {
            Some(count) => Ok(count),
            None => {
                self.faults = self.faults.saturating_add(1);
                Err(Failed)
            }
        }
    }
}

/// Bytes in memory; the calls whose numbers are listed fail, counted from 1.
#[derive(Drop)]
pub struct MemSource {
    bytes: Vec<u8>,
    at: usize,
    fails: Vec<u64>,
    most: u64,
    calls: u64,
    faults: u64,
    ghost within: { at ≤ length bytes.items },
    ghost some: { 0 < most },
}

impl MemSource {
    /// `most` is the most bytes that one call gives.
    pub fn new(bytes: Vec<u8>, fails: Vec<u64>, most: u64) -> Self
        requires { 0 < most }
        ensures left { ⟦<MemSource as Source>⟧.left result ≡ Some bytes.items }
        ensures faults { ⟦<MemSource as Source>⟧.faults result ≡ 0 }
        ensures calls { result.calls ≡ 0 }
        ensures listed { result.fails.items ≡ fails.items }
        ensures most { result.most ≡ most }
    {
        MemSource {
            bytes,
            at: 0,
            fails,
            most,
            calls: 0,
            faults: 0,
        }
    }
}

/// Puts as many bytes of `rest` at the front of `buf` as there are, as fit and as `most` allows.
fn fill_front(rest: &[u8], buf: &mut [u8], most: u64) -> usize
    ensures count { result ≡ min (length rest.now) (min (length buf.old) most) }
    ensures front { take result buf.new ≡ take result rest.now }
{
    let room = if most < buf.len() as u64 {
        most as usize
    } else {
        buf.len()
    };
    let count = rest.len().min(room);
    buf[..count].copy_from_slice(&rest[..count]);
    count
}

impl Source for MemSource {
    ghost use Rattle.rhd_streams.specs.Memory.{bytes_left, next_call, fails_next};

    ghost left = { λ s. Some (bytes_left s) };

    ghost faults = { λ s. s.faults };

    fn read(&mut self, buf: &mut [u8]) -> Result<usize, Failed>
        ensures bound { ReadsAtMost result buf.new }
        ensures bytes { ReadConsumes (Some (bytes_left self.old)) (Some (bytes_left self.new)) result buf.new }
        ensures cause { HasCause self.old.faults self.new.faults result }
        ensures failed { is_err result ≡ fails_next self.old.calls self.old.fails.items }
        ensures count { IfOk result (λ n. n ≡ min (length (bytes_left self.old)) (min (length buf.old) self.old.most)) }
        ensures calls { self.new.calls ≡ next_call self.old.calls }
        ensures kept { (self.new.fails.items ≡ self.old.fails.items) × (self.new.most ≡ self.old.most) }
    {
        self.calls = self.calls.saturating_add(1);
        if self.fails.contains(&self.calls) {
            self.faults = self.faults.saturating_add(1);
            return Err(Failed);
        }
        let count = fill_front(&self.bytes[self.at..], buf, self.most);
        self.at += count;
        Ok(count)
    }
}

/// Bytes in memory; no call fails.
#[derive(Drop)]
pub struct PlainSource {
    bytes: Vec<u8>,
    at: usize,
    ghost within: { at ≤ length bytes.items },
}

impl PlainSource {
    pub fn new(bytes: Vec<u8>) -> Self
        ensures left { ⟦<PlainSource as Source>⟧.left result ≡ Some bytes.items }
        ensures faults { ⟦<PlainSource as Source>⟧.faults result ≡ 0 }
    {
        PlainSource { bytes, at: 0 }
    }
}

impl Source for PlainSource {
    ghost use Rattle.rhd_streams.specs.Memory.{plain_left};

    ghost left = { λ s. Some (plain_left s) };

    ghost faults = { λ _. 0 };

    fn read(&mut self, buf: &mut [u8]) -> Result<usize, Failed>
        ensures bound { ReadsAtMost result buf.new }
        ensures bytes { ReadConsumes (Some (plain_left self.old)) (Some (plain_left self.new)) result buf.new }
        ensures cause { HasCause 0 0 result }
        ensures never { IsOk result }
    {
        let count = fill_front(&self.bytes[self.at..], buf, u64::MAX);
        self.at += count;
        Ok(count)
    }
}
