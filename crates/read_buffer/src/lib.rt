//! The bytes of a stream between the reads that bring them and a parser that takes them off where they lie.
#![tactic(auto)]

ghost use Rattle.std.specs.Prelude.{◌≡◌, ◌+◌, ◌-◌, ◌≤◌, ◌<◌, [], length, drop, take, IfOk, OnErr, vec_len};
ghost use Rattle.std.specs.Io.KnownBytes.{Keeps, IsAtEnd};
ghost use Rattle.read_buffer.specs.Reading.{ReadBehind, Refilled, Filled};

use std::alloc::{AllocError, Global};
use std::io::{self, Read};
use std::marker::Model;

/// The bytes of a stream that were read and not taken yet, at most `CAPACITY` of them. They lie in one buffer that is made once: a read fills
/// what is free behind them, and what was taken off the front is moved away only before a read.
#[derive(Drop)]
pub struct ReadBuffer<const CAPACITY: usize> {
    bytes: Vec<u8>,
    start: usize,
    end: usize,
}

impl<const CAPACITY: usize> Model for ReadBuffer<CAPACITY> {
    ghost use Rattle.std.specs.Prelude.{◌≡◌, ◌≤◌, ◌-◌, ℕ, List, take, drop, vec_len};

    ghost Value = { List ℕ };

    ghost view = { λ i. take (i.end - i.start) (drop i.start i.bytes.items) };

    ghost invariant = { λ i. (i.start ≤ i.end) × (i.end ≤ CAPACITY) × (vec_len i.bytes ≡ CAPACITY) };
}

impl<const CAPACITY: usize> ReadBuffer<CAPACITY> {
    /// With nothing in it.
    pub fn new(alloc: Global) -> Result<ReadBuffer<CAPACITY>, AllocError>
        ensures { IfOk result (λ read_buffer. read_buffer ≡ []) }
    {
        Ok(ReadBuffer {
            bytes: vec![in alloc; 0u8; CAPACITY]?,
            start: 0,
            end: 0,
        })
    }

    /// What was read and not taken yet.
    pub fn pending(&self) -> &[u8]
        ensures { result.now ≡ self.now }
    {
        &self.bytes.as_slice()[self.start..self.end]
    }

    /// Takes bytes off the front.
    pub fn consume(&mut self, count: usize)
        requires { count ≤ length self.old }
        ensures { self.new ≡ drop count self.old }
    {
        self.start += count;
    }

    /// Adds what one read gives, and answers how many bytes that is: 0 where the reader is at its end, or where the buffer is full. An error
    /// of the reader, also an interrupted read, leaves what is pending as it was.
    pub fn fill<R: Read>(&mut self, reader: &mut R) -> io::Result<usize>
        ensures ok { IfOk result (λ count. Filled count self.old self.new (R.remaining reader.old) (R.remaining reader.new)) }
        ensures most { IfOk result (λ count. count ≤ CAPACITY) }
        ensures end { IfOk result (λ count. count ≡ 0 → length self.old < CAPACITY → IsAtEnd (R.remaining reader.new)) }
        ensures err { OnErr result ((self.new ≡ self.old) × Keeps (R.remaining reader.old) (R.remaining reader.new)) }
    {
        let (start, end) = (self.start, self.end);
        let pending = end - start;
        self.start = 0;
        self.end = pending;
        match refill(reader, self.bytes.as_mut_slice(), start, end) {
            Ok(count) => {
                self.end = pending + count;
                Ok(count)
            }
            Err(error) => Err(error),
        }
    }
}

/// Moves what lies between two places of a buffer to its front.
fn move_to_front(buffer: &mut [u8], start: usize, end: usize)
    requires order { start ≤ end }
    requires within { end ≤ length buffer.old }
    ensures len { length buffer.new ≡ length buffer.old }
    ensures front { take (end - start) buffer.new ≡ take (end - start) (drop start buffer.old) }
{
    if start == 0 {
        return;
    }
    buffer.copy_within(start..end, 0);
}

/// Moves what lies between two places to the front, and reads once into what lies behind it.
fn refill<R: Read>(reader: &mut R, buffer: &mut [u8], start: usize, end: usize) -> io::Result<usize>
    requires order { start ≤ end }
    requires within { end ≤ length buffer.old }
    ensures len { length buffer.new ≡ length buffer.old }
    ensures within { IfOk result (λ count. end - start + count ≤ length buffer.old) }
    ensures ok { IfOk result (λ count. Refilled start (end - start) count buffer.old buffer.new (R.remaining reader.old) (R.remaining reader.new)) }
    ensures end { IfOk result (λ count. count ≡ 0 → end - start < length buffer.old → IsAtEnd (R.remaining reader.new)) }
    ensures err { OnErr result ((take (end - start) buffer.new ≡ take (end - start) (drop start buffer.old)) × Keeps (R.remaining reader.old) (R.remaining reader.new)) }
{
    move_to_front(buffer, start, end);
    read_behind(reader, buffer, end - start)
}

/// One read, into what lies behind a place of a buffer.
fn read_behind<R: Read>(reader: &mut R, buffer: &mut [u8], end: usize) -> io::Result<usize>
    requires { end ≤ length buffer.old }
    ensures len { length buffer.new ≡ length buffer.old }
    ensures within { IfOk result (λ count. end + count ≤ length buffer.old) }
    ensures ok { IfOk result (λ count. ReadBehind end count buffer.old buffer.new (R.remaining reader.old) (R.remaining reader.new)) }
    ensures end { IfOk result (λ count. count ≡ 0 → end < length buffer.old → IsAtEnd (R.remaining reader.new)) }
    ensures err { OnErr result ((take end buffer.new ≡ take end buffer.old) × Keeps (R.remaining reader.old) (R.remaining reader.new)) }
{
    match reader.read(&mut buffer[end..]) {
        Ok(count) => Ok(count),
        Err(error) => Err(error),
    }
}
