//! What is known of a file by the calls that it answered.

/// What is known of a file and of its record: how many of its first bytes, and what is after those that are as they were written.
#[derive(Clone, Copy)]
pub struct Known {
    /// The record on the disk says at least this.
    pub least: u64,
    /// And at most this.
    pub most: u64,
    /// So many of its first bytes are on the disk.
    pub synced: u64,
    /// So many of its first bytes are in the file as they were written.
    pub sound: u64,
    /// What is in the file after these.
    pub tail: FileTail,
}

/// What is in a file after the bytes that are as they were written.
#[derive(Clone, Copy)]
pub enum FileTail {
    /// Anything.
    Unknown,
    /// Nothing, but after a power cut there may be what was cut off.
    Cut,
    /// Nothing. So it may be written on.
    Empty,
}

impl Known {
    ghost use Rattle.std.specs.Prelude.{◌≡◌, ◌+◌, ◌<◌, ◌^◌, List, ℕ, length, true, false};
    ghost use Rattle.tape_flush.specs.Stores.{Truncate, Append, Sync, Note};
    ghost use Rattle.tape_flush.specs.Careful.{after, trusted_to};

    /// Of a file of which so many bytes are on the disk, as its record says.
    pub(crate) fn opened(trusted: u64) -> Known
        ensures { result ≡ trusted_to trusted }
    {
        Known {
            least: trusted,
            most: trusted,
            synced: trusted,
            sound: trusted,
            tail: FileTail::Unknown,
        }
    }

    /// After the file was cut back, or wasn't.
    pub(crate) fn truncated(&self, size: u64, is_ok: bool) -> Known
        ensures { result ≡ after self.now (Truncate size is_ok) }
    {
        Known {
            synced: self.synced.min(size),
            sound: size,
            tail: if is_ok {
                FileTail::Cut
            } else {
                FileTail::Unknown
            },
            ..*self
        }
    }

    /// After so many bytes were added at its end.
    pub(crate) fn grown(&self, count: u64) -> Known
        requires { self.now.sound + count < 2 ^ 64 }
        ensures { (offset : ℕ) (bytes : List ℕ) → length bytes ≡ count → result ≡ after self.now (Append offset bytes true) }
    {
        Known {
            sound: self.sound + count,
            ..*self
        }
    }

    /// After bytes couldn't be added at its end.
    pub(crate) fn not_grown(&self) -> Known
        ensures { (offset : ℕ) (bytes : List ℕ) → result ≡ after self.now (Append offset bytes false) }
    {
        Known {
            tail: FileTail::Unknown,
            ..*self
        }
    }

    /// After it was brought to the disk, or wasn't.
    pub(crate) fn synced(&self, is_ok: bool) -> Known
        ensures { result ≡ after self.now (Sync is_ok) }
    {
        if !is_ok {
            return Known {
                sound: self.synced,
                tail: FileTail::Unknown,
                ..*self
            };
        }
        let tail = match self.tail {
            FileTail::Unknown => FileTail::Unknown,
            FileTail::Cut | FileTail::Empty => FileTail::Empty,
        };
        Known {
            synced: self.sound,
            tail,
            ..*self
        }
    }

    /// After its record was written, or wasn't.
    pub(crate) fn noted(&self, size: u64, is_ok: bool) -> Known
        ensures { result ≡ after self.now (Note size is_ok) }
    {
        if is_ok {
            Known {
                least: size,
                most: size,
                ..*self
            }
        } else {
            Known {
                least: self.least.min(size),
                most: self.most.max(size),
                ..*self
            }
        }
    }
}
