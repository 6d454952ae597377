use std::alloc::{AllocError, Global};
use std::marker::Model;

/// The data of an answer: at most as many bytes as one command reads in any profile. Contracts see its bytes.
#[derive(Drop)]
pub struct Payload {
    bytes: Vec<u8>,
}

impl Model for Payload {
    ghost use Rattle.std.specs.Prelude.{List, ℕ, ◌≤◌, length};
    ghost use Rattle.device_server.specs.Limits.{data_limit};

    ghost Value = { List ℕ };

    ghost view = { λ p. p.bytes.items };

    ghost invariant = { λ p. length p.bytes.items ≤ data_limit };
}

impl Payload {
    ghost use Rattle.std.specs.Prelude.{◌≡◌, ◌≤◌, [], length, take, IfOk};
    ghost use Rattle.device_server.specs.Limits.{data_limit};

    /// No data.
    pub fn none(alloc: Global) -> Payload
        ensures { result ≡ [] }
    {
        Payload {
            bytes: Vec::new(alloc),
        }
    }

    /// These bytes.
    pub fn of(bytes: Vec<u8>) -> Payload
        requires { length bytes.items ≤ data_limit }
        ensures { result ≡ bytes.items }
    {
        Payload { bytes }
    }

    /// A copy of these bytes.
    pub fn copied(alloc: Global, bytes: &[u8]) -> Result<Payload, AllocError>
        requires { length bytes.now ≤ data_limit }
        ensures { IfOk result (λ payload. payload ≡ bytes.now) }
    {
        Ok(Payload {
            bytes: Vec::from_slice(alloc, bytes)?,
        })
    }

    /// Cut at an allocation length, in bytes. No byte that stays is changed (SPC-4, "Allocation
    /// length").
    pub fn cut(mut self, allocation_length: usize) -> Payload
        ensures { result ≡ take allocation_length self }
    {
        self.bytes.truncate(allocation_length);
        self
    }

    /// The bytes, at most as many as one command reads in any profile.
    pub fn bytes(&self) -> &[u8]
        ensures bytes { result.now ≡ self.now }
        ensures short { length self.now ≤ data_limit }
    {
        self.bytes.as_slice()
    }
}
