use std::alloc::{AllocError, Global};
use std::marker::Model;

/// The SAS addresses that a REGISTER list names, in its order, at most `TARGETS` (profile). Most lists name none, and take no
/// memory for them.
#[derive(Drop)]
pub struct Addresses {
    list: Vec<u64>,
}

impl Model for Addresses {
    ghost use Rattle.std.specs.Prelude.{◌≤◌, length};
    ghost use Rattle.scsi_nexus.specs.Limits.{list_limit};
    ghost use Rattle.permit_tables.specs.AddressList.{AddressList};

    ghost Value = { AddressList };

    ghost view = { λ a. record { items = a.list.items } };

    ghost invariant = { λ a. length a.list.items ≤ list_limit };
}

impl Addresses {
    ghost use Rattle.std.specs.Prelude.{◌≡◌, ◌≤◌, ◌<◌, ◌==◌, [], ◌∷◌, ◌++◌, length, IfOk, OnOk, OnErr};
    ghost use Rattle.scsi_nexus.specs.Limits.{list_limit};

    /// No addresses.
    pub fn none(alloc: Global) -> Addresses
        ensures { result ≡ record { items = [] } }
    {
        Addresses {
            list: Vec::new(alloc),
        }
    }

    /// No addresses, with room for so many.
    pub fn with_room(alloc: Global, count: usize) -> Result<Addresses, AllocError>
        ensures { IfOk result (λ made. made ≡ record { items = [] }) }
    {
        Ok(Addresses {
            list: Vec::with_capacity(alloc, count)?,
        })
    }

    /// Adds an address behind the others. Nothing changes where memory is refused.
    pub fn push(&mut self, address: u64) -> Result<(), AllocError>
        requires { length self.old.items < list_limit }
        ensures ok { OnOk result (self.new.items ≡ self.old.items ++ address ∷ []) }
        ensures err { OnErr result (self.new ≡ self.old) }
    {
        self.list.push(address)?;
        Ok(())
    }

    /// The addresses.
    pub fn as_slice(&self) -> &[u64]
        ensures addresses { result.now ≡ self.now.items }
        ensures fits { length result.now ≤ list_limit }
    {
        self.list.as_slice()
    }

    /// Whether there are none.
    pub fn is_empty(&self) -> bool
        ensures { result ≡ (length self.now.items == 0) }
    {
        self.list.is_empty()
    }
}
