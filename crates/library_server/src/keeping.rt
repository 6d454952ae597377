//! The tapes of a library, kept at its end.

ghost use Rattle.std.specs.Prelude.{◌≡◌, IfSome};
ghost use Rattle.library_server.specs.declared.server_fault.ServerFault.TheVariants.{Media};

use crate::server_fault::ServerFault;
use server::{KeepTeller, Teller};
use std::alloc::Global;
use std::io::Write;
use std::sync::Wait;
use tape_keeper::TapeKeeper;

/// Keeps all at the end: the fault of a library of which not all is kept.
pub(crate) fn keep_at_the_end<K: TapeKeeper, R: Wait, E: Write>(
    rt: &R,
    alloc: Global,
    keeper: &K,
    teller: &Teller<E>,
) -> Option<ServerFault>
    ensures { IfSome result (λ fault. fault ≡ Media) }
{
    // No session goes on.
    let listener = KeepTeller::new(rt, teller);
    if keeper.keep_all(rt, alloc, &listener) {
        None
    } else {
        Some(ServerFault::Media)
    }
}
