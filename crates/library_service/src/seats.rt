//! The services of a library's seats, which come back.
ghost use Rattle.std.specs.Prelude.{◌≡◌, ◌++◌, ◌+◌, ◌≤◌, map, IfOk, vec_capacity, vec_len};
ghost use Rattle.library_service.specs.LibraryService.{service_at};

use crate::service::LibraryService;
use kept_unit::Ledgers;
use library_start::Device;
use lun_router::{Library, Pass, Seat};
use session::Directory;
use std::alloc::{AllocError, Global};
use std::sync::{Mutex, Wait};

/// A service at each seat.
pub fn services_of<'a, B: Ledgers, R: Wait>(
    rt: &'a R,
    alloc: Global,
    library: &'a Library<B, Device, Pass>,
    directory: &'a Mutex<Directory>,
    seats: Vec<Seat<B>>,
) -> Result<Vec<LibraryService<'a, B, R>>, AllocError>
    ensures { IfOk result (λ services. services.items ≡ map (service_at library.now.units) seats.items) }
{
    let mut services = Vec::new(alloc);
    'seats: for seat in seats {
        services.push(LibraryService::new(rt, library, directory, seat))?;
    }
    Ok(services)
}

/// Puts the seats of services, in their order, behind those of a vector with room for them, which comes into the place of the seats that
/// were taken.
pub fn give_back<'a, B: Ledgers, R: Wait>(
    services: Vec<LibraryService<'a, B, R>>,
    mut back: Vec<Seat<B>>,
    seats: &mut Vec<Seat<B>>,
)
    requires { vec_len back + vec_len services ≤ vec_capacity back }
    ensures { seats.new.items ≡ back.items ++ map (λ s. s.seat) services.entry.items }
{
    leave_seats(services, &mut back);
    *seats = back;
}

/// Puts the seats of services behind those that are there, in their order.
fn leave_seats<'a, B: Ledgers, R: Wait>(
    services: Vec<LibraryService<'a, B, R>>,
    seats: &mut Vec<Seat<B>>,
)
    requires { vec_len seats.old + vec_len services ≤ vec_capacity seats.old }
    ensures { seats.new.items ≡ seats.old.items ++ map (λ s. s.seat) services.entry.items }
{
    'services: for service in services {
        seats.push_reserved(service.into_seat());
    }
}
