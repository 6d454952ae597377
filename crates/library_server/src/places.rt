//! Where a library is served: at a socket, at portals of iSCSI, or at both.

ghost use Rattle.std.specs.Prelude.{◌≡◌, ◌+◌, length, IfOk, vec_len};
ghost use Rattle.library_server.specs.Places.{count_of};

use crate::socket_fault::SocketFault;
use crate::socket_file::{SocketFile, make_socket_file};
use iscsi_login::LoginTarget;
use program_options::{ListenFault, PortalOptions};
use server::Door;
use std::alloc::{AllocError, Global};
use std::fs::Files;
use std::io::{self, Write};
use std::net::{Net, TcpListener, TcpStream};

/// The doors of a library, and the socket's file, if there is one.
#[derive(Drop)]
pub(crate) struct Places<'a> {
    pub socket_file: Option<SocketFile>,
    pub doors: Vec<Door<'a>>,
}

/// Listens at portals, and at a socket's path if one is given. Where that fails at one of them nothing is listened at, and no file
/// is left.
pub(crate) fn open_places<
    'a,
    R: AllocGlobal + Files + Net<Listener = TcpListener, Stream = TcpStream>,
    E: Write,
>(
    rt: &R,
    portals: &'a [PortalOptions],
    target: &'a LoginTarget,
    socket: Option<String>,
    errors: &mut E,
) -> Result<Places<'a>, SocketFault>
    ensures { IfOk result (λ places. vec_len places.doors ≡ length portals.now + count_of socket) }
{
    let mut doors = open_portals(rt, portals, target)?;
    let Some(path) = socket else {
        return Ok(Places {
            socket_file: None,
            doors,
        });
    };
    // The file comes last, since it is to be taken away again.
    let (socket_file, door) = make_socket_file(rt, path, errors)?;
    match doors.push(door) {
        Ok(()) => Ok(Places {
            socket_file: Some(socket_file),
            doors,
        }),
        Err(_) => {
            socket_file.leave(rt);
            Err(SocketFault::from(AllocError))
        }
    }
}

/// Listens at portals: the first is that of portal group 1, and so on.
fn open_portals<'a, R: AllocGlobal + Net<Listener = TcpListener, Stream = TcpStream>>(
    rt: &R,
    portals: &'a [PortalOptions],
    target: &'a LoginTarget,
) -> Result<Vec<Door<'a>>, SocketFault>
    ensures { IfOk result (λ doors. vec_len doors ≡ length portals.now) }
{
    let mut doors = Vec::new(rt.alloc());
    let mut group = 0u16;
    for portal in portals {
        group = group.saturating_add(1);
        match open_portal(rt, portal, target, group) {
            Ok(door) => doors.push(door).map_err(AllocError::from)?,
            Err(error) => {
                let address = portal.address.to_string(rt.alloc())?;
                return Err(ListenFault::of_portal(address, error.kind()).into());
            }
        }
    }
    Ok(doors)
}

fn open_portal<'a, R: Net<Listener = TcpListener, Stream = TcpStream>>(
    rt: &R,
    portal: &'a PortalOptions,
    target: &'a LoginTarget,
    group: u16,
) -> io::Result<Door<'a>> {
    let told = match &portal.told {
        Some(told) => Some(told.as_str()),
        None => None,
    };
    Door::of_portal(TcpListener::bind(rt, portal.address)?, target, group, told)
}

impl<'a> Places<'a> {
    /// The socket's path, if there is one, and the portals' addresses, as they are told.
    pub fn text(&self, alloc: Global) -> Result<String, AllocError> {
        let mut text = String::new(alloc);
        if let Some(file) = &self.socket_file {
            text.push_str(file.path())?;
        }
        for door in &self.doors {
            if let Some(address) = door.address() {
                if !text.is_empty() {
                    text.push_str(" and ")?;
                }
                text.push_str(address.to_string(alloc)?.as_str())?;
            }
        }
        Ok(text)
    }

    /// From now on nobody comes in.
    pub fn shut_down(&self) {
        for door in &self.doors {
            door.shut_down();
        }
    }

    /// Removes the socket's file, if there is one and it is still the socket's own.
    pub fn leave<R: Files>(&self, rt: &R) {
        if let Some(file) = &self.socket_file {
            file.leave(rt);
        }
    }
}
