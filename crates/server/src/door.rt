use crate::worker_service::Replies;
use iscsi_login::LoginTarget;
use live_sessions::Origin;
use std::io;
use std::net::{Shutdown, SocketAddr, TcpListener};
use std::os::fd::OwnedFd;
use std::os::unix::net::{UnixListener, UnixStream};
use std::sync::Mutex;

/// What comes in at a door.
#[derive(Drop)]
enum Listener<'a> {
    /// Sessions of frames.
    Socket(UnixListener),
    /// Sessions of iSCSI.
    Portal(TcpListener, PortalDoor<'a>),
}

/// A portal of an iSCSI target.
#[derive(Clone, Copy)]
pub(crate) struct PortalDoor<'a> {
    pub target: &'a LoginTarget,
    /// Its portal group, and the target port of the initiators that come in there.
    pub group: u16,
    /// Where it listens.
    pub address: SocketAddr,
    /// The address that initiators are sent as the one where it is found, if that is another one than they have come to.
    pub told: Option<&'a str>,
}

/// Where connections come in, until it is shut down.
#[derive(Drop)]
pub struct Door<'a> {
    listener: Listener<'a>,
    /// A second descriptor of the listener, as a stream, which can be shut down.
    second: UnixStream,
    /// Held by the worker that waits for the next connection.
    pub(crate) turn: Mutex<()>,
}

/// A connection that has come in, and at a portal where it did, and from where.
#[derive(Drop)]
pub(crate) struct NewConnection {
    pub stream: UnixStream,
    pub came_to: Option<SocketAddr>,
    pub origin: Option<Origin>,
}

impl<'a> Door<'a> {
    /// Where hosts come in whose sessions are of frames.
    pub fn of_socket(listener: UnixListener) -> io::Result<Door<'a>> {
        let second = UnixStream::from(OwnedFd::from(listener.try_clone()?));
        Ok(Door {
            listener: Listener::Socket(listener),
            second,
            turn: Mutex::new(()),
        })
    }

    /// Where initiators of iSCSI come in to a target, as to its portal group of this number. All portals of a library that is served
    /// are of one target. Initiators are sent this address as the one where it is found, or else the one that they have come to.
    pub fn of_portal(
        listener: TcpListener,
        target: &'a LoginTarget,
        group: u16,
        told: Option<&'a str>,
    ) -> io::Result<Door<'a>> {
        let second = UnixStream::from(OwnedFd::from(listener.try_clone()?));
        let portal = PortalDoor {
            target,
            group,
            address: listener.local_addr()?,
            told,
        };
        Ok(Door {
            listener: Listener::Portal(listener, portal),
            second,
            turn: Mutex::new(()),
        })
    }

    /// Where its portal listens, if it is one.
    pub fn address(&self) -> Option<SocketAddr> {
        Some(self.portal()?.address)
    }

    /// From now on no host comes in, and a worker that waits for a connection waits no longer.
    pub fn shut_down(&self) {
        // A listener can always be shut down.
        let _ = self.second.shutdown(Shutdown::Both);
    }

    /// What its sessions do with replies that wait.
    pub(crate) fn replies(&self) -> Replies {
        match &self.listener {
            Listener::Socket(_) => Replies::InPlace,
            Listener::Portal(_, _) => Replies::Held,
        }
    }

    pub(crate) fn portal(&self) -> Option<PortalDoor<'a>> {
        match &self.listener {
            Listener::Socket(_) => None,
            Listener::Portal(_, portal) => Some(*portal),
        }
    }

    /// Waits for the next connection. What is a socket of TCP is read, written, timed and shut down by its descriptor just as a
    /// Unix socket is, so that one type of stream does for both.
    pub(crate) fn accept(&self) -> io::Result<NewConnection> {
        match &self.listener {
            Listener::Socket(listener) => {
                let (stream, _) = listener.accept()?;
                Ok(NewConnection {
                    stream,
                    came_to: None,
                    origin: None,
                })
            }
            Listener::Portal(listener, portal) => {
                let (stream, peer) = listener.accept()?;
                let origin = Origin {
                    peer,
                    group: portal.group,
                };
                // Without these a reply comes later, and an address that is only seen from here is sent.
                let _ = stream.set_nodelay(true);
                let came_to = stream.local_addr().unwrap_or(portal.address);
                Ok(NewConnection {
                    stream: UnixStream::from(OwnedFd::from(stream)),
                    came_to: Some(came_to),
                    origin: Some(origin),
                })
            }
        }
    }
}
