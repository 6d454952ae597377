//! The target of a library's portals, and the secrets of those who come in there.
ghost use Rattle.std.specs.Prelude.{◌≡◌, IfOk, vec_len};
ghost use Rattle.library_server.specs.Places.{portals_of};
ghost use Rattle.library_server.specs.Targets.{AsksFor, AuthenticatesBy, digests_of};

use crate::secrets_file::secrets_at;
use crate::socket_fault::SocketFault;
use command_line::IscsiOptions;
use iscsi_login::{Access, Authentication, ChapAccess, ChapDigests, Host, LoginTarget};
use program_options::{NamedHost, PortalOptions};
use scsi_cdb::Profile;
use server::Paths;
use std::alloc::{AllocError, Global};
use std::fs::Files;

/// A target, where its portals are, and who is let in there.
#[derive(Drop)]
pub(crate) struct PortalTarget {
    pub target: LoginTarget,
    pub portals: Vec<PortalOptions>,
    /// From where further sessions of a nexus may come.
    pub paths: Paths,
    /// How many nexuses of hosts that aren't named may be let in.
    pub most_strangers: u8,
}

/// By what initiators show who they are: by CHAP exactly where a file of secrets is named.
fn authentication_of<R: AllocGlobal + Files>(
    rt: &R,
    chap: Option<String>,
    digests: program_options::ChapDigests,
) -> Result<Authentication, SocketFault>
    ensures { IfOk result (λ by. AsksFor chap digests by) }
{
    match chap {
        Some(path) => Ok(Authentication::Chap(ChapAccess {
            secrets: secrets_at(rt, path)?,
            digests: digests_of(digests),
        })),
        None => Ok(Authentication::None),
    }
}

/// The target that is asked for. Where none is, it has no portals. Its initiators show who they are by CHAP exactly where a file of secrets is
/// named, and by the digests that are asked for. Its library is of the default profile until that is known.
pub(crate) fn target_of<R: AllocGlobal + Files>(
    rt: &R,
    iscsi: Option<IscsiOptions>,
) -> Result<PortalTarget, SocketFault>
    ensures portals { IfOk result (λ made. vec_len made.portals ≡ portals_of iscsi) }
    ensures authentication { IfOk result (λ made. AuthenticatesBy iscsi made.target.authentication) }
{
    let alloc = rt.alloc();
    let Some(options) = iscsi else {
        return Ok(PortalTarget {
            target: target_named(alloc, "", Vec::new(alloc), false, Authentication::None)?,
            portals: Vec::new(alloc),
            paths: Paths::SameAddress,
            most_strangers: 0,
        });
    };
    let IscsiOptions {
        portals,
        target_name,
        hosts,
        any_host,
        most_strangers,
        multipath,
        chap,
        chap_digests,
    } = options;
    let hosts = hosts_of(alloc, hosts)?;
    let authentication = authentication_of(rt, chap, chap_digests)?;
    Ok(PortalTarget {
        target: target_named(alloc, target_name.as_str(), hosts, any_host, authentication)?,
        portals,
        paths: if multipath {
            Paths::Any
        } else {
            Paths::SameAddress
        },
        most_strangers,
    })
}

/// The digests that are asked for, as a login looks them up.
fn digests_of(digests: program_options::ChapDigests) -> ChapDigests
    ensures { result ≡ digests_of digests }
{
    match digests {
        program_options::ChapDigests::Sha256 => ChapDigests::Sha256,
        program_options::ChapDigests::Sha256AndMd5 => ChapDigests::Sha256AndMd5,
    }
}

fn target_named(
    alloc: Global,
    name: &str,
    hosts: Vec<Host>,
    any_host: bool,
    authentication: Authentication,
) -> Result<LoginTarget, AllocError>
    ensures { IfOk result (λ made. made.authentication ≡ authentication) }
{
    Ok(LoginTarget {
        name: Vec::from_slice(alloc, name.as_bytes())?,
        access: Access { hosts, any_host },
        authentication,
        profile: Profile::Spec,
    })
}

/// The hosts of options, as a login looks them up.
fn hosts_of(alloc: Global, named: Vec<NamedHost>) -> Result<Vec<Host>, AllocError> {
    let mut hosts = Vec::new(alloc);
    for host in named {
        let NamedHost { name, sas } = host;
        hosts.push(Host { name, sas })?;
    }
    Ok(hosts)
}
