use std::fmt;
use thiserror::Error;

/// Why options that are each within their range mean nothing, and what to give in their place.
#[derive(Clone, Copy, Debug, Error)]
pub enum OptionFault {
    /// There are more volumes than storage elements.
    MoreVolumes,
    /// All that the volumes may hold has no room in memory.
    VolumesLargerThanMemory,
    /// What is no size of a volume, or out of its range.
    BadVolumeSize,
    /// What is no size of memory, or out of its range.
    BadMemorySize,
    /// A SAS address that isn't 16 hexadecimal digits.
    BadNexus,
    /// A library is served nowhere.
    NoPlace,
    /// More portals than the target has ports.
    ManyPortals,
    /// A portal that is no IP address with a port.
    BadAddress,
    /// A portal that other machines can reach, where the command line doesn't say what initiators must prove.
    OpenAddress,
    /// What comes after a portal's address is no host with a port.
    BadToldAddress,
    /// Portals at which no host is let in.
    NobodyLetIn,
    /// A host that is no name with a SAS address.
    BadHost,
    /// A host whose SAS address isn't 16 hexadecimal digits.
    BadSas,
    /// No iSCSI name.
    BadName,
    /// More hosts than are let in by name.
    ManyHosts,
    /// A host whose name was given already.
    NameTwice,
    /// A host whose SAS address was given already.
    SasTwice,
    /// Hosts that are let in by name have every slot of a unit, so that no other can be let in.
    NoSlotForOthers,
    /// No list of digests by which hosts may answer.
    BadDigests,
    /// What is the name of no format of records.
    BadFormat,
    /// What is the name of no profile.
    BadProfile,
    /// A number of a library that isn't 8 hexadecimal digits.
    BadLibraryNumber,
    /// A number for a library that isn't of the hosts' profile.
    NumberWithoutHosts,
    /// Metrics that other machines can read, where the command line doesn't say that they may.
    OpenMetrics,
    /// Metrics of a library whose records aren't taken while it is served.
    UncountedRecords,
}

impl OptionFault {
    ghost use Rattle.std.specs.Prelude.{◌≡◌};
    ghost use Rattle.program_options.specs.Faults.{option_fault_text};

    /// Its line.
    pub fn text(self) -> &'static str
        ensures { result.now ≡ option_fault_text self }
    {
        match self {
            OptionFault::MoreVolumes => "vtl: more volumes than slots",
            OptionFault::VolumesLargerThanMemory => {
                "vtl: the volumes may hold more together than --memory, and all of them are in memory: give a larger --memory, fewer --volumes or a smaller --volume-size"
            }
            OptionFault::BadVolumeSize => {
                "vtl: not a volume size: give a number of bytes from 1M to 64G, such as 16M"
            }
            OptionFault::BadMemorySize => {
                "vtl: not a memory size: give a number of bytes from 1M to 65536G, such as 4G"
            }
            OptionFault::BadNexus => "vtl: bad nexus",
            OptionFault::NoPlace => {
                "vtl: nowhere to serve: give --socket <PATH> or --iscsi <ADDRESS:PORT>"
            }
            OptionFault::ManyPortals =>
                "vtl: --iscsi is given more than 4 times: there are 4 target ports",
            OptionFault::BadAddress => {
                "vtl: not an IP address with a port: give one such as 127.0.0.1:3260 or [::1]:3260"
            }
            OptionFault::OpenAddress => {
                "vtl: other machines can reach this address: give --chap <FILE>, or --no-authentication if all of them may log in"
            }
            OptionFault::BadToldAddress => {
                "vtl: not an address for initiators after =: give a host and a port, such as tapes.example:3260 or [2001:db8::1]:3260"
            }
            OptionFault::NobodyLetIn => {
                "vtl: --iscsi lets nobody in: give --host <NAME=SAS> for each host, or --any-host"
            }
            OptionFault::BadHost => {
                "vtl: not a host: give a name and a SAS address, such as iqn.2026-11.example:a=500000000000000a"
            }
            OptionFault::BadSas => {
                "vtl: not a SAS address after the name of a host: give its 16 hexadecimal digits"
            }
            OptionFault::BadName => {
                "vtl: not an iSCSI name: give one in lower case, such as iqn.2026-11.example:a"
            }
            OptionFault::ManyHosts => {
                "vtl: --host is given more than 64 times: give --any-host instead of some"
            }
            OptionFault::NameTwice => {
                "vtl: a name is given twice: give it once, with one SAS address"
            }
            OptionFault::SasTwice => { "vtl: two names have one SAS address: give each its own" }
            OptionFault::NoSlotForOthers => {
                "vtl: --any-host can let nobody else in: each --host takes a slot at each --iscsi, and there are 128"
            }
            OptionFault::BadDigests => "vtl: not a list of CHAP digests: give sha256 or sha256,md5",
            OptionFault::BadFormat => "vtl: not a format of records: give json or text",
            OptionFault::BadProfile => "vtl: not a profile: give spec or hosts",
            OptionFault::BadLibraryNumber => {
                "vtl: not the number of a library: give its 8 hexadecimal digits, such as 1A2B3C4D"
            }
            OptionFault::NumberWithoutHosts => {
                "vtl: --library-id needs --profile hosts: no other library has a number"
            }
            OptionFault::OpenMetrics => {
                "vtl: other machines can reach this address: give --metrics-open if all of them may read what is counted"
            }
            OptionFault::UncountedRecords => {
                "vtl: --metrics needs --records or --drain: records are counted as they are written"
            }
        }
    }
}

impl fmt::Display for OptionFault {
    ghost use Rattle.std.specs.Prelude.{Some};
    ghost use Rattle.program_options.specs.Faults.{option_fault_text};

    ghost output = { λ fault. Some (option_fault_text fault) };

    fn fmt<W: fmt::Write>(&self, f: &mut fmt::Formatter<W>) -> fmt::Result {
        f.write_str(self.text())
    }
}
