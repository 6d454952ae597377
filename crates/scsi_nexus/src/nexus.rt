use std::fmt;

/// How many relative target ports the target has, from 1 on (profile).
pub const TARGET_PORTS: u16 = 4;

/// An I_T nexus: an initiator by its SAS address, and the relative target port that it comes by.
/// Ordered by address, then by port (SPC-4, "I_T nexus").
#[derive(Clone, Copy, Debug, Default, PartialEq, Eq, PartialOrd, Ord)]
pub struct Nexus {
    /// The initiator's SAS address.
    pub sas: u64,
    /// The relative target port identifier.
    pub port: u16,
}

impl Nexus {
    ghost use Rattle.std.specs.Prelude.{◌≡◌};
    ghost use Rattle.scsi_nexus.specs.Ports.{is_target_port};

    /// Whether it comes by one of the target's ports.
    pub fn has_target_port(&self) -> bool
        ensures { result ≡ is_target_port self.now.port }
    {
        1 <= self.port && self.port <= TARGET_PORTS
    }
}

/// SAS.PORT: the SAS address in 16 hexadecimal digits, a dot, the port (profile).
impl fmt::Display for Nexus {
    ghost use Rattle.std.specs.Prelude.{Some};
    ghost use Rattle.scsi_nexus.specs.Text.{nexus_text};

    ghost output = { λ nexus. Some (nexus_text nexus) };

    fn fmt<W: fmt::Write>(&self, f: &mut fmt::Formatter<W>) -> fmt::Result {
        let Nexus { sas, port } = *self;
        write!(f, "{sas:016x}.{port}")
    }
}
