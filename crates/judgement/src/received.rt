use scsi_cdb::{CdbFault, CommandSet, Request, decode};
use scsi_nexus::Nexus;
use std::marker::Model;

/// A command as a logical unit with some commands received it from a nexus: its CDB, which is decoded here and nowhere else, and the data sent with
/// it (SAM-5, "Execute Command procedure call").
#[derive(Drop)]
pub struct ReceivedCommand<'a> {
    nexus: Nexus,
    commands: CommandSet,
    cdb: &'a [u8],
    bytes: &'a [u8],
    request: Result<Request, CdbFault>,
}

impl<'a> Model for ReceivedCommand<'a> {
    ghost use Rattle.std.specs.Prelude.{◌≡◌};
    ghost use Rattle.scsi_cdb.specs.Commands.{decoded};
    ghost use Rattle.judgement.specs.Received.{ReceivedValue};

    ghost Value = { ReceivedValue };

    ghost view = { λ c. record { nexus = c.nexus; commands = c.commands; cdb = c.cdb.now; bytes = c.bytes.now } };

    ghost invariant = { λ c. c.request ≡ decoded c.commands c.cdb.now };
}

impl<'a> ReceivedCommand<'a> {
    ghost use Rattle.std.specs.Prelude.{◌≡◌};
    ghost use Rattle.scsi_cdb.specs.Commands.{decoded};

    pub fn new(
        nexus: Nexus,
        commands: CommandSet,
        cdb: &'a [u8],
        bytes: &'a [u8],
    ) -> ReceivedCommand<'a>
        ensures { result ≡ record { nexus = nexus; commands = commands; cdb = cdb.now; bytes = bytes.now } }
    {
        ReceivedCommand {
            nexus,
            commands,
            cdb,
            bytes,
            request: decode(commands, cdb),
        }
    }

    pub fn nexus(&self) -> Nexus
        ensures { result ≡ self.now.nexus }
    {
        self.nexus
    }

    /// What the CDB says.
    pub fn request(&self) -> Result<Request, CdbFault>
        ensures { result ≡ decoded self.now.commands self.now.cdb }
    {
        self.request
    }

    pub fn cdb(&self) -> &'a [u8]
        ensures { result.now ≡ self.now.cdb }
    {
        self.cdb
    }

    pub fn bytes(&self) -> &'a [u8]
        ensures { result.now ≡ self.now.bytes }
    {
        self.bytes
    }
}
