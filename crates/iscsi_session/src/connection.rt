ghost use Rattle.std.specs.Prelude.{◌≡◌, [], IfErr, OnOk};
ghost use Rattle.std.specs.Io.KnownBytes.{Appends};
ghost use Rattle.iscsi_session.specs.Faults.{IsLater};

use crate::fault::IscsiFault;
use crate::portal::Portal;
use crate::texts::OpenText;
use frames::most_command_data;
use iscsi_answers::{SequenceNumbers, TransferLimits};
use iscsi_login::FullFeature;
use iscsi_pdu::SerialNumber;
use iscsi_tasks::Tasks;
use std::alloc::Global;
use std::io::Write;

/// A connection in full feature.
#[derive(Drop)]
pub(crate) struct Connection<'p> {
    pub(crate) portal: Portal<'p>,
    pub(crate) tasks: Tasks,
    pub(crate) limits: TransferLimits,
    pub(crate) stat_sn: SerialNumber,
    pub(crate) open_text: OpenText,
    pub(crate) cid: u16,
    /// The answers that wait to be written.
    pub(crate) out: Vec<u8>,
}

impl<'p> Connection<'p> {
    ghost use Rattle.std.specs.Prelude.{◌≡◌};
    ghost use Rattle.frames.specs.Limits.{command_data_limit};
    ghost use Rattle.iscsi_tasks.specs.Values.{begun_tasks};
    ghost use Rattle.iscsi_session.specs.Executing.{numbers};

    /// One that begins, with the StatSN of its first answer, behind answers that wait. A unit is handed as much data of a command as a
    /// COMMAND frame of the profile has room for behind any CDB.
    pub(crate) fn new(
        alloc: Global,
        portal: Portal<'p>,
        begun: &FullFeature,
        stat_sn: SerialNumber,
        out: Vec<u8>,
    ) -> Connection<'p>
        ensures tasks { result.tasks ≡ begun_tasks begun.now.parameters (command_data_limit begun.now.profile) begun.now.cmd_sn }
        ensures out { result.out.items ≡ out.items }
    {
        let parameters = begun.parameters;
        let most_data = most_command_data(begun.profile);
        Connection {
            portal,
            tasks: Tasks::new(alloc, parameters, most_data, begun.cmd_sn),
            limits: TransferLimits::new(
                parameters.max_send_data_segment_length,
                parameters.max_burst_length,
            ),
            stat_sn,
            open_text: OpenText::new(alloc),
            cid: begun.cid,
            out,
        }
    }

    /// The numbers that stand in the answer that comes next.
    pub(crate) fn numbers(&self) -> SequenceNumbers
        ensures { result ≡ numbers self.now.tasks self.now.stat_sn }
    {
        SequenceNumbers {
            stat_sn: self.stat_sn,
            exp_cmd_sn: self.tasks.exp_cmd_sn(),
            max_cmd_sn: self.tasks.max_cmd_sn(),
        }
    }

    /// Behind an answer that takes up a StatSN.
    pub(crate) fn has_answered(&mut self)
        ensures tasks { self.new.tasks ≡ self.old.tasks }
        ensures out { self.new.out.items ≡ self.old.out.items }
    {
        self.stat_sn = self.stat_sn.next();
    }
}

/// Writes what was answered.
pub(crate) fn flush<W: Write>(out: &mut Vec<u8>, writer: &mut W) -> Result<(), IscsiFault>
    ensures fault { IfErr result IsLater }
    ensures broke { IfErr result (λ fault. fault ≡ IscsiFault.Write) }
    ensures written { OnOk result (Appends (W.contents writer.old) (W.contents writer.new) out.old.items) }
    ensures empty { out.new.items ≡ [] }
{
    let written = writer.write_all(out.as_slice());
    out.clear();
    match written {
        Ok(()) => Ok(()),
        Err(_) => Err(IscsiFault::Write),
    }
}
