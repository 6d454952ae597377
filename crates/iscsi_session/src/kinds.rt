//! The two types of session (RFC 7143, "SessionType").
ghost use Rattle.std.specs.Prelude.{◌≡◌, List, [], false, All, IfErr, IfOk, OnOk};
ghost use Rattle.iscsi_pdu.specs.Pdus.{TargetPduValue};
ghost use Rattle.iscsi_pdu.specs.declared.initiator_header.InitiatorHeader.TheVariants as sent;
ghost use Rattle.iscsi_tasks.specs.Next.{next_of};
ghost use Rattle.iscsi_tasks.specs.declared.next_task.NextTask.TheVariants.{Idle};
ghost use Rattle.iscsi_session.specs.Faults.{IsInside};
ghost use Rattle.iscsi_session.specs.Executing.{Adds, OrElse};

use crate::connection::Connection;
use crate::executing::{go_on, take_command, take_data};
use crate::fault::IscsiFault;
use crate::keeping::KeepingService;
use crate::managing::manage;
use crate::register::SessionRegister;
use crate::requests::{BasicHeader, take_unsupported, turn_down};
use crate::resets::drop_reset;
use iscsi_login::SessionType;
use iscsi_pdu::{DataOut, RejectReason, ScsiCommand, TaskManagementRequest};
use scsi_nexus::Nexus;
use std::alloc::Global;

/// What a session does in the way of its type: what concerns tasks. `S` is what serves the session: a service that has units, or nothing.
/// Where a PDU is taken it is answered, and whether the connection ends by it is said.
pub(crate) trait SessionKind<S>: Copy {
    ghost use Rattle.std.specs.Prelude.{ℕ, List};
    ghost use Rattle.iscsi_pdu.specs.Pdus.{TargetPduValue};
    ghost use Rattle.iscsi_pdu.specs.declared.initiator_header.InitiatorHeader.{InitiatorHeader};
    ghost use Rattle.iscsi_tasks.specs.Values.{TasksValue};

    // What comes of a PDU of a task, by its header and payload: what is said, and what becomes of the tasks and of what serves them.
    ghost works: { Self → InitiatorHeader → List ℕ → TasksValue → S → List TargetPduValue → TasksValue → S → Type 0 };

    // What comes of units that other sessions have reset.
    ghost takes_resets: { Self → List ℕ → TasksValue → S → List TargetPduValue → TasksValue → S → Type 0 };

    /// The type, by its key.
    const SESSION_TYPE: SessionType;

    /// Takes a SCSI Command.
    fn take_command(
        self,
        alloc: Global,
        service: &mut S,
        connection: &mut Connection<'_>,
        command: &ScsiCommand,
        header: &BasicHeader,
        payload: &[u8],
    ) -> Result<bool, IscsiFault>
        ensures fault { IfErr result IsInside }
        ensures stays { IfOk result (λ ends. ends ≡ false) }
        ensures worked { OrElse result ((connection.new.tasks ≡ connection.old.tasks) × (service.new ≡ service.old))
            ((said : List TargetPduValue)
            × works self (sent.ScsiCommand command.now) payload.now
            connection.old.tasks service.old said connection.new.tasks service.new
            × Adds result connection.old.out.items connection.new.out.items said) }
        ensures idle { next_of connection.old.tasks ≡ Idle → OnOk result (next_of connection.new.tasks ≡ Idle) };

    /// Takes a Data-Out.
    fn take_data(
        self,
        alloc: Global,
        service: &mut S,
        connection: &mut Connection<'_>,
        data_out: &DataOut,
        header: &BasicHeader,
        payload: &[u8],
    ) -> Result<bool, IscsiFault>
        ensures fault { IfErr result IsInside }
        ensures stays { IfOk result (λ ends. ends ≡ false) }
        ensures worked { OrElse result ((connection.new.tasks ≡ connection.old.tasks) × (service.new ≡ service.old))
            ((said : List TargetPduValue)
            × works self (sent.DataOut data_out.now) payload.now
            connection.old.tasks service.old said connection.new.tasks service.new
            × Adds result connection.old.out.items connection.new.out.items said) }
        ensures idle { next_of connection.old.tasks ≡ Idle → OnOk result (next_of connection.new.tasks ≡ Idle) };

    /// Takes a task management request, which has no payload that is read.
    fn take_management<G: SessionRegister>(
        self,
        alloc: Global,
        service: &mut S,
        register: &G,
        connection: &mut Connection<'_>,
        request: &TaskManagementRequest,
        header: &BasicHeader,
    ) -> Result<bool, IscsiFault>
        ensures fault { IfErr result IsInside }
        ensures stays { IfOk result (λ ends. ends ≡ false) }
        ensures worked { (payload : List ℕ) → OrElse result
            ((connection.new.tasks ≡ connection.old.tasks) × (service.new ≡ service.old))
            ((said : List TargetPduValue)
            × works self (sent.TaskManagementRequest request.now) payload
            connection.old.tasks service.old said connection.new.tasks service.new
            × Adds result connection.old.out.items connection.new.out.items said) }
        ensures idle { next_of connection.old.tasks ≡ Idle → OnOk result (next_of connection.new.tasks ≡ Idle) };

    /// Lets those commands go unexecuted that wait at a unit which another session has reset, drops the replies that are held for it, and goes
    /// on with the commands behind them.
    fn take_resets<G: SessionRegister>(
        self,
        alloc: Global,
        service: &mut S,
        register: &G,
        connection: &mut Connection<'_>,
    ) -> Result<(), IscsiFault>
        ensures fault { IfErr result IsInside }
        ensures resets_taken { (units : List ℕ) × All (G.resets register.now) units × ((said : List TargetPduValue)
            × takes_resets self units connection.old.tasks service.old said connection.new.tasks service.new
            × Adds result connection.old.out.items connection.new.out.items said) }
        ensures idle { next_of connection.old.tasks ≡ Idle → OnOk result (next_of connection.new.tasks ≡ Idle) };
}

/// A normal session, which hands the commands of its nexus to their units.
#[derive(Clone, Copy)]
pub(crate) struct NormalSession {
    pub(crate) nexus: Nexus,
}

impl<S: KeepingService> SessionKind<S> for NormalSession {
    ghost use Rattle.iscsi_session.specs.Saying.{TakesResets, Works};

    ghost works = { λ session. Works S.notes S.waits S.count session.nexus };

    ghost takes_resets = { λ session. TakesResets S.notes S.waits session.nexus };

    const SESSION_TYPE: SessionType = SessionType::Normal;

    fn take_command(
        self,
        alloc: Global,
        service: &mut S,
        connection: &mut Connection<'_>,
        command: &ScsiCommand,
        header: &BasicHeader,
        payload: &[u8],
    ) -> Result<bool, IscsiFault> {
        take_command(
            alloc, service, self.nexus, connection, command, header, payload,
        )?;
        go_on(alloc, service, self.nexus, connection)?;
        Ok(false)
    }

    fn take_data(
        self,
        alloc: Global,
        service: &mut S,
        connection: &mut Connection<'_>,
        data_out: &DataOut,
        header: &BasicHeader,
        payload: &[u8],
    ) -> Result<bool, IscsiFault> {
        take_data(connection, data_out, header, payload)?;
        go_on(alloc, service, self.nexus, connection)?;
        Ok(false)
    }

    fn take_management<G: SessionRegister>(
        self,
        alloc: Global,
        service: &mut S,
        register: &G,
        connection: &mut Connection<'_>,
        request: &TaskManagementRequest,
        _header: &BasicHeader,
    ) -> Result<bool, IscsiFault> {
        manage(alloc, service, register, connection, request)?;
        go_on(alloc, service, self.nexus, connection)?;
        Ok(false)
    }

    fn take_resets<G: SessionRegister>(
        self,
        alloc: Global,
        service: &mut S,
        register: &G,
        connection: &mut Connection<'_>,
    ) -> Result<(), IscsiFault> {
        drop_reset(register, service.units(), &mut connection.tasks);
        go_on(alloc, service, self.nexus, connection)
    }
}

/// A discovery session, which has no units, and so nothing that serves it.
#[derive(Clone, Copy)]
pub(crate) struct DiscoverySession;

impl SessionKind<()> for DiscoverySession {
    ghost use Rattle.std.specs.Prelude.{◌≡◌, []};
    ghost use Rattle.iscsi_session.specs.Saying.{IsPlain, behind_other};

    ghost works = { λ _ header _ k s said k' t. (k' ≡ behind_other k header) × (t ≡ s) × IsPlain said };

    ghost takes_resets = { λ _ _ k s said k' t. (said ≡ []) × (k' ≡ k) × (t ≡ s) };

    const SESSION_TYPE: SessionType = SessionType::Discovery;

    fn take_command(
        self,
        _alloc: Global,
        _service: &mut (),
        connection: &mut Connection<'_>,
        command: &ScsiCommand,
        header: &BasicHeader,
        _payload: &[u8],
    ) -> Result<bool, IscsiFault> {
        take_unsupported(connection, command.immediate, command.cmd_sn, header)
    }

    fn take_data(
        self,
        _alloc: Global,
        _service: &mut (),
        connection: &mut Connection<'_>,
        _data_out: &DataOut,
        header: &BasicHeader,
        _payload: &[u8],
    ) -> Result<bool, IscsiFault> {
        turn_down(connection, RejectReason::CommandNotSupported, header)
    }

    fn take_management<G: SessionRegister>(
        self,
        _alloc: Global,
        _service: &mut (),
        _register: &G,
        connection: &mut Connection<'_>,
        request: &TaskManagementRequest,
        header: &BasicHeader,
    ) -> Result<bool, IscsiFault> {
        take_unsupported(connection, request.immediate, request.cmd_sn, header)
    }

    fn take_resets<G: SessionRegister>(
        self,
        _alloc: Global,
        _service: &mut (),
        _register: &G,
        _connection: &mut Connection<'_>,
    ) -> Result<(), IscsiFault> {
        Ok(())
    }
}
