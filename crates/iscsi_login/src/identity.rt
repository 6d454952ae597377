ghost use Rattle.std.specs.Prelude.{◌≡◌};

use iscsi_pdu::{LoginRequest, SerialNumber};

/// What all requests of a login carry alike (RFC 7143, "Login Request").
#[derive(Clone, Copy)]
pub struct LoginIdentity {
    /// The initiator's part of the session identifier, six bytes.
    pub isid: u64,
    /// The target's part, 0 where a new session is asked for.
    pub tsih: u16,
    pub initiator_task_tag: u32,
    /// The connection identifier.
    pub cid: u16,
    pub cmd_sn: SerialNumber,
}

impl LoginIdentity {
    ghost use Rattle.iscsi_login.specs.Identities.{identity_of, is_same};

    pub fn of(request: &LoginRequest) -> LoginIdentity
        ensures { result ≡ identity_of request.now }
    {
        LoginIdentity {
            isid: request.isid,
            tsih: request.tsih,
            initiator_task_tag: request.initiator_task_tag,
            cid: request.cid,
            cmd_sn: request.cmd_sn,
        }
    }

    /// Whether the request is one of the same login.
    pub fn is_of(self, request: &LoginRequest) -> bool
        ensures { result ≡ is_same self (identity_of request.now) }
    {
        self.isid == request.isid
            && self.tsih == request.tsih
            && self.initiator_task_tag == request.initiator_task_tag
            && self.cid == request.cid
            && self.cmd_sn.number == request.cmd_sn.number
    }
}
