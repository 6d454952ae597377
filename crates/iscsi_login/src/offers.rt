ghost use Rattle.std.specs.Prelude.{◌≡◌, ◌≤◌, length};
ghost use Rattle.iscsi_login.specs.Offers.{negotiated_by, fault_status};

use iscsi_keys::{Negotiation, NegotiationFault, TextItem, first_item};
use iscsi_pdu::LoginStatus;

/// The negotiation once every key of the text was offered, or why the first that ends the login does.
pub(crate) fn negotiated_by(
    negotiation: Negotiation,
    text: &[u8],
) -> Result<Negotiation, LoginStatus>
    requires { length text.now ≤ 65536 }
    ensures { result ≡ negotiated_by negotiation text.now }
{
    let mut negotiation = negotiation;
    let mut left = text;
    'items: for _ in 0..text.len() + 1 {
        match first_item(left) {
            TextItem::End => return Ok(negotiation),
            TextItem::Invalid(_) => return Err(LoginStatus::InitiatorError),
            TextItem::Pair { key, value, rest } => match negotiation.offer(key, value) {
                Ok(_) => left = rest,
                Err(fault) => return Err(fault_status(fault)),
            },
        }
    }
    Err(LoginStatus::InitiatorError)
}

/// How a login is refused that has ended by the fault.
pub(crate) fn fault_status(fault: NegotiationFault) -> LoginStatus
    ensures { result ≡ fault_status fault }
{
    match fault {
        NegotiationFault::AuthenticationFailure => LoginStatus::AuthenticationFailure,
        NegotiationFault::KeyTwice
        | NegotiationFault::DigestNeeded
        | NegotiationFault::NeededKeyRejected => LoginStatus::InitiatorError,
    }
}
