use crate::data_out::DataOut;
use crate::fields::*;
use crate::header::Header;
use crate::layout::*;
use crate::login_request::LoginRequest;
use crate::logout_request::LogoutRequest;
use crate::nop_out::NopOut;
use crate::scsi_command::ScsiCommand;
use crate::snack_request::SnackRequest;
use crate::task_management_request::TaskManagementRequest;
use crate::text_request::TextRequest;
use crate::unknown_request::UnknownRequest;

/// A basic header segment that an initiator sends (RFC 7143, "Opcode").
#[derive(Clone, Copy)]
pub enum InitiatorHeader {
    NopOut(NopOut),
    ScsiCommand(ScsiCommand),
    TaskManagementRequest(TaskManagementRequest),
    LoginRequest(LoginRequest),
    TextRequest(TextRequest),
    DataOut(DataOut),
    LogoutRequest(LogoutRequest),
    SnackRequest(SnackRequest),
    /// Any other opcode.
    Unknown(UnknownRequest),
}

impl InitiatorHeader {
    ghost use Rattle.std.specs.Prelude.{◌≡◌, length};
    ghost use Rattle.iscsi_pdu.specs.InitiatorHeaders.{initiator_header, initiator_header_parts};

    /// The header in 48 bytes.
    #[tactic(auto, unfolding(crate::specs::InitiatorHeaders::initiator_header))]
    pub fn read(header: &[u8]) -> InitiatorHeader
        requires { length header.now ≡ 48 }
        ensures { result ≡ initiator_header header.now }
    {
        match opcode_at(header) {
            NOP_OUT => InitiatorHeader::NopOut(NopOut::read(header)),
            SCSI_COMMAND => InitiatorHeader::ScsiCommand(ScsiCommand::read(header)),
            TASK_MANAGEMENT_REQUEST => InitiatorHeader::TaskManagementRequest(
                TaskManagementRequest::read(header),
            ),
            LOGIN_REQUEST => InitiatorHeader::LoginRequest(LoginRequest::read(header)),
            TEXT_REQUEST => InitiatorHeader::TextRequest(TextRequest::read(header)),
            DATA_OUT => InitiatorHeader::DataOut(DataOut::read(header)),
            LOGOUT_REQUEST => InitiatorHeader::LogoutRequest(LogoutRequest::read(header)),
            SNACK_REQUEST => InitiatorHeader::SnackRequest(SnackRequest::read(header)),
            _ => InitiatorHeader::Unknown(UnknownRequest::read(header)),
        }
    }

    pub(crate) fn header(&self) -> Header
        ensures { result ≡ initiator_header_parts self.now }
    {
        match self {
            InitiatorHeader::NopOut(fields) => fields.header(),
            InitiatorHeader::ScsiCommand(fields) => fields.header(),
            InitiatorHeader::TaskManagementRequest(fields) => fields.header(),
            InitiatorHeader::LoginRequest(fields) => fields.header(),
            InitiatorHeader::TextRequest(fields) => fields.header(),
            InitiatorHeader::DataOut(fields) => fields.header(),
            InitiatorHeader::LogoutRequest(fields) => fields.header(),
            InitiatorHeader::SnackRequest(fields) => fields.header(),
            InitiatorHeader::Unknown(fields) => fields.header(),
        }
    }
}
