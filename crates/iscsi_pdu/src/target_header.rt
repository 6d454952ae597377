use crate::async_message::AsyncMessage;
use crate::data_in::DataIn;
use crate::fields::*;
use crate::header::Header;
use crate::layout::*;
use crate::login_response::LoginResponse;
use crate::logout_response::LogoutResponse;
use crate::nop_in::NopIn;
use crate::r2t::ReadyToTransfer;
use crate::reject::Reject;
use crate::scsi_response::ScsiResponse;
use crate::task_management_response::TaskManagementResponse;
use crate::text_response::TextResponse;
use crate::unknown_response::UnknownResponse;

/// A basic header segment that a target sends (RFC 7143, "Opcode").
#[derive(Clone, Copy)]
pub enum TargetHeader {
    NopIn(NopIn),
    ScsiResponse(ScsiResponse),
    TaskManagementResponse(TaskManagementResponse),
    LoginResponse(LoginResponse),
    TextResponse(TextResponse),
    DataIn(DataIn),
    LogoutResponse(LogoutResponse),
    ReadyToTransfer(ReadyToTransfer),
    AsyncMessage(AsyncMessage),
    Reject(Reject),
    /// Any other opcode.
    Unknown(UnknownResponse),
}

impl TargetHeader {
    ghost use Rattle.std.specs.Prelude.{◌≡◌, length};
    ghost use Rattle.iscsi_pdu.specs.TargetHeaders.{target_header, target_header_parts};

    /// The header in 48 bytes.
    #[tactic(auto, unfolding(crate::specs::TargetHeaders::target_header))]
    pub fn read(header: &[u8]) -> TargetHeader
        requires { length header.now ≡ 48 }
        ensures { result ≡ target_header header.now }
    {
        match opcode_at(header) {
            NOP_IN => TargetHeader::NopIn(NopIn::read(header)),
            SCSI_RESPONSE => TargetHeader::ScsiResponse(ScsiResponse::read(header)),
            TASK_MANAGEMENT_RESPONSE => TargetHeader::TaskManagementResponse(
                TaskManagementResponse::read(header),
            ),
            LOGIN_RESPONSE => TargetHeader::LoginResponse(LoginResponse::read(header)),
            TEXT_RESPONSE => TargetHeader::TextResponse(TextResponse::read(header)),
            DATA_IN => TargetHeader::DataIn(DataIn::read(header)),
            LOGOUT_RESPONSE => TargetHeader::LogoutResponse(LogoutResponse::read(header)),
            R2T => TargetHeader::ReadyToTransfer(ReadyToTransfer::read(header)),
            ASYNC_MESSAGE => TargetHeader::AsyncMessage(AsyncMessage::read(header)),
            REJECT => TargetHeader::Reject(Reject::read(header)),
            _ => TargetHeader::Unknown(UnknownResponse::read(header)),
        }
    }

    pub(crate) fn header(&self) -> Header
        ensures { result ≡ target_header_parts self.now }
    {
        match self {
            TargetHeader::NopIn(fields) => fields.header(),
            TargetHeader::ScsiResponse(fields) => fields.header(),
            TargetHeader::TaskManagementResponse(fields) => fields.header(),
            TargetHeader::LoginResponse(fields) => fields.header(),
            TargetHeader::TextResponse(fields) => fields.header(),
            TargetHeader::DataIn(fields) => fields.header(),
            TargetHeader::LogoutResponse(fields) => fields.header(),
            TargetHeader::ReadyToTransfer(fields) => fields.header(),
            TargetHeader::AsyncMessage(fields) => fields.header(),
            TargetHeader::Reject(fields) => fields.header(),
            TargetHeader::Unknown(fields) => fields.header(),
        }
    }
}
