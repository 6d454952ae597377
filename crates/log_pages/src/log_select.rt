ghost use Rattle.std.specs.Prelude.{◌≡◌};
ghost use Rattle.log_pages.specs.LogSelect.{selected, pages_reset, drive_pages_reset, common_pages_reset};

use crate::change::LogChange;
use crate::page::{CommonLogPage, DriveLogPage, common_page_at, drive_page_at};
use scsi_cdb::Kind;
use scsi_sense::Condition;

/// The fields of LOG SELECT (SPC-4, "LOG SELECT command"). PC is none of them (profile).
#[derive(Clone, Copy)]
pub struct LogSelect {
    /// PCR.
    pub parameter_code_reset: bool,
    /// SP.
    pub save_parameters: bool,
    /// 6 bits.
    pub page_code: u8,
    pub subpage_code: u8,
    /// The parameter list length that the command says, in bytes.
    pub list_length: u16,
}

/// What a LOG SELECT with data of so many bytes does at a unit of the kind, or why it is refused. Page 00h stands for all pages. No
/// parameter can be set (profile).
pub fn selected(kind: Kind, select: &LogSelect, data_length: usize) -> Result<LogChange, Condition>
    ensures { result ≡ selected kind select.now data_length }
{
    let Some(pages) = pages_reset(kind, select.page_code, select.subpage_code) else {
        return Err(Condition::InvalidFieldInCdb);
    };
    if select.save_parameters || (select.parameter_code_reset && select.list_length != 0) {
        return Err(Condition::InvalidFieldInCdb);
    }
    if select.parameter_code_reset {
        Ok(pages)
    } else if select.list_length == 0 {
        Ok(LogChange::Unchanged)
    } else if usize::from(select.list_length) != data_length {
        Err(Condition::ParameterListLengthError)
    } else {
        Err(Condition::InvalidFieldInParameterList)
    }
}

/// What PCR resets where a command names this page, if units of the kind have it.
fn pages_reset(kind: Kind, page_code: u8, subpage_code: u8) -> Option<LogChange>
    ensures { result ≡ pages_reset kind page_code subpage_code }
{
    match kind {
        Kind::Drive => Some(drive_pages_reset(drive_page_at(page_code, subpage_code)?)),
        Kind::Changer => Some(common_pages_reset(common_page_at(page_code, subpage_code)?)),
    }
}

fn drive_pages_reset(page: DriveLogPage) -> LogChange
    ensures { result ≡ drive_pages_reset page }
{
    match page {
        DriveLogPage::Common(page) => common_pages_reset(page),
        DriveLogPage::WriteErrorCounters => LogChange::WriteErrorCounters,
        DriveLogPage::ReadErrorCounters => LogChange::ReadErrorCounters,
        DriveLogPage::SequentialAccessDevice => LogChange::SequentialAccessDevice,
        DriveLogPage::TapeCapacity => LogChange::PageWithoutCounters,
    }
}

fn common_pages_reset(page: CommonLogPage) -> LogChange
    ensures { result ≡ common_pages_reset page }
{
    match page {
        CommonLogPage::SupportedLogPages | CommonLogPage::SupportedLogPagesAndSubpages => {
            LogChange::AllPages
        }
        CommonLogPage::TapeAlert => LogChange::PageWithoutCounters,
    }
}
