ghost use Rattle.std.specs.Prelude.{◌≡◌};
ghost use Rattle.log_pages.specs.Pages.{common_page_at, drive_page_at, last_of_common, last_of_drive};

use crate::layout::*;

/// A log page that drives and changers have.
#[derive(Clone, Copy)]
pub(crate) enum CommonLogPage {
    /// 00h (SPC-4, "Supported Log Pages log page").
    SupportedLogPages,
    /// 00h/FFh (SPC-4, "Supported Log Pages and Subpages log page").
    SupportedLogPagesAndSubpages,
    /// 2Eh (SSC-4, "TapeAlert log page").
    TapeAlert,
}

/// A log page of a drive.
#[derive(Clone, Copy)]
pub(crate) enum DriveLogPage {
    Common(CommonLogPage),
    /// 02h (SPC-4, "Write Error Counter log page").
    WriteErrorCounters,
    /// 03h (SPC-4, "Read Error Counter log page").
    ReadErrorCounters,
    /// 0Ch (SSC-4, "Sequential-Access Device log page").
    SequentialAccessDevice,
    /// 31h, the vendor specific Tape Capacity page of LTO drives.
    TapeCapacity,
}

/// The page of a page and a subpage code, of those that every unit has.
pub(crate) fn common_page_at(page_code: u8, subpage_code: u8) -> Option<CommonLogPage>
    ensures { result ≡ common_page_at page_code subpage_code }
{
    match (page_code, subpage_code) {
        (SUPPORTED_LOG_PAGES, NO_SUBPAGE) => Some(CommonLogPage::SupportedLogPages),
        (SUPPORTED_LOG_PAGES, ALL_SUBPAGES) => Some(CommonLogPage::SupportedLogPagesAndSubpages),
        (TAPE_ALERT, NO_SUBPAGE) => Some(CommonLogPage::TapeAlert),
        _ => None,
    }
}

/// The page of a page and a subpage code, of those that a drive has.
pub(crate) fn drive_page_at(page_code: u8, subpage_code: u8) -> Option<DriveLogPage>
    ensures { result ≡ drive_page_at page_code subpage_code }
{
    match (page_code, subpage_code) {
        (WRITE_ERROR_COUNTERS, NO_SUBPAGE) => Some(DriveLogPage::WriteErrorCounters),
        (READ_ERROR_COUNTERS, NO_SUBPAGE) => Some(DriveLogPage::ReadErrorCounters),
        (SEQUENTIAL_ACCESS_DEVICE, NO_SUBPAGE) => Some(DriveLogPage::SequentialAccessDevice),
        (TAPE_CAPACITY, NO_SUBPAGE) => Some(DriveLogPage::TapeCapacity),
        _ => match common_page_at(page_code, subpage_code) {
            None => None,
            Some(page) => Some(DriveLogPage::Common(page)),
        },
    }
}

impl CommonLogPage {
    /// The last parameter code, 0 of a page that has no parameters (profile).
    pub(crate) fn last_code(self) -> u16
        ensures { result ≡ last_of_common self }
    {
        match self {
            CommonLogPage::SupportedLogPages | CommonLogPage::SupportedLogPagesAndSubpages => {
                NO_PARAMETER
            }
            CommonLogPage::TapeAlert => LAST_TAPE_ALERT_FLAG,
        }
    }
}

impl DriveLogPage {
    /// The last parameter code.
    pub(crate) fn last_code(self) -> u16
        ensures { result ≡ last_of_drive self }
    {
        match self {
            DriveLogPage::Common(page) => page.last_code(),
            DriveLogPage::WriteErrorCounters | DriveLogPage::ReadErrorCounters => {
                TOTAL_UNCORRECTED_ERRORS
            }
            DriveLogPage::SequentialAccessDevice => CLEANING_REQUIRED,
            DriveLogPage::TapeCapacity => MAXIMUM_CAPACITY_OF_PARTITION_1,
        }
    }
}
