ghost use Rattle.std.specs.Prelude.{◌≡◌};
ghost use Rattle.mode_pages.specs.Asked.{asked, asked_fault};

use crate::layout::{ALL_PAGE_CODES, ALL_SUBPAGE_CODES, NO_PAGE_CODE, NO_SUBPAGE_CODE};
use crate::request::PageControl;
use scsi_sense::Condition;

/// Which pages a page code and a subpage code ask for (SPC-4, "MODE SENSE(6) command").
#[derive(Clone, Copy)]
pub enum PagesAsked {
    NoPage,
    AllPages,
    /// That of the page code.
    PageOfCode,
    /// A single subpage, of which there are none.
    PageOfSubpage,
}

pub fn asked(page_code: u8, subpage_code: u8) -> PagesAsked
    ensures { result ≡ asked page_code subpage_code }
{
    if page_code == NO_PAGE_CODE {
        return PagesAsked::NoPage;
    }
    if subpage_code != NO_SUBPAGE_CODE && subpage_code != ALL_SUBPAGE_CODES {
        return PagesAsked::PageOfSubpage;
    }
    if page_code == ALL_PAGE_CODES {
        PagesAsked::AllPages
    } else {
        PagesAsked::PageOfCode
    }
}

/// Why a MODE SENSE is refused, where the unit has the page of the page code or hasn't.
pub fn sense_fault(control: PageControl, asked: PagesAsked, has_page: bool) -> Option<Condition>
    ensures { result ≡ asked_fault control asked has_page }
{
    if let PageControl::Saved = control {
        return Some(Condition::SavingParametersNotSupported);
    }
    let is_offered = match asked {
        PagesAsked::NoPage | PagesAsked::AllPages => true,
        PagesAsked::PageOfCode => has_page,
        PagesAsked::PageOfSubpage => false,
    };
    if is_offered {
        None
    } else {
        Some(Condition::InvalidFieldInCdb)
    }
}
