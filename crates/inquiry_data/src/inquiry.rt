//! INQUIRY data (SPC-4, "INQUIRY command").
ghost use Rattle.std.specs.Prelude.{◌≡◌, ◌≤◌, vec_len, IfOk, IfSome};
ghost use Rattle.std.specs.Option.{option_map};
ghost use Rattle.inquiry_data.specs.Inquiry.{inquiry_data};

use crate::inquiry_context::InquiryContext;
use crate::standard::standard_inquiry;
use crate::vital_product_data::vital_product_page;
use scsi_cdb::Kind;
use std::alloc::{AllocError, Global};

/// The data of an INQUIRY, uncut; none where its fields are refused: a page that units of the kind haven't got, or without EVPD a page code
/// that isn't 0.
pub fn inquiry_data(
    alloc: Global,
    kind: Kind,
    context: &InquiryContext,
    vital_product_data: bool,
    page_code: u8,
) -> Result<Option<Vec<u8>>, AllocError>
    ensures answer { IfOk result (λ answer.
        option_map (λ bytes. bytes.items) answer ≡ inquiry_data kind context.now vital_product_data page_code) }
    ensures short { IfOk result (λ answer. IfSome answer (λ bytes. vec_len bytes ≤ 254)) }
{
    match (vital_product_data, page_code) {
        (true, _) => vital_product_page(alloc, kind, context, page_code),
        (false, 0) => Ok(Some(Vec::from_slice(alloc, standard_inquiry(kind))?)),
        (false, _) => Ok(None),
    }
}
