//! Calls that allocate, each once, and how a library's number is printed.

use crate::inquiry::inquiry_data;
use crate::inquiry_context::InquiryContext;
use crate::library_number::LibraryNumber;
use crate::unit_identity::UnitIdentity;
use crate::vital_product_data::vital_product_page;
use scsi_cdb::Kind;

const LIBRARY: LibraryNumber = LibraryNumber {
    number: 0x1A2B_3C4D,
};

const FIRST_DRIVE: InquiryContext = InquiryContext {
    identity: UnitIdentity {
        library_number: LIBRARY,
        lun: 1,
    },
    target_port: 1,
    element_address: 0x0100,
};

#[test]
fn a_page_is_answered(rt: HostRuntime) {
    let answer = vital_product_page(rt.alloc(), Kind::Drive, &FIRST_DRIVE, 0x80);
    let page = answer.expect(&rt, "memory").expect(&rt, "a page");
    assert!(rt;
        page.as_slice() == b"\x01\x80\x00\x0a1A2B3C4D01".as_slice(),
        "the serial number"
    );
}

#[test]
fn an_inquiry_is_answered(rt: HostRuntime) {
    let answer = inquiry_data(rt.alloc(), Kind::Drive, &FIRST_DRIVE, false, 0x00);
    let bytes = answer.expect(&rt, "memory").expect(&rt, "standard data");
    assert!(rt;
        bytes.starts_with(b"\x01\x80\x06\x02\x5b\x00\x10\x02VTLIB   TAPE DRIVE      0001"),
        "standard data"
    );
}

#[test]
fn a_library_number_is_printed(rt: HostRuntime) {
    let text = format!(in rt.alloc(); "{LIBRARY}").expect(&rt, "memory");
    assert!(rt; text.as_str() == "1A2B3C4D", "the digits");
    assert!(rt; LibraryNumber::parse(&text) == Some(LIBRARY), "the number");
}
