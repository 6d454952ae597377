//! Calls that allocate, each once.

use crate::sources::ElementSources;
use crate::status::host_status;
use crate::status_request::StatusRequest;
use element_map::Elements;
use inquiry_data::LibraryNumber;
use tape_medium::VolumeTag;

#[test]
fn a_volume_in_a_drive_has_its_source(rt: HostRuntime) {
    let mut elements = Elements::new(rt.alloc(), 1, 3, 1).expect(&rt, "memory");
    let marked = elements.mark(0x0100, Some(VolumeTag([b'V'; 32])));
    assert!(rt; marked.is_ok(), "a drive");
    let mut sources = ElementSources::new(rt.alloc(), 1, 3, 1).expect(&rt, "memory");
    sources.note_move(0x0401, 0x0100);
    let library = LibraryNumber {
        number: 0x1A2B_3C4D,
    };
    let request = StatusRequest {
        element_type_code: 4,
        starting_element_address: 0,
        number_of_elements: 0xFFFF,
        volume_tags: false,
        device_identifiers: true,
    };
    let status = host_status(rt.alloc(), &elements, &sources, library, &request);
    let bytes = status.expect(&rt, "memory");
    assert!(rt;
        bytes.as_slice()
            == b"\x01\x00\x00\x01\x00\x00\x00\x3a\x04\x00\x00\x32\x00\x00\x00\x32\
            \x01\x00\x09\x00\x00\x00\x11\x00\x00\x81\x04\x01\
            \x02\x01\x00\x22VTLIB   TAPE DRIVE      1A2B3C4D01"
                .as_slice(),
        "the source and the device identifier"
    );
}
