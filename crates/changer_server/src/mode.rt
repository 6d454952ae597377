//! Mode parameters (SPC-4, "Mode parameter list formats"; SMC-3, "Element address assignment mode page").

ghost use Rattle.std.specs.Prelude.{◌≡◌, IfOk, take};
ghost use Rattle.device_server.specs.Changer.{assigned, changer_mode_data};
ghost use Rattle.element_map.specs.Runs.{first_of, count_of};

use device_server::Payload;
use device_server::mode_layout::ELEMENT_ADDRESS_ASSIGNMENT_PAGE;
use element_map::{ElementType, Elements};
use std::alloc::{AllocError, Global};

/// MODE DATA LENGTH: how many bytes follow it.
const MODE_DATA_LENGTH: u8 = 0x17;

/// How many bytes of the element address assignment page follow its length.
const PAGE_LENGTH: u8 = 0x12;

/// The data of MODE SENSE, cut at the allocation length: a header without block descriptor, and the element address assignment page.
pub(crate) fn mode_data(
    alloc: Global,
    elements: &Elements,
    allocation_length: u8,
) -> Result<Payload, AllocError>
    ensures { IfOk result (λ payload. payload ≡ take allocation_length (changer_mode_data elements.now)) }
{
    let [t3, t2, t1, t0] = assigned(elements, ElementType::MediumTransport);
    let [s3, s2, s1, s0] = assigned(elements, ElementType::Storage);
    let [p3, p2, p1, p0] = assigned(elements, ElementType::ImportExport);
    let [d3, d2, d1, d0] = assigned(elements, ElementType::DataTransfer);
    let data = [
        MODE_DATA_LENGTH,
        0,
        0,
        0,
        ELEMENT_ADDRESS_ASSIGNMENT_PAGE,
        PAGE_LENGTH,
        t3,
        t2,
        t1,
        t0,
        s3,
        s2,
        s1,
        s0,
        p3,
        p2,
        p1,
        p0,
        d3,
        d2,
        d1,
        d0,
        0,
        0,
    ];
    Ok(Payload::copied(alloc, &data)?.cut(usize::from(allocation_length)))
}

/// The first address and the number of the elements of a type.
fn assigned(elements: &Elements, element_type: ElementType) -> [u8; 4]
    ensures { result ≡ assigned (first_of element_type) (count_of elements.now element_type) }
{
    let [a1, a0] = element_type.first_address().to_be_bytes();
    let [n1, n0] = elements.count(element_type).to_be_bytes();
    [a1, a0, n1, n0]
}
