//! Mode parameter lists, put together.
ghost use Rattle.std.specs.Prelude.{◌≡◌, ◌≤◌, ◌+◌, ◌-◌, ◌++◌, ◌∷◌, length, replicate, IfOk, OnOk, vec_len};
ghost use Rattle.mode_pages.specs.Lists.{header, mode_data, page_of};

use crate::layout::{REST_OF_SIX, REST_OF_TEN};
use crate::request::HeaderForm;
use std::alloc::{AllocError, Global};

/// As many zeros as the longest page has bytes after the first two.
const ZEROS: [u8; 30] = [0; 30];

/// The data of MODE SENSE (SPC-4, "Mode parameter list formats").
pub fn mode_data(
    alloc: Global,
    form: HeaderForm,
    medium_type: u8,
    device_specific: u8,
    descriptors: &[u8],
    pages: &[u8],
) -> Result<Vec<u8>, AllocError>
    requires one_descriptor { length descriptors.now ≤ 8 }
    requires short { length pages.now ≤ 124 }
    ensures { IfOk result (λ list. list.items ≡ mode_data form medium_type device_specific descriptors.now pages.now) }
{
    let (descriptor_length, page_length) = (descriptors.len(), pages.len());
    let mut list = header(
        alloc,
        form,
        medium_type,
        device_specific,
        descriptor_length,
        page_length,
    )?;
    list.extend_from_slice(descriptors)?;
    list.extend_from_slice(pages)?;
    Ok(list)
}

fn header(
    alloc: Global,
    form: HeaderForm,
    medium_type: u8,
    device_specific: u8,
    descriptor_length: usize,
    page_length: usize,
) -> Result<Vec<u8>, AllocError>
    requires one_descriptor { descriptor_length ≤ 8 }
    requires short { page_length ≤ 124 }
    ensures { IfOk result (λ list. list.items ≡ header form medium_type device_specific descriptor_length page_length) }
{
    match form {
        HeaderForm::Six => {
            let rest = (REST_OF_SIX + descriptor_length + page_length) as u8;
            let descriptors = descriptor_length as u8;
            Vec::from_slice(alloc, &[rest, medium_type, device_specific, descriptors])
        }
        HeaderForm::Ten => {
            let rest = (REST_OF_TEN + descriptor_length + page_length) as u16;
            let [n1, n0] = rest.to_be_bytes();
            let [d1, d0] = (descriptor_length as u16).to_be_bytes();
            Vec::from_slice(alloc, &[n1, n0, medium_type, device_specific, 0, 0, d1, d0])
        }
    }
}

/// Appends a page: its code, its length, the fields, then zeros.
pub fn extend_by_page(
    list: &mut Vec<u8>,
    code: u8,
    page_length: u8,
    fields: &[u8],
) -> Result<(), AllocError>
    requires long_enough { length fields.now ≤ page_length }
    requires short { page_length ≤ 30 }
    ensures { OnOk result (list.new.items ≡ list.old.items ++ page_of code page_length fields.now) }
{
    let zeros = &ZEROS[..usize::from(page_length) - fields.len()];
    list.extend_from_slice(&[code, page_length])?;
    list.extend_from_slice(fields)?;
    list.extend_from_slice(zeros)?;
    Ok(())
}
