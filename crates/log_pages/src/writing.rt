ghost use Rattle.std.specs.Prelude.{◌≡◌, ◌≤◌, ◌+◌, ◌*◌, length, vec_len, IfOk};
ghost use Rattle.log_pages.specs.Parameters.{parameters_from, parameter_page};

use crate::layout::{LONGEST_LOG_DATA, LONGEST_PARAMETER, MOST_PARAMETERS, NO_SUBPAGE};
use crate::parameter::{LogParameter, write_parameter_from};
use std::alloc::{AllocError, Global};

/// A log page of parameters: its header, and the parameters whose codes are at least the parameter pointer.
pub(crate) fn parameter_page(
    alloc: Global,
    page_code: u8,
    pointer: u16,
    parameters: &[LogParameter],
) -> Result<Vec<u8>, AllocError>
    requires { length parameters.now ≤ MOST_PARAMETERS }
    ensures page { IfOk result (λ bytes. bytes.items ≡ parameter_page page_code pointer parameters.now) }
    ensures short { IfOk result (λ bytes. vec_len bytes ≤ LONGEST_LOG_DATA) }
{
    let list = parameters_from(alloc, pointer, parameters)?;
    let [l1, l0] = (list.len() as u16).to_be_bytes();
    let mut page = Vec::from_slice(alloc, &[page_code, NO_SUBPAGE, l1, l0])?;
    page.extend_from_slice(list.as_slice())?;
    Ok(page)
}

/// The bytes of the parameters whose codes are at least the parameter pointer.
#[tactic(auto, unfolding(crate::specs::Parameters::parameters_from))]
fn parameters_from(
    alloc: Global,
    pointer: u16,
    parameters: &[LogParameter],
) -> Result<Vec<u8>, AllocError>
    ensures bytes { IfOk result (λ bytes. bytes.items ≡ parameters_from pointer parameters.now) }
    ensures short { IfOk result (λ bytes. vec_len bytes ≤ LONGEST_PARAMETER * length parameters.now) }
{
    let mut list = Vec::new(alloc);
    for parameter in parameters {
        write_parameter_from(&mut list, pointer, parameter)?;
    }
    Ok(list)
}
