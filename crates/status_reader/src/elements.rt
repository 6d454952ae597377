//! The elements of a changer.

ghost use Rattle.std.specs.Prelude.{◌≡◌, ◌++◌, ◌≤◌, IfOk, OnOk};
ghost use Rattle.element_map.specs.Runs.{count_of};
ghost use Rattle.status_reader.specs.Summaries.{element_summary, elements_of_type, summaries_of};

use element_map::{ElementType, Elements};
use library_status::ElementSummary;
use std::alloc::{AllocError, Global};

/// All elements that may hold a volume.
pub(crate) fn elements_of(
    alloc: Global,
    elements: &Elements,
) -> Result<Vec<ElementSummary>, AllocError>
    ensures { IfOk result (λ list. list.items ≡ summaries_of elements.now) }
{
    let mut list = Vec::new(alloc);
    add_elements(&mut list, elements, ElementType::DataTransfer)?;
    add_elements(&mut list, elements, ElementType::ImportExport)?;
    add_elements(&mut list, elements, ElementType::Storage)?;
    Ok(list)
}

/// Adds the elements of a type.
#[tactic(auto, using(crate::proofs::Growing::one_more))]
fn add_elements(
    list: &mut Vec<ElementSummary>,
    elements: &Elements,
    element_type: ElementType,
) -> Result<(), AllocError>
    ensures { OnOk result (list.new.items ≡ list.old.items ++ elements_of_type elements.now element_type (count_of elements.now element_type)) }
{
    'numbers: for number in 0..elements.count(element_type) {
        list.push(element_at(elements, element_type, number))?;
    }
    Ok(())
}

/// The element of a number within its type.
fn element_at(elements: &Elements, element_type: ElementType, number: u16) -> ElementSummary
    requires { number ≤ 1024 }
    ensures { result ≡ element_summary elements.now element_type number }
{
    let address = element_type.first_address() + number;
    ElementSummary {
        element_type,
        address,
        tag: elements.read(address).unwrap_or(None),
    }
}
