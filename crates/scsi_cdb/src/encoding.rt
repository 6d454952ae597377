ghost use Rattle.std.specs.Prelude.{◌≡◌};
ghost use Rattle.scsi_cdb.specs.Encoding.{encoded};

use crate::fields::{flag, page_byte, zero_padded};
use crate::host_encoding::host_encode;
use crate::layout::*;
use crate::request::Request;

/// A CDB of the request, then zeros. Of a field only the bits of its width are written, and what is
/// no field is zero.
pub fn encode(request: &Request) -> [u8; CDB_LENGTH]
    ensures { result ≡ encoded request.now }
{
    match *request {
        Request::TestUnitReady => zero_padded(&[TEST_UNIT_READY]),
        Request::Rewind => zero_padded(&[REWIND]),
        Request::RequestSense {
            descriptor_format,
            allocation_length,
        } => {
            let flags = flag(DESC_BIT, descriptor_format);
            zero_padded(&[REQUEST_SENSE, flags, 0, 0, allocation_length])
        }
        Request::ReadBlockLimits => zero_padded(&[READ_BLOCK_LIMITS]),
        Request::InitializeElementStatus => zero_padded(&[INITIALIZE_ELEMENT_STATUS]),
        Request::Read {
            suppress_incorrect_length,
            fixed,
            transfer_length,
        } => {
            let flags = flag(SILI_BIT, suppress_incorrect_length) + flag(FIXED_BIT, fixed);
            let [_, n2, n1, n0] = transfer_length.to_be_bytes();
            zero_padded(&[READ_6, flags, n2, n1, n0])
        }
        Request::Write {
            fixed,
            transfer_length,
        } => {
            let [_, n2, n1, n0] = transfer_length.to_be_bytes();
            zero_padded(&[WRITE_6, flag(FIXED_BIT, fixed), n2, n1, n0])
        }
        Request::WriteFilemarks {
            write_setmarks,
            immediate,
            filemark_count,
        } => {
            let [_, n2, n1, n0] = filemark_count.to_be_bytes();
            let flags = flag(WSMK_BIT, write_setmarks) + flag(IMMED_BIT, immediate);
            zero_padded(&[WRITE_FILEMARKS_6, flags, n2, n1, n0])
        }
        Request::Space { code, count } => {
            let [_, n2, n1, n0] = count.to_be_bytes();
            zero_padded(&[SPACE_6, code & SPACE_CODE_BITS, n2, n1, n0])
        }
        Request::Inquiry {
            vital_product_data,
            page_code,
            allocation_length,
        } => {
            let flags = flag(EVPD_BIT, vital_product_data);
            let [n1, n0] = allocation_length.to_be_bytes();
            zero_padded(&[INQUIRY, flags, page_code, n1, n0])
        }
        Request::ModeSelect {
            save_pages,
            parameter_list_length,
        } => {
            let flags = flag(SP_BIT, save_pages);
            zero_padded(&[MODE_SELECT_6, flags, 0, 0, parameter_list_length])
        }
        Request::Erase => zero_padded(&[ERASE_6]),
        Request::ModeSense {
            disable_block_descriptors,
            page_control,
            page_code,
            subpage_code,
            allocation_length,
        } => {
            let flags = flag(DBD_BIT, disable_block_descriptors);
            let page = page_byte(page_control, page_code);
            zero_padded(&[MODE_SENSE_6, flags, page, subpage_code, allocation_length])
        }
        Request::LoadUnload {
            hold,
            end_of_tape,
            load,
        } => {
            let flags = flag(HOLD_BIT, hold) + flag(EOT_BIT, end_of_tape) + flag(LOAD_BIT, load);
            zero_padded(&[LOAD_UNLOAD, 0, 0, 0, flags])
        }
        Request::PreventAllowMediumRemoval { prevent } => {
            let prevent = prevent & PREVENT_BITS;
            zero_padded(&[PREVENT_ALLOW_MEDIUM_REMOVAL, 0, 0, 0, prevent])
        }
        Request::Locate {
            block_address_type,
            change_partition,
            logical_object_identifier,
            partition,
        } => {
            let flags = flag(BT_BIT, block_address_type) + flag(CP_BIT, change_partition);
            let [n3, n2, n1, n0] = logical_object_identifier.to_be_bytes();
            zero_padded(&[LOCATE_10, flags, 0, n3, n2, n1, n0, 0, partition])
        }
        Request::ReadPosition => zero_padded(&[READ_POSITION]),
        Request::PersistentReserveIn {
            service_action,
            allocation_length,
        } => {
            let code = service_action.code();
            let [n1, n0] = allocation_length.to_be_bytes();
            zero_padded(&[PERSISTENT_RESERVE_IN, code, 0, 0, 0, 0, 0, n1, n0])
        }
        Request::PersistentReserveOut {
            service_action,
            scope_type,
            parameter_list_length,
        } => {
            let code = service_action.code();
            let [n3, n2, n1, n0] = parameter_list_length.to_be_bytes();
            zero_padded(&[
                PERSISTENT_RESERVE_OUT,
                code,
                scope_type,
                0,
                0,
                n3,
                n2,
                n1,
                n0,
            ])
        }
        Request::ReportLuns {
            select_report,
            allocation_length,
        } => {
            let [n3, n2, n1, n0] = allocation_length.to_be_bytes();
            zero_padded(&[REPORT_LUNS, 0, select_report, 0, 0, 0, n3, n2, n1, n0])
        }
        Request::MoveMedium {
            medium_transport_element_address,
            source_element_address,
            destination_element_address,
            invert,
        } => {
            let [t1, t0] = medium_transport_element_address.to_be_bytes();
            let [s1, s0] = source_element_address.to_be_bytes();
            let [d1, d0] = destination_element_address.to_be_bytes();
            let flags = flag(INVERT_BIT, invert);
            zero_padded(&[MOVE_MEDIUM, 0, t1, t0, s1, s0, d1, d0, 0, 0, flags])
        }
        Request::ReadElementStatus {
            volume_tags,
            element_type_code,
            starting_element_address,
            number_of_elements,
            current_data,
            device_identifiers,
            allocation_length,
        } => {
            let elements = flag(VOLTAG_BIT, volume_tags) + (element_type_code & ELEMENT_TYPE_BITS);
            let [s1, s0] = starting_element_address.to_be_bytes();
            let [e1, e0] = number_of_elements.to_be_bytes();
            let flags = flag(CURDATA_BIT, current_data) + flag(DVCID_BIT, device_identifiers);
            let [_, n2, n1, n0] = allocation_length.to_be_bytes();
            zero_padded(&[
                READ_ELEMENT_STATUS,
                elements,
                s1,
                s0,
                e1,
                e0,
                flags,
                n2,
                n1,
                n0,
            ])
        }
        Request::Host(ref command) => host_encode(command),
    }
}
