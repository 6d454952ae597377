use crate::{
    DriveState, ElementAddresses, ElementRange, HeaderForm, ModeSense, ModeValues, PageControl,
    changer_mode_data, drive_mode_data,
};
use std::test::Fail;

/// All pages, with current values.
const ALL_PAGES: ModeSense = ModeSense {
    form: HeaderForm::Six,
    disable_block_descriptors: false,
    page_control: PageControl::Current,
    page_code: 0x3F,
    subpage_code: 0,
};

/// With memory, all pages of a drive come.
#[test]
fn pages_of_a_drive_come(rt: HostRuntime) -> Result<(), Fail> {
    let state = DriveState {
        values: ModeValues::default(),
        write_protected: false,
        has_volume: true,
    };
    match drive_mode_data(rt.alloc(), &ALL_PAGES, &state)? {
        Ok(list) => assert_eq!(rt; list.len(), 136, "all pages"),
        Err(_) => assert!(rt; false, "they are refused"),
    }
    Ok(())
}

/// The same of a changer.
#[test]
fn pages_of_a_changer_come(rt: HostRuntime) -> Result<(), Fail> {
    let range = ElementRange { first: 1, count: 1 };
    let elements = ElementAddresses {
        medium_transport: range,
        storage: range,
        import_export: range,
        data_transfer: range,
    };
    match changer_mode_data(rt.alloc(), &ALL_PAGES, &elements)? {
        Ok(list) => assert_eq!(rt; list.len(), 72, "all pages"),
        Err(_) => assert!(rt; false, "they are refused"),
    }
    Ok(())
}
