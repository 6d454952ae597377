use crate::{DriveLog, LogCounters, LogSense, VolumeLog, changer_log_data, drive_log_data};
use std::test::Fail;

fn sense_of(page_code: u8, subpage_code: u8) -> LogSense {
    LogSense {
        parameter_pointer_control: false,
        save_parameters: false,
        page_code,
        subpage_code,
        parameter_pointer: 0,
    }
}

/// With memory, each page of a drive comes, as long as the standard says.
#[test]
fn pages_of_a_drive_come(rt: HostRuntime) -> Result<(), Fail> {
    let log = DriveLog {
        counters: LogCounters::at_power_on().wrote(1_000).read(2_000, 1_500),
        volume: Some(VolumeLog {
            capacity: 16_777_216,
            to_end_of_data: 1_000,
            position: 0,
            early_warning: 0,
        }),
    };
    let pages = [
        (0x00, 0x00, 10),
        (0x00, 0xFF, 18),
        (0x02, 0x00, 64),
        (0x03, 0x00, 64),
        (0x0C, 0x00, 100),
        (0x2E, 0x00, 324),
        (0x31, 0x00, 36),
    ];
    for (page_code, subpage_code, length) in pages {
        match drive_log_data(rt.alloc(), &sense_of(page_code, subpage_code), &log)? {
            Ok(bytes) => assert_eq!(rt; bytes.len(), length, "page {page_code}"),
            Err(_) => assert!(rt; false, "page {page_code} is refused"),
        }
    }
    Ok(())
}

/// The same of a changer.
#[test]
fn pages_of_a_changer_come(rt: HostRuntime) -> Result<(), Fail> {
    for (page_code, subpage_code, length) in [
        (0x00, 0x00, 6),
        (0x00, 0xFF, 10),
        (0x2E, 0x00, 324),
    ] {
        match changer_log_data(rt.alloc(), &sense_of(page_code, subpage_code))? {
            Ok(bytes) => assert_eq!(rt; bytes.len(), length, "page {page_code}"),
            Err(_) => assert!(rt; false, "page {page_code} is refused"),
        }
    }
    Ok(())
}
