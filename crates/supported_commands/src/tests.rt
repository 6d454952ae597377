//! The answers once each, with memory.
use crate::{ReportOperationCodes, ReportingOptions, supported_operation_codes};
use scsi_cdb::Kind;
use std::alloc::Global;
use std::process::Abort;

/// The length of the answer of a drive for READ(6), 0 where the command is refused.
fn length_of_answer(rt: &impl Abort, alloc: Global, options: ReportingOptions) -> usize {
    let asked = ReportOperationCodes {
        return_timeouts: true,
        options,
        operation_code: 0x08,
        service_action: 0,
    };
    let answer = supported_operation_codes(alloc, Kind::Drive, &asked).expect(rt, "memory");
    match answer {
        Ok(bytes) => bytes.len(),
        Err(_) => 0,
    }
}

#[test]
fn each_option_is_answered(rt: HostRuntime) {
    for (options, length) in [
        (ReportingOptions::All, 744),
        (ReportingOptions::OneWithoutServiceActions, 22),
        (ReportingOptions::OneWithServiceAction, 0),
        (ReportingOptions::Either, 22),
    ] {
        assert_eq!(rt; length_of_answer(&rt, rt.alloc(), options), length);
    }
}
