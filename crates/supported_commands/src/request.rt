use crate::options::ReportingOptions;

/// The fields of a REPORT SUPPORTED OPERATION CODES command that say what is asked for (SPC-4, "REPORT SUPPORTED OPERATION CODES
/// command").
#[derive(Clone, Copy)]
pub struct ReportOperationCodes {
    /// RCTD: a command timeouts descriptor follows each command's data.
    pub return_timeouts: bool,
    pub options: ReportingOptions,
    /// REQUESTED OPERATION CODE, which counts under all options but `All`.
    pub operation_code: u8,
    /// REQUESTED SERVICE ACTION, which counts under `OneWithServiceAction` and `Either`.
    pub service_action: u16,
}
