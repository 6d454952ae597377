ghost use Rattle.std.specs.Prelude.{◌≡◌};

/// How a task management function was answered (RFC 7143, "Response" of the Task Management Function Response).
#[derive(Clone, Copy, PartialEq, Eq)]
pub enum TaskManagementResult {
    FunctionComplete,
    TaskDoesNotExist,
    LunDoesNotExist,
    TaskStillAllegiant,
    TaskAllegianceReassignmentNotSupported,
    FunctionNotSupported,
    FunctionAuthorizationFailed,
    FunctionRejected,
    /// Any other code.
    Reserved,
}

impl TaskManagementResult {
    ghost use Rattle.iscsi_pdu.specs.Codes.{task_management_result_code, task_management_result_of};

    /// What the code stands for.
    pub fn of(code: u8) -> TaskManagementResult
        ensures { result ≡ task_management_result_of code }
    {
        match code {
            0x00 => TaskManagementResult::FunctionComplete,
            0x01 => TaskManagementResult::TaskDoesNotExist,
            0x02 => TaskManagementResult::LunDoesNotExist,
            0x03 => TaskManagementResult::TaskStillAllegiant,
            0x04 => TaskManagementResult::TaskAllegianceReassignmentNotSupported,
            0x05 => TaskManagementResult::FunctionNotSupported,
            0x06 => TaskManagementResult::FunctionAuthorizationFailed,
            0xFF => TaskManagementResult::FunctionRejected,
            _ => TaskManagementResult::Reserved,
        }
    }

    /// Its code; of `Reserved` one that stands for nothing.
    pub fn code(self) -> u8
        ensures { result ≡ task_management_result_code self }
    {
        match self {
            TaskManagementResult::FunctionComplete => 0x00,
            TaskManagementResult::TaskDoesNotExist => 0x01,
            TaskManagementResult::LunDoesNotExist => 0x02,
            TaskManagementResult::TaskStillAllegiant => 0x03,
            TaskManagementResult::TaskAllegianceReassignmentNotSupported => 0x04,
            TaskManagementResult::FunctionNotSupported => 0x05,
            TaskManagementResult::FunctionAuthorizationFailed => 0x06,
            TaskManagementResult::FunctionRejected => 0xFF,
            TaskManagementResult::Reserved => 0x07,
        }
    }
}
