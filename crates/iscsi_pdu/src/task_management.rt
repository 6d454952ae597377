ghost use Rattle.std.specs.Prelude.{◌≡◌, ◌≤◌};

/// What a task management function request asks for (RFC 7143, "Function").
#[derive(Clone, Copy)]
pub enum TaskManagementFunction {
    AbortTask,
    AbortTaskSet,
    ClearAca,
    ClearTaskSet,
    LogicalUnitReset,
    TargetWarmReset,
    TargetColdReset,
    TaskReassign,
    /// Any other code.
    Reserved,
}

impl TaskManagementFunction {
    ghost use Rattle.iscsi_pdu.specs.Codes.{task_management_function_code, task_management_function_of};

    /// What the code stands for.
    pub fn of(code: u8) -> TaskManagementFunction
        ensures { result ≡ task_management_function_of code }
    {
        match code {
            0x01 => TaskManagementFunction::AbortTask,
            0x02 => TaskManagementFunction::AbortTaskSet,
            0x03 => TaskManagementFunction::ClearAca,
            0x04 => TaskManagementFunction::ClearTaskSet,
            0x05 => TaskManagementFunction::LogicalUnitReset,
            0x06 => TaskManagementFunction::TargetWarmReset,
            0x07 => TaskManagementFunction::TargetColdReset,
            0x08 => TaskManagementFunction::TaskReassign,
            _ => TaskManagementFunction::Reserved,
        }
    }

    /// Its code; of `Reserved` one that stands for nothing.
    pub fn code(self) -> u8
        ensures code { result ≡ task_management_function_code self }
        ensures most { result ≤ 8 }
    {
        match self {
            TaskManagementFunction::AbortTask => 0x01,
            TaskManagementFunction::AbortTaskSet => 0x02,
            TaskManagementFunction::ClearAca => 0x03,
            TaskManagementFunction::ClearTaskSet => 0x04,
            TaskManagementFunction::LogicalUnitReset => 0x05,
            TaskManagementFunction::TargetWarmReset => 0x06,
            TaskManagementFunction::TargetColdReset => 0x07,
            TaskManagementFunction::TaskReassign => 0x08,
            TaskManagementFunction::Reserved => 0x00,
        }
    }
}
