ghost use Rattle.std.specs.Prelude.{◌≡◌};
ghost use Rattle.permit_tables.specs.Text.{class_name};

use scsi_cdb::Class;

/// The name of a class of command, as the permission table and the audit lines have it.
pub fn class_text(class: Class) -> &'static str
    ensures { result.now ≡ class_name class }
{
    match class {
        Class::TestUnitReady => "TEST-UNIT-READY",
        Class::RequestSense => "REQUEST-SENSE",
        Class::Inquiry => "INQUIRY",
        Class::ReportLuns => "REPORT-LUNS",
        Class::PersistentReserveIn => "PR-IN",
        Class::AllowRemoval => "ALLOW-REMOVAL",
        Class::ReadBlockLimits => "READ-BLOCK-LIMITS",
        Class::ReadPosition => "READ-POSITION",
        Class::ReadElementStatusCurdata => "READ-ELEMENT-STATUS-CURDATA",
        Class::ModeSense => "MODE-SENSE(6)",
        Class::Read => "READ(6)",
        Class::Space => "SPACE(6)",
        Class::Locate => "LOCATE(10)",
        Class::Rewind => "REWIND",
        Class::ReadElementStatus => "READ-ELEMENT-STATUS",
        Class::ModeSelect => "MODE-SELECT(6)",
        Class::PreventRemoval => "PREVENT-REMOVAL",
        Class::Write => "WRITE(6)",
        Class::WriteFilemarks => "WRITE-FILEMARKS(6)",
        Class::Erase => "ERASE(6)",
        Class::LoadUnload => "LOAD-UNLOAD",
        Class::MoveMedium => "MOVE-MEDIUM",
        Class::InitializeElementStatus => "INIT-ELEMENT-STATUS",
        Class::Register => "REGISTER",
        Class::RegisterAndIgnoreExistingKey => "REGISTER-IGNORE",
        Class::Clear => "CLEAR",
        Class::Preempt => "PREEMPT",
        Class::PreemptAndAbort => "PREEMPT-ABORT",
        Class::Release => "RELEASE",
        Class::Reserve => "RESERVE",
        Class::RegisterAndMove => "REGISTER-MOVE",
        Class::SendDiagnostic => "SEND-DIAGNOSTIC",
        Class::LogSelect => "LOG-SELECT",
        Class::LogSense => "LOG-SENSE",
        Class::ModeSelect10 => "MODE-SELECT(10)",
        Class::ModeSense10 => "MODE-SENSE(10)",
        Class::ReportSupportedOperationCodes => "REPORT-OPCODES",
        Class::ReportSupportedTaskManagementFunctions => "REPORT-TASK-MANAGEMENT",
        Class::PositionToElement => "POSITION-TO-ELEMENT",
        Class::ExchangeMedium => "EXCHANGE-MEDIUM",
    }
}
