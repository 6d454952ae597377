/// The classes of command that the permission table tells apart, a row each.
#[derive(Clone, Copy, PartialEq, Eq)]
pub enum Class {
    TestUnitReady,
    RequestSense,
    Inquiry,
    ReportLuns,
    PersistentReserveIn,
    /// PREVENT ALLOW MEDIUM REMOVAL with PREVENT 0.
    AllowRemoval,
    ReadBlockLimits,
    ReadPosition,
    /// READ ELEMENT STATUS with CURDATA 1.
    ReadElementStatusCurdata,
    ModeSense,
    Read,
    Space,
    Locate,
    Rewind,
    /// READ ELEMENT STATUS with CURDATA 0.
    ReadElementStatus,
    ModeSelect,
    /// PREVENT ALLOW MEDIUM REMOVAL with PREVENT 1, 2 or 3.
    PreventRemoval,
    Write,
    WriteFilemarks,
    Erase,
    LoadUnload,
    MoveMedium,
    InitializeElementStatus,
    Register,
    RegisterAndIgnoreExistingKey,
    Clear,
    Preempt,
    PreemptAndAbort,
    Release,
    Reserve,
    RegisterAndMove,
    // Those that only the hosts' profile has.
    SendDiagnostic,
    LogSelect,
    LogSense,
    /// MODE SELECT(10).
    ModeSelect10,
    /// MODE SENSE(10).
    ModeSense10,
    ReportSupportedOperationCodes,
    ReportSupportedTaskManagementFunctions,
    PositionToElement,
    ExchangeMedium,
}
