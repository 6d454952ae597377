ghost use Rattle.std.specs.Prelude.{◌≡◌};
ghost use Rattle.supported_commands.specs.TaskManagement.{task_management};

/// ATS: ABORT TASK.
const ABORT_TASK: u8 = 0x80;

/// ATSS: ABORT TASK SET.
const ABORT_TASK_SET: u8 = 0x40;

/// LURS: LOGICAL UNIT RESET.
const LOGICAL_UNIT_RESET: u8 = 0x08;

/// TRS: TARGET RESET.
const TARGET_RESET: u8 = 0x02;

/// The functions that are supported (profile).
const FUNCTIONS: u8 = ABORT_TASK | ABORT_TASK_SET | LOGICAL_UNIT_RESET | TARGET_RESET;

static SHORT_DATA: [u8; 4] = [FUNCTIONS, 0x00, 0x00, 0x00];

/// The extended data: 12 bytes follow the first four, and say no timeouts.
static EXTENDED_DATA: [u8; 16] = [
    FUNCTIONS, 0x00, 0x00, 0x0C, 0x00, 0x00, 0x00, 0x00, 0x00, 0x00, 0x00, 0x00, 0x00, 0x00, 0x00,
    0x00,
];

/// The data of REPORT SUPPORTED TASK MANAGEMENT FUNCTIONS: 4 bytes, or 16 where the extended data are asked for (REPD), uncut (SPC-4,
/// "REPORT SUPPORTED TASK MANAGEMENT FUNCTIONS command").
pub fn supported_task_management(return_extended: bool) -> &'static [u8]
    ensures { result.now ≡ task_management return_extended }
{
    if return_extended {
        &EXTENDED_DATA
    } else {
        &SHORT_DATA
    }
}
