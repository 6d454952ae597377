ghost use Rattle.std.specs.Prelude.{◌≡◌, ◌≤◌};

/// The task attribute of a command (RFC 7143, "Flags and Task Attributes").
#[derive(Clone, Copy)]
pub enum TaskAttribute {
    Untagged,
    Simple,
    Ordered,
    HeadOfQueue,
    Aca,
    /// Any other code.
    Reserved,
}

impl TaskAttribute {
    ghost use Rattle.iscsi_pdu.specs.Codes.{task_attribute_code, task_attribute_of};

    /// What the code stands for.
    pub fn of(code: u8) -> TaskAttribute
        ensures { result ≡ task_attribute_of code }
    {
        match code {
            0x00 => TaskAttribute::Untagged,
            0x01 => TaskAttribute::Simple,
            0x02 => TaskAttribute::Ordered,
            0x03 => TaskAttribute::HeadOfQueue,
            0x04 => TaskAttribute::Aca,
            _ => TaskAttribute::Reserved,
        }
    }

    /// Its code; of `Reserved` one that stands for nothing.
    pub fn code(self) -> u8
        ensures code { result ≡ task_attribute_code self }
        ensures most { result ≤ 7 }
    {
        match self {
            TaskAttribute::Untagged => 0x00,
            TaskAttribute::Simple => 0x01,
            TaskAttribute::Ordered => 0x02,
            TaskAttribute::HeadOfQueue => 0x03,
            TaskAttribute::Aca => 0x04,
            TaskAttribute::Reserved => 0x07,
        }
    }
}
