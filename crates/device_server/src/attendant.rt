use crate::device::DeviceServer;

/// Who looks after the volumes of a device between its commands, as by keeping copies of their tapes. Nothing of the device changes
/// but how many objects of a tape count as unchanged, which no command looks at.
pub trait Attendant<D: DeviceServer> {
    ghost use Rattle.std.specs.Prelude.{ℕ};
    ghost use Rattle.device_server.specs.View.{DeviceView};
    ghost use Rattle.device_server.specs.Settled.{SameButSettled};

    /// What it does at the device of the unit of a number, and what it knows afterwards. Nobody but the attendant can say so, so a call
    /// that lets one at a device has asked it, and has said of which unit the device is.
    ghost looks_after: { Self → (lun : ℕ) → (before after : DeviceView) → Self → Type 0 };

    fn attend(&mut self, lun: u8, device: &mut D)
        ensures same { SameButSettled (D.shown device.old) (D.shown device.new) }
        ensures asked { looks_after self.old lun (D.shown device.old) (D.shown device.new) self.new };
}
