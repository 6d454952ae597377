//! Worked rows that the definitions compute to, and a law of them.

ghost use Rattle.library_start.specs.Profiles.{DefaultDevices};
ghost use Rattle.library_start.specs.StockRows.{UnitsOfTheLibrary};

/// The units of the usual library, and of a larger one.
pub fn power_on_rows()
    ensures { UnitsOfTheLibrary }
{}

/// Law: the devices of a library of the default profile know nothing of hosts.
pub fn default_devices()
    ensures { DefaultDevices }
{}
