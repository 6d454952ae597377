//! Worked rows that the definitions compute to.

ghost use Rattle.program_options.specs.Rows.{AddressesRead, DigestsRead, FaultsTold, FormatsRead, HostsLetIn, LibrariesMade, LinesOfRefusals, PortalsTold, ProfilesChosen, SessionsServed, SizesRead, StatusesOfRefusals, StrangersLetIn, TargetsNumbered, TimesWaited};

/// Addresses of hosts, which hosts are let in, what is reported of each fault, how the program ends where its command line names no task,
/// how many workers serve, how long the server waits for hosts, what libraries and volumes are made of, which addresses of portals are sent
/// to initiators, by which digests they answer, how many hosts come in that no name lets in, which profile and number a library
/// has, and in which form records are written into a file.
pub fn worked_rows()
    ensures addresses { AddressesRead }
    ensures hosts { HostsLetIn }
    ensures faults { FaultsTold }
    ensures statuses { StatusesOfRefusals }
    ensures lines { LinesOfRefusals }
    ensures terms { SessionsServed }
    ensures times { TimesWaited }
    ensures libraries { LibrariesMade }
    ensures sizes { SizesRead }
    ensures portals { PortalsTold }
    ensures digests { DigestsRead }
    ensures strangers { StrangersLetIn }
    ensures profiles { ProfilesChosen }
    ensures targets { TargetsNumbered }
    ensures formats { FormatsRead }
{}
