use crate::fault::{BadPlace, PutFault, TakeFault};
use crate::outcome::Outcome;
use inquiry_data::UnitIdentity;
use scsi_cdb::{Kind, Profile, Request};
use std::alloc::{AllocError, Global};
use tape_medium::{Volume, VolumeTag};

/// A device, seen by the view of it alone. A unit judges each command before the device gets it.
///
/// A drive has one place, 0, its bay. The places of a changer are its elements, by their addresses: storage and import/export elements
/// hold volumes, data transfer elements have the tag of the volume in their drive.
pub trait DeviceServer: Drop {
    ghost use Rattle.std.specs.Prelude.{◌≡◌, false, None, Ok, Err, IfOk, OnOk, OnErr, IfErr};
    ghost use Rattle.device_server.specs.Failures.{leaves_to_drives};
    ghost use Rattle.device_server.specs.Volumes.{is_move};
    ghost use Rattle.device_server.specs.View.{DeviceView, kind_of, profile_of, identity_of, drives_of, journeyed, exchange_journeyed, field_fault, held_in, performed, taken, put, marked, reset_of};

    ghost shown: { Self → DeviceView };

    /// Whether it is a drive or a changer, which never changes.
    fn kind(&self) -> Kind
        ensures { result ≡ kind_of (shown self.now) };

    /// The profile that it is of, by which and its kind it has commands. It never changes.
    fn profile(&self) -> Profile
        ensures { result ≡ profile_of (shown self.now) };

    /// Which unit it is, where it is of the hosts' profile. It never changes.
    fn identity(&self) -> Option<UnitIdentity>
        ensures { result ≡ identity_of (shown self.now) };

    /// How many data transfer elements a changer has; 0 for a drive.
    fn drives(&self) -> u16
        ensures { result ≡ drives_of (shown self.now) };

    /// The tag of the volume at a place, if there is one.
    fn held(&self, place: u16) -> Option<VolumeTag>
        ensures { result ≡ held_in (shown self.now) place };

    /// Whether it leaves a command to the drives: a MOVE MEDIUM or an EXCHANGE MEDIUM (SMC-3, "MOVE MEDIUM command", "EXCHANGE MEDIUM command")
    /// whose fields, map and marks refuse nothing, and one of whose ends is a data transfer element of the changer. A changer that is asked to carry it out alone ends it by 44h/00h.
    fn leaves_to_drives(&self, request: &Request) -> bool
        ensures { result ≡ leaves_to_drives (shown self.now) request.now };

    /// Carries out a command of which no field is refused, with the data sent with it. Want of memory changes nothing. An allocation length
    /// has cut the data. A MOVE MEDIUM or EXCHANGE MEDIUM takes no memory. A command that its kind doesn't have ends in 20h/00h, at a drive after NOT READY, and
    /// changes nothing; a unit never sends one.
    fn perform(
        &mut self,
        alloc: Global,
        request: &Request,
        bytes: &[u8],
    ) -> Result<Outcome, AllocError>
        requires { field_fault (shown self.old) request.now bytes.now ≡ None }
        ensures ok { IfOk result (λ outcome. performed (shown self.old) request.now bytes.now ≡ (shown self.new, outcome)) }
        ensures err { OnErr result (shown self.new ≡ shown self.old) }
        ensures want { OnErr result (is_move request.now ≡ false) };

    /// Takes a volume out. A refusal changes nothing.
    fn take_volume(&mut self, place: u16) -> Result<Volume, TakeFault>
        ensures ok { IfOk result (λ volume. taken (shown self.old) place ≡ Ok (volume, shown self.new)) }
        ensures err { IfErr result (λ fault. taken (shown self.old) place ≡ Err fault) }
        ensures same { OnErr result (shown self.new ≡ shown self.old) };

    /// Puts a volume in. A refusal changes nothing and hands the volume back.
    fn put_volume(&mut self, place: u16, volume: Volume) -> Result<(), (Volume, PutFault)>
        ensures ok { OnOk result (put (shown self.old) place volume ≡ Ok (shown self.new)) }
        ensures err { IfErr result (λ back. put (shown self.old) place volume ≡ Err back.1) }
        ensures back { IfErr result (λ back. back.0 ≡ volume) }
        ensures same { OnErr result (shown self.new ≡ shown self.old) };

    /// Notes the tag of the volume in a drive at its data transfer element. A refusal changes nothing.
    fn mark(&mut self, place: u16, tag: Option<VolumeTag>) -> Result<(), BadPlace>
        ensures ok { OnOk result (marked (shown self.old) place tag ≡ Ok (shown self.new)) }
        ensures err { IfErr result (λ fault. marked (shown self.old) place tag ≡ Err fault) }
        ensures same { OnErr result (shown self.new ≡ shown self.old) };

    /// Notes that a volume was carried from one element to another, by a drive or not. It concerns a changer of the hosts' profile alone
    /// (SMC-3, "READ ELEMENT STATUS command", SOURCE STORAGE ELEMENT ADDRESS).
    fn note_journey(&mut self, source: u16, destination: u16)
        ensures { shown self.new ≡ journeyed (shown self.old) source destination };

    /// Notes that the volume at the first destination was carried to the second, and the one at the source to the first (SMC-3, "EXCHANGE MEDIUM
    /// command"), by a drive or not.
    fn note_exchange(&mut self, source: u16, first: u16, second: u16)
        ensures { shown self.new ≡ exchange_journeyed (shown self.old) source first second };

    /// A reset of the unit (SAM-5, "Logical unit reset").
    fn reset(&mut self)
        ensures { shown self.new ≡ reset_of (shown self.old) };
}
