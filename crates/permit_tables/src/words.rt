ghost use Rattle.std.specs.Prelude.{◌≡◌, ◌==◌, ◌+◌, ◌*◌, ◌/◌, ◌%◌, ◌^◌, ◌<◌, ℕ};
ghost use Rattle.permit_tables.specs.Permission.{is_allowed};
ghost use Rattle.permit_tables.specs.Words.{word_of, place_of, bit_of, type_number, role_number};
ghost use Rattle.permit_tables.specs.declared.res_type.ResType.{ResType};
ghost use Rattle.permit_tables.specs.declared.role.Role.{Role};
ghost use Rattle.scsi_cdb.specs.declared.classes.Class.{Class};

use crate::res_type::ResType;
use crate::role::Role;
use scsi_cdb::Class;

/// Each nexus may send it under any reservation.
const EVERYBODY: u32 = 0x1F_FFFF;

/// What reads the medium or the state that goes with it.
const READERS: u32 = 0xF_BE7F;

/// What changes the medium or the state that goes with it.
const WRITERS: u32 = 0xD_B64F;

/// Reservation acts that a registered nexus may send.
const REGISTRANTS: u32 = 0xD_B6DF;

/// Reservation acts that a holder alone may send where there is a reservation.
const HOLDERS: u32 = 0x4_924F;

/// The cells of a class as one word of 21 bits: bit 3t + r is 1 where the cell of type t and role r
/// is allowed, with t from 0 for None, We, Ea, Wero, Earo, Wear, Eaar and r from 0 for Holder,
/// Registered, Other (profile).
pub fn word(class: Class) -> u32
    ensures { result ≡ word_of class }
{
    match class {
        Class::TestUnitReady
        | Class::RequestSense
        | Class::Inquiry
        | Class::ReportLuns
        | Class::PersistentReserveIn
        | Class::AllowRemoval
        | Class::ReadBlockLimits
        | Class::ReadPosition
        | Class::ReadElementStatusCurdata
        | Class::Register
        | Class::RegisterAndIgnoreExistingKey
        | Class::LogSense => EVERYBODY,
        Class::ModeSense
        | Class::Read
        | Class::Space
        | Class::Locate
        | Class::Rewind
        | Class::ReadElementStatus
        | Class::ModeSense10
        | Class::ReportSupportedOperationCodes
        | Class::ReportSupportedTaskManagementFunctions => READERS,
        Class::ModeSelect
        | Class::PreventRemoval
        | Class::Write
        | Class::WriteFilemarks
        | Class::Erase
        | Class::LoadUnload
        | Class::MoveMedium
        | Class::InitializeElementStatus
        | Class::ModeSelect10
        | Class::LogSelect
        | Class::SendDiagnostic
        | Class::PositionToElement
        | Class::ExchangeMedium => WRITERS,
        Class::Clear | Class::Preempt | Class::PreemptAndAbort | Class::Release => REGISTRANTS,
        Class::Reserve | Class::RegisterAndMove => HOLDERS,
    }
}

fn number_of_type(res_type: ResType) -> u32
    ensures { result ≡ type_number res_type }
{
    match res_type {
        ResType::None => 0,
        ResType::We => 1,
        ResType::Ea => 2,
        ResType::Wero => 3,
        ResType::Earo => 4,
        ResType::Wear => 5,
        ResType::Eaar => 6,
    }
}

fn number_of_role(role: Role) -> u32
    ensures { result ≡ role_number role }
{
    match role {
        Role::Holder => 0,
        Role::Registered => 1,
        Role::Other => 2,
    }
}

/// The place of a cell in its class's word.
fn place(res_type: ResType, role: Role) -> u32
    ensures place { result ≡ place_of res_type role }
    ensures in_word { result < 21 }
{
    3 * number_of_type(res_type) + number_of_role(role)
}

/// The bit of a cell in its class's word.
pub(crate) fn bit(class: Class, res_type: ResType, role: Role) -> bool
    ensures { result ≡ bit_of (word_of class) (place_of res_type role) }
{
    word(class) >> place(res_type, role) & 1 == 1
}

/// Each cell stands in its class's word: the bit at its place says whether it is allowed.
#[tactic(auto, using(crate::proofs::WordLaws::bit_is_allowed))]
pub fn word_holds_each_cell()
    ensures { (c : Class) (t : ResType) (r : Role) → bit_of (word_of c) (place_of t r) ≡ is_allowed c t r }
{}

/// The words of some classes.
pub fn permission_words()
    ensures test_unit_ready { word_of Class.TestUnitReady ≡ 0x1FFFFF }
    ensures register { word_of Class.Register ≡ 0x1FFFFF }
    ensures read { word_of Class.Read ≡ 0xFBE7F }
    ensures write { word_of Class.Write ≡ 0xDB64F }
    ensures reserve { word_of Class.Reserve ≡ 0x4924F }
    ensures clear { word_of Class.Clear ≡ 0xDB6DF }
{}
