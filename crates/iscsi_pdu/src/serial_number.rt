ghost use Rattle.std.specs.Prelude.{◌≡◌, ◌↔◌, ◌<◌, IsTrue};

/// A number of a sequence, as CmdSN, StatSN and DataSN: of 32 bits, compared by serial number arithmetic (RFC 7143,
/// "Command Numbering and Acknowledging"; RFC 1982).
#[derive(Clone, Copy)]
pub struct SerialNumber {
    pub number: u32,
}

impl SerialNumber {
    ghost use Rattle.iscsi_pdu.specs.SerialNumbers.{next, distance, IsBefore};

    /// The number after it; after the greatest comes 0.
    pub fn next(self) -> SerialNumber
        ensures { result ≡ next self }
    {
        SerialNumber {
            number: self.number.wrapping_add(1),
        }
    }

    /// How many steps of `next` lead to the other.
    pub fn distance_to(self, other: SerialNumber) -> u32
        ensures { result ≡ distance self other }
    {
        other.number.wrapping_sub(self.number)
    }

    /// Whether it comes before the other: less than half the circle lies between them. Of two that are half the circle
    /// apart neither comes before the other.
    pub fn is_before(self, other: SerialNumber) -> bool
        ensures { IsTrue result ↔ IsBefore self other }
    {
        let distance = self.distance_to(other);
        distance != 0 && distance < HALF_THE_CIRCLE
    }

    /// Whether it is one of the `count` numbers that begin with the first.
    pub fn is_in_window(self, first: SerialNumber, count: u32) -> bool
        ensures { IsTrue result ↔ (distance first self < count) }
    {
        first.distance_to(self) < count
    }
}

const HALF_THE_CIRCLE: u32 = 0x8000_0000;
