ghost use Rattle.std.specs.Prelude.{◌≡◌, ℕ, Some};

use std::fmt;

/// The type of a persistent reservation, or none (SPC-4, "Persistent reservations type").
#[derive(Clone, Copy, PartialEq, Eq)]
pub enum ResType {
    /// Nothing is reserved.
    None,
    /// Write Exclusive, type 1h.
    We,
    /// Exclusive Access, type 3h.
    Ea,
    /// Write Exclusive - Registrants Only, type 5h.
    Wero,
    /// Exclusive Access - Registrants Only, type 6h.
    Earo,
    /// Write Exclusive - All Registrants, type 7h.
    Wear,
    /// Exclusive Access - All Registrants, type 8h.
    Eaar,
}

impl ResType {
    ghost use Rattle.permit_tables.specs.Text.{type_name};

    /// The type's name in a cell's text.
    pub fn text(self) -> &'static str
        ensures { result.now ≡ type_name self }
    {
        match self {
            ResType::None => "NONE",
            ResType::We => "WE",
            ResType::Ea => "EA",
            ResType::Wero => "WERO",
            ResType::Earo => "EARO",
            ResType::Wear => "WEAR",
            ResType::Eaar => "EAAR",
        }
    }
}

impl ResType {
    ghost use Rattle.permit_tables.specs.Types.{code_of, coded_type, is_all_registrants, is_registrants_only};

    /// The scope and type byte of a reservation of this type: scope 0h, the logical unit, and the
    /// type; 0 for none.
    pub fn code(self) -> u8
        ensures { result ≡ code_of self }
    {
        match self {
            ResType::None => 0x00,
            ResType::We => 0x01,
            ResType::Ea => 0x03,
            ResType::Wero => 0x05,
            ResType::Earo => 0x06,
            ResType::Wear => 0x07,
            ResType::Eaar => 0x08,
        }
    }

    /// The type in a scope and type byte, if its scope is 0h, the logical unit, and its type known.
    pub fn from_code(code: u8) -> Option<ResType>
        ensures { result ≡ coded_type code }
    {
        match code {
            0x01 => Some(ResType::We),
            0x03 => Some(ResType::Ea),
            0x05 => Some(ResType::Wero),
            0x06 => Some(ResType::Earo),
            0x07 => Some(ResType::Wear),
            0x08 => Some(ResType::Eaar),
            _ => None,
        }
    }

    /// Whether each registered nexus holds a reservation of this type: Write Exclusive - All
    /// Registrants or Exclusive Access - All Registrants.
    pub fn is_all_registrants(self) -> bool
        ensures { result ≡ is_all_registrants self }
    {
        match self {
            ResType::Wear | ResType::Eaar => true,
            ResType::None | ResType::We | ResType::Ea | ResType::Wero | ResType::Earo => false,
        }
    }

    /// Whether the type is Write Exclusive - Registrants Only or Exclusive Access - Registrants
    /// Only.
    pub fn is_registrants_only(self) -> bool
        ensures { result ≡ is_registrants_only self }
    {
        match self {
            ResType::Wero | ResType::Earo => true,
            ResType::None | ResType::We | ResType::Ea | ResType::Wear | ResType::Eaar => false,
        }
    }
}

impl fmt::Display for ResType {
    ghost use Rattle.permit_tables.specs.Text.{type_name};

    ghost output = { λ res_type. Some (type_name res_type) };

    fn fmt<W: fmt::Write>(&self, f: &mut fmt::Formatter<W>) -> fmt::Result {
        f.write_str(self.text())
    }
}
