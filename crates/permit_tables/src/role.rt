ghost use Rattle.std.specs.Prelude.{◌≡◌, ℕ, Some};

use std::fmt;

/// What a nexus is to a unit.
#[derive(Clone, Copy)]
pub enum Role {
    /// It holds the reservation.
    Holder,
    /// It is registered and doesn't hold.
    Registered,
    /// It isn't registered.
    Other,
}

impl Role {
    ghost use Rattle.permit_tables.specs.Text.{role_name};

    /// The role's name in a cell's text.
    pub fn text(self) -> &'static str
        ensures { result.now ≡ role_name self }
    {
        match self {
            Role::Holder => "HOLDER",
            Role::Registered => "REGISTERED",
            Role::Other => "OTHER",
        }
    }
}

impl fmt::Display for Role {
    ghost use Rattle.permit_tables.specs.Text.{role_name};

    ghost output = { λ role. Some (role_name role) };

    fn fmt<W: fmt::Write>(&self, f: &mut fmt::Formatter<W>) -> fmt::Result {
        f.write_str(self.text())
    }
}
