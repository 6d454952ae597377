/// What a session is for (RFC 7143, "SessionType").
#[derive(Clone, Copy)]
pub enum SessionType {
    Normal,
    Discovery,
}

impl SessionType {
    ghost use Rattle.std.specs.Prelude.{◌≡◌, false, true};
    ghost use Rattle.iscsi_chap.specs.declared.session_type.SessionType.TheVariants.{Discovery, Normal};

    /// Whether a session of the type has units: a discovery session has none.
    pub fn has_units(self) -> bool
        ensures normal { result ≡ true → self ≡ Normal }
        ensures discovery { result ≡ false → self ≡ Discovery }
    {
        match self {
            SessionType::Discovery => false,
            SessionType::Normal => true,
        }
    }
}
