ghost use Rattle.std.specs.Prelude.{◌≡◌, ℕ, List, Ok};
ghost use Rattle.iscsi_chap.specs.Secrets.{NumberedEntry, HaveUsersOnce, HaveSecretsApart, secrets_in};

/// Law: of a secrets file that is taken no two entries are of one host and one user.
pub fn users_once()
    ensures { (text : List ℕ) (entries : List NumberedEntry) → secrets_in text ≡ Ok entries → HaveUsersOnce entries }
{}

/// Law: of a secrets file that is taken no secret of the target is a host's, of one line or of two.
pub fn secrets_apart()
    ensures { (text : List ℕ) (entries : List NumberedEntry) → secrets_in text ≡ Ok entries → HaveSecretsApart entries }
{}
