use thiserror::Error;

/// Why bytes are no command of a kind of unit. A command may have more than one fault; `decode`
/// says when each comes.
#[derive(Clone, Copy, Debug, Error)]
pub enum CdbFault {
    /// No command of the kind has this OPERATION CODE.
    #[error("no such command")]
    Opcode,
    /// Fewer bytes than the command has, or no bytes at all.
    #[error("too few bytes")]
    ShortCdb,
    /// The command has no such SERVICE ACTION.
    #[error("no such service action")]
    ServiceAction,
    /// NACA is set in the CONTROL byte: this target has no ACA (profile).
    #[error("NACA is set")]
    Naca,
}
