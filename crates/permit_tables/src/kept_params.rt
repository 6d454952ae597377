use crate::out_params::OutParams;
use scsi_cdb::OutServiceAction;
use std::alloc::{AllocError, Global};
use std::marker::Model;

/// A PERSISTENT RESERVE OUT command with its parameter list, in the room of a pointer: other commands, and their records,
/// shouldn't be as large. Its value is that of its `OutParams`.
#[derive(Drop)]
pub struct KeptParams {
    kept: Box<OutParams>,
}

impl Model for KeptParams {
    ghost use Rattle.permit_tables.specs.declared.out_params.OutParams.{OutParams};

    ghost Value = { OutParams };

    ghost view = { λ p. p.kept.value };
}

impl KeptParams {
    ghost use Rattle.std.specs.Prelude.{◌≡◌, IfOk};

    pub fn new(alloc: Global, params: OutParams) -> Result<KeptParams, AllocError>
        ensures { IfOk result (λ kept. kept ≡ params) }
    {
        Ok(KeptParams {
            kept: Box::new(alloc, params)?,
        })
    }

    /// The service action.
    pub fn act(&self) -> OutServiceAction
        ensures { result ≡ self.now.act }
    {
        self.kept.act
    }

    /// The command.
    pub fn params(&self) -> &OutParams
        ensures { result.now ≡ self.now }
    {
        &self.kept
    }
}
