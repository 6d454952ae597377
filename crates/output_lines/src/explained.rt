ghost use Rattle.std.specs.Prelude.{◌≡◌, ◌++◌, OnOk};
ghost use Rattle.output_lines.specs.Explained.{answer_text};

use crate::reply_line::write_answer;
use explanations::explain;
use scsi_cdb::{Profile, commands_at};
use scsi_sense::{Sense, Status};
use std::alloc::AllocError;

/// Whether replies are said in words, too.
#[derive(Clone, Copy)]
pub enum Explanations {
    /// Their lines alone.
    Off,
    /// Behind the line of each a line that begins with `# `, which is a comment of a script.
    On,
}

/// Adds the line of an answer to a command at a logical unit of a library of a profile and, where it is wanted, the line behind it that says it in words. After
/// an error some of them may have been added.
pub fn write_explained(
    text: &mut Vec<u8>,
    explanations: Explanations,
    profile: Profile,
    lun: u8,
    cdb: &[u8],
    status: Status,
    sense: &Option<Sense>,
    payload: &[u8],
) -> Result<(), AllocError>
    ensures { OnOk result (text.new.items ≡ text.old.items ++ answer_text explanations profile lun cdb.now status sense.now payload.now) }
{
    write_answer(text, status, sense, payload)?;
    match explanations {
        Explanations::Off => Ok(()),
        Explanations::On => {
            let commands = commands_at(profile, lun);
            explain(text, commands, cdb, status, sense, payload)
        }
    }
}
