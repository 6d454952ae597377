//! Worked rows that the definitions compute to, and a law of them.

ghost use Rattle.std.specs.Prelude.{◌≡◌, List};
ghost use Rattle.logical_unit.specs.UnitView.{UnitView};
ghost use Rattle.output_lines.specs.declared.explained.Explanations.TheVariants.{Off};
ghost use Rattle.output_lines.specs.Replies.{text_of};
ghost use Rattle.target_core.specs.declared.event.Event.{Event};
ghost use Rattle.target_core.specs.Run.{Runs};
ghost use Rattle.judgement.specs.declared.reply.Reply.{Reply};
ghost use Rattle.scsi_cdb.specs.declared.profile.Profile.{Profile};
ghost use Rattle.replay.specs.Texts.{run_text};
ghost use Rattle.replay.specs.Rows.{FaultsTold, FaultsInOrder, ReplaysRun};

/// What each fault says and when it comes, and replays of a script of one line.
pub fn worked_rows()
    ensures told { FaultsTold }
    ensures order { FaultsInOrder }
    ensures replays { ReplaysRun }
{}

/// Without explanations, what is written of a run is just a line for each of its replies.
pub fn lines_alone()
    ensures { (profile : Profile) (core left : List UnitView) (events : List Event) (replies : List Reply)
        → Runs core events replies left → run_text profile Off events replies ≡ text_of replies }
{}
