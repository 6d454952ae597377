ghost use Rattle.std.specs.Prelude.{◌≡◌, [], ◌∷◌, Some};
ghost use Rattle.scsi_cdb.specs.Kinds.{commands_at};
ghost use Rattle.device_server.specs.View.{drives_of};
ghost use Rattle.judgement.specs.Replies.{busy};
ghost use Rattle.judgement.specs.Commands.{act_of_decoded};
ghost use Rattle.judgement.specs.Received.{command_in};
ghost use Rattle.logical_unit.specs.Route.{named};
ghost use Rattle.logical_unit.specs.Answers as event;
ghost use Rattle.logical_unit.specs.Answers.{IsAnswer};
ghost use Rattle.logical_unit.specs.ActKinds.{act_kind_of, act_kind_if};
ghost use Rattle.lun_router.specs.Shares.{Rise};

use crate::all_locks::UnitLocks;
use crate::gate::Gate;
use crate::locks::{move_with_one, move_with_two};
use crate::seat_shares::SeatShares;
use device_server::DeviceServer;
use judgement::ReceivedCommand;
use kept_unit::{At, Kept, Ledgers};
use logical_unit::{Done, named};
use std::alloc::Global;
use std::sync::Wait;

impl<B: Ledgers, D: DeviceServer, G: Gate> UnitLocks<B, D, G> {
    /// A MOVE MEDIUM or EXCHANGE MEDIUM that names one drive, with the changer's lock held.
    fn move_one<'a, R: Wait>(
        &self,
        rt: &R,
        alloc: Global,
        changer: &mut Kept<0, At<0, B>, D>,
        parts: &mut SeatShares<B>,
        drive: u8,
        received: &ReceivedCommand<'a>,
    ) -> Done<'a>
        requires commands { received.now.commands ≡ commands_at B.profile 0 }
        requires named { named received.now.commands (drives_of changer.old.unit.device) received.now.cdb ≡ drive ∷ [] }
        ensures answer { IsAnswer result (Some received.now.nexus) 0 (event.Command received.now.cdb received.now.bytes) }
        ensures act { result.act ≡ act_kind_if result.numbers (act_kind_of (act_of_decoded (command_in received.now))) }
        ensures unnumbered { result.numbers ≡ [] → result.reply ≡ busy }
        ensures rise { Rise parts.old result.numbers parts.new }
    {
        match drive {
            1 => {
                let lock = Some(&self.first);
                let SeatShares { zero, one, .. } = parts;
                move_with_one(rt, alloc, changer, lock, zero, one, received)
            }
            2 => {
                let lock = self.second.as_ref();
                let SeatShares { zero, two, .. } = parts;
                move_with_one(rt, alloc, changer, lock, zero, two, received)
            }
            3 => {
                let lock = self.third.as_ref();
                let SeatShares { zero, three, .. } = parts;
                move_with_one(rt, alloc, changer, lock, zero, three, received)
            }
            4 => {
                let lock = self.fourth.as_ref();
                let SeatShares { zero, four, .. } = parts;
                move_with_one(rt, alloc, changer, lock, zero, four, received)
            }
            _ => changer.step(alloc, &mut parts.zero, received),
        }
    }

    /// A MOVE MEDIUM that names two drives, with the changer's lock held.
    fn move_two<'a, R: Wait>(
        &self,
        rt: &R,
        alloc: Global,
        changer: &mut Kept<0, At<0, B>, D>,
        parts: &mut SeatShares<B>,
        low: u8,
        high: u8,
        received: &ReceivedCommand<'a>,
    ) -> Done<'a>
        requires commands { received.now.commands ≡ commands_at B.profile 0 }
        requires named { named received.now.commands (drives_of changer.old.unit.device) received.now.cdb ≡ low ∷ high ∷ [] }
        ensures answer { IsAnswer result (Some received.now.nexus) 0 (event.Command received.now.cdb received.now.bytes) }
        ensures act { result.act ≡ act_kind_if result.numbers (act_kind_of (act_of_decoded (command_in received.now))) }
        ensures unnumbered { result.numbers ≡ [] → result.reply ≡ busy }
        ensures rise { Rise parts.old result.numbers parts.new }
    {
        let first = Some(&self.first);
        let second = self.second.as_ref();
        let third = self.third.as_ref();
        let fourth = self.fourth.as_ref();
        match (low, high) {
            (1, 2) => {
                let (zero, one, two) = (&mut parts.zero, &mut parts.one, &mut parts.two);
                move_with_two(rt, alloc, changer, first, second, zero, one, two, received)
            }
            (1, 3) => {
                let (zero, one, three) = (&mut parts.zero, &mut parts.one, &mut parts.three);
                move_with_two(rt, alloc, changer, first, third, zero, one, three, received)
            }
            (1, 4) => {
                let (zero, one, four) = (&mut parts.zero, &mut parts.one, &mut parts.four);
                move_with_two(rt, alloc, changer, first, fourth, zero, one, four, received)
            }
            (2, 3) => {
                let (zero, two, three) = (&mut parts.zero, &mut parts.two, &mut parts.three);
                move_with_two(
                    rt, alloc, changer, second, third, zero, two, three, received,
                )
            }
            (2, 4) => {
                let (zero, two, four) = (&mut parts.zero, &mut parts.two, &mut parts.four);
                move_with_two(
                    rt, alloc, changer, second, fourth, zero, two, four, received,
                )
            }
            (3, 4) => {
                let (zero, three, four) = (&mut parts.zero, &mut parts.three, &mut parts.four);
                move_with_two(
                    rt, alloc, changer, third, fourth, zero, three, four, received,
                )
            }
            _ => changer.step(alloc, &mut parts.zero, received),
        }
    }

    /// A command to the changer. Its lock is taken first, then those of the drives that a MOVE MEDIUM or EXCHANGE MEDIUM names.
    pub(crate) fn step_changer<'a, R: Wait>(
        &self,
        rt: &R,
        alloc: Global,
        parts: &mut SeatShares<B>,
        received: &ReceivedCommand<'a>,
    ) -> Done<'a>
        requires commands { received.now.commands ≡ commands_at B.profile 0 }
        ensures answer { IsAnswer result (Some received.now.nexus) 0 (event.Command received.now.cdb received.now.bytes) }
        ensures act { result.act ≡ act_kind_if result.numbers (act_kind_of (act_of_decoded (command_in received.now))) }
        ensures unnumbered { result.numbers ≡ [] → result.reply ≡ busy }
        ensures rise { Rise parts.old result.numbers parts.new }
    {
        let mut changer = self.changer.mutex().lock(rt);
        self.gate.inside(0, received.nexus());
        let names = named(changer.drives(), received);
        match names.as_slice() {
            [drive] => self.move_one(rt, alloc, &mut *changer, parts, *drive, received),
            [low, high] => self.move_two(rt, alloc, &mut *changer, parts, *low, *high, received),
            _ => changer.step(alloc, &mut parts.zero, received),
        }
    }
}
