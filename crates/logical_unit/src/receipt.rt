use arrayvec::ArrayVec;
use judgement::Reply;
use std::alloc::Global;

/// The answer to an event, and the records that it left: one at most, unless it is a MOVE MEDIUM or an EXCHANGE MEDIUM that names drives.
#[derive(Drop)]
pub struct Receipt {
    pub reply: Reply,
    /// For each record the unit that has it, by logical unit number, and its number there: the changer's, then
    /// the drives', rising.
    pub numbers: ArrayVec<(u8, u64), 3>,
}

impl Receipt {
    ghost use Rattle.std.specs.Prelude.{◌≡◌, ◌<◌, ◌≤◌, ◌+◌, ◌^◌, [], ◌∷◌, ◌++◌, ◌==◌, if◌then◌else◌};
    ghost use Rattle.arrayvec.specs.ArrayVec.{array_vec_len};
    ghost use Rattle.logical_unit.specs.Move.{numbers_after};

    /// Of an answer that left no record but the changer's, if that.
    pub(crate) fn of(lun: u8, reply: Reply) -> Receipt
        ensures reply { result.reply ≡ reply }
        ensures numbers { result.numbers.items ≡ (if reply.number == 0 then [] else (lun, reply.number) ∷ []) }
        ensures length { array_vec_len result.numbers ≤ 1 }
    {
        let mut numbers = ArrayVec::new();
        if reply.number != 0 {
            numbers.push((lun, reply.number));
        }
        Receipt { reply, numbers }
    }

    /// With the record of a drive.
    pub(crate) fn with(self, lun: u8, number: u64) -> Receipt
        requires { array_vec_len self.numbers < 3 }
        ensures reply { result.reply ≡ self.reply }
        ensures numbers { result.numbers.items ≡ self.numbers.items ++ (lun, number) ∷ [] }
        ensures length { array_vec_len result.numbers ≡ array_vec_len self.numbers + 1 }
    {
        let Receipt { reply, mut numbers } = self;
        numbers.push((lun, number));
        Receipt { reply, numbers }
    }

    /// With the records of a drive that has so many after the one of a last number.
    pub(crate) fn with_more(self, lun: u8, last: u64, count: u8) -> Receipt
        requires some { 1 ≤ count }
        requires few { array_vec_len self.numbers + count ≤ 3 }
        requires number { last + count < 2 ^ 64 }
        requires two { count ≤ 2 }
        ensures reply { result.reply ≡ self.reply }
        ensures numbers { result.numbers.items ≡ self.numbers.items ++ numbers_after lun last count }
    {
        let receipt = self.with(lun, last + 1);
        if count == 1 {
            return receipt;
        }
        receipt.with(lun, last + 2)
    }
}
