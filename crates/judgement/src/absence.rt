ghost use Rattle.std.specs.Prelude.{◌≡◌, IfOk, OnErr};
ghost use Rattle.scsi_sense.specs.declared.status.Status.TheVariants.{Good};
ghost use Rattle.judgement.specs.Replies.{absent_answer, AnswersAbsent};

use crate::reply::Reply;
use crate::unit_data::sense_data;
use device_server::Payload;
use scsi_cdb::{INQUIRY, REQUEST_SENSE, Request, inquiry_at, request_sense_at};
use scsi_sense::Condition;
use std::alloc::{AllocError, Global};

/// The answer of a logical unit that doesn't exist: standard INQUIRY data that says so, its own sense
/// as REQUEST SENSE data, both cut at the allocation length, and 25h/00h LOGICAL UNIT NOT SUPPORTED
/// to all else, also to a CDB below 6 bytes; or, where there are data, BUSY for want of memory (SPC-4,
/// "Incorrect logical unit selection").
pub fn absent(alloc: Global, cdb: &[u8]) -> Reply
    ensures { AnswersAbsent cdb.now result }
{
    match absent_reply(alloc, cdb) {
        Ok(reply) => reply,
        Err(_) => Reply::busy(alloc),
    }
}

fn absent_reply(alloc: Global, cdb: &[u8]) -> Result<Reply, AllocError>
    ensures answer { IfOk result (λ reply. reply ≡ absent_answer cdb.now) }
    ensures err { OnErr result ((absent_answer cdb.now).status ≡ Good) }
{
    if cdb.len() < 6 {
        return Ok(Reply::check(alloc, Condition::LogicalUnitNotSupported));
    }
    if cdb[0] == INQUIRY {
        if let Request::Inquiry {
            vital_product_data: false,
            allocation_length,
            ..
        } = inquiry_at(cdb)
        {
            let payload = absent_inquiry(alloc)?;
            return Ok(Reply::good(payload.cut(usize::from(allocation_length))));
        }
    }
    if cdb[0] == REQUEST_SENSE {
        if let Request::RequestSense {
            allocation_length,
            ..
        } = request_sense_at(cdb)
        {
            let payload = sense_data(alloc, Condition::LogicalUnitNotSupported)?;
            return Ok(Reply::good(payload.cut(usize::from(allocation_length))));
        }
    }
    Ok(Reply::check(alloc, Condition::LogicalUnitNotSupported))
}

ghost use Rattle.judgement.specs.UnitData.{absent_inquiry};

fn absent_inquiry(alloc: Global) -> Result<Payload, AllocError>
    ensures { IfOk result (λ payload. payload ≡ absent_inquiry) }
{
    Payload::copied(
        alloc,
        b"\x7f\x00\x06\x02\x1f\x00\x00\x00                            ",
    )
}
