ghost use Rattle.std.specs.Prelude.{◌≡◌, ◌≢◌, ℕ, ◌^◌, ◌<◌, ◌↔◌, length, OkIff};
ghost use Rattle.scsi_nexus.specs.TransportId.{transport_id, sas_address, IsSas, IsOtherFormat};

use crate::layout::{SAS_ADDRESS, SAS_FORMAT, TRANSPORT_ID_LENGTH};
use byteorder::{BigEndian, ByteOrder};
use thiserror::Error;

/// Why bytes are no TransportID of a SAS initiator port, in the order of the tests.
#[derive(Clone, Copy, Debug, Drop, Error)]
pub enum TransportIdFault {
    /// They are not exactly one TransportID of 24 bytes.
    #[error("not 24 bytes long")]
    Length,
    /// The first byte isn't 06h: format code 00b with protocol identifier 6h.
    #[error("not in the SAS format")]
    Format,
}

/// The TransportID of a SAS initiator port (SPC-4, "TransportID for initiator ports using SCSI over
/// SAS").
#[derive(Clone, Copy)]
pub struct TransportId;

impl TransportId {
    /// The SAS address, from the bytes of exactly one TransportID. Reserved bytes are ignored
    /// (profile).
    pub fn read(bytes: &[u8]) -> Result<u64, TransportIdFault>
        ensures address { OkIff result (IsSas bytes.now) (sas_address bytes.now) }
        ensures length { (result ≡ Err TransportIdFault.Length) ↔ (length bytes.now ≢ 24) }
        ensures format { (result ≡ Err TransportIdFault.Format) ↔ IsOtherFormat bytes.now }
    {
        if bytes.len() != TRANSPORT_ID_LENGTH {
            return Err(TransportIdFault::Length);
        }
        if bytes[0] != SAS_FORMAT {
            return Err(TransportIdFault::Format);
        }
        Ok(BigEndian::read_u64(&bytes[SAS_ADDRESS..]))
    }

    /// The bytes of the TransportID of a SAS address.
    pub fn write(sas: u64) -> [u8; TRANSPORT_ID_LENGTH]
        ensures { result ≡ transport_id sas }
    {
        let mut bytes = [0; TRANSPORT_ID_LENGTH];
        bytes[0] = SAS_FORMAT;
        BigEndian::write_u64(&mut bytes[SAS_ADDRESS..], sas);
        bytes
    }
}

/// What was written is read back: the written bytes are a SAS TransportID with that address.
pub fn transport_id_reads_back()
    ensures form { (sas : ℕ) → IsSas (transport_id sas) }
    ensures address { (sas : ℕ) → sas < 2 ^ 64 → sas_address (transport_id sas) ≡ sas }
{}
