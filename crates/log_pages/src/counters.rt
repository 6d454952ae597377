use crate::change::LogChange;

/// Counters of a drive since power on or a LOG SELECT, in bytes; each stops at 2^64 - 1. A reset of one page leaves the counters of
/// the others: no two pages share a counter (profile).
#[derive(Clone, Copy)]
pub struct LogCounters {
    /// Of the Write Error Counter page, total bytes processed: those that WRITE commands wrote (SPC-4, "Write Error Counter log page").
    pub write_bytes_processed: u64,
    /// Of the Read Error Counter page, total bytes processed: those that READ commands read from the medium (SPC-4, "Read Error Counter
    /// log page").
    pub read_bytes_processed: u64,
    /// Of the Sequential-Access Device page, data bytes received from application clients during WRITE commands. As many were written to
    /// the medium, since nothing is compressed there (SSC-4, "Sequential-Access Device log page").
    pub data_bytes_received: u64,
    /// Of the same page, data bytes read from the medium during READ commands.
    pub data_bytes_read: u64,
    /// Of the same page, data bytes transferred to the initiators during READ commands.
    pub data_bytes_sent: u64,
}

impl LogCounters {
    ghost use Rattle.std.specs.Prelude.{◌≡◌};
    ghost use Rattle.log_pages.specs.Counters.{at_power_on, wrote, read, after};

    /// All 0.
    pub fn at_power_on() -> LogCounters
        ensures { result ≡ at_power_on }
    {
        LogCounters {
            write_bytes_processed: 0,
            read_bytes_processed: 0,
            data_bytes_received: 0,
            data_bytes_read: 0,
            data_bytes_sent: 0,
        }
    }

    /// After a WRITE that brought so many bytes, all of which were written.
    pub fn wrote(self, bytes: u64) -> LogCounters
        ensures { result ≡ wrote self bytes }
    {
        LogCounters {
            write_bytes_processed: self.write_bytes_processed.saturating_add(bytes),
            data_bytes_received: self.data_bytes_received.saturating_add(bytes),
            ..self
        }
    }

    /// After a READ that passed blocks of so many bytes and sent so many: of a block that is longer than asked for, it sends a part.
    pub fn read(self, passed: u64, sent: u64) -> LogCounters
        ensures { result ≡ read self passed sent }
    {
        LogCounters {
            read_bytes_processed: self.read_bytes_processed.saturating_add(passed),
            data_bytes_read: self.data_bytes_read.saturating_add(passed),
            data_bytes_sent: self.data_bytes_sent.saturating_add(sent),
            ..self
        }
    }

    /// After a LOG SELECT.
    pub fn after(self, change: LogChange) -> LogCounters
        ensures { result ≡ after self change }
    {
        match change {
            LogChange::Unchanged | LogChange::PageWithoutCounters => self,
            LogChange::AllPages => LogCounters::at_power_on(),
            LogChange::WriteErrorCounters => LogCounters {
                write_bytes_processed: 0,
                ..self
            },
            LogChange::ReadErrorCounters => LogCounters {
                read_bytes_processed: 0,
                ..self
            },
            LogChange::SequentialAccessDevice => LogCounters {
                data_bytes_received: 0,
                data_bytes_read: 0,
                data_bytes_sent: 0,
                ..self
            },
        }
    }
}
