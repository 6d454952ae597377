//! How many bytes were written to the volumes in drives and aren't copied yet.

ghost use Rattle.std.specs.Prelude.{◌≡◌};
ghost use Rattle.saved_media.specs.Backlogs.{added, is_many, is_some_behind, is_too_much, stuck, taken};

/// Once so many bytes were written to a drive's volume, they are copied without waiting for the time.
const MANY: u64 = 8 * 1024 * 1024;

/// The reply to a WRITE by which so many bytes wait to be copied waits until they are fewer.
const MOST: u64 = 64 * 1024 * 1024;

/// What was written to the volume in a drive and isn't copied yet.
#[derive(Clone, Copy, Default)]
pub(crate) struct Backlog {
    bytes: u64,
    /// Whether it couldn't be copied the last time. Then nobody waits for it.
    is_stuck: bool,
}

impl Backlog {
    pub fn bytes(&self) -> u64
        ensures { result ≡ self.now.bytes }
    {
        self.bytes
    }

    pub fn is_some(&self) -> bool
        ensures { result ≡ is_some_behind self.now }
    {
        self.bytes > 0
    }

    /// Whether it is copied at once.
    pub fn is_many(&self) -> bool
        ensures { result ≡ is_many self.now }
    {
        self.bytes >= MANY && !self.is_stuck
    }

    /// Whether a host that writes on has to wait.
    pub fn is_too_much(&self) -> bool
        ensures { result ≡ is_too_much self.now }
    {
        self.bytes >= MOST && !self.is_stuck
    }

    /// So many bytes more were written.
    pub fn add(&mut self, bytes: u64)
        ensures { self.new ≡ added bytes self.old }
    {
        self.bytes = self.bytes.saturating_add(bytes);
    }

    /// So many bytes were copied.
    pub fn take(&mut self, bytes: u64)
        ensures { self.new ≡ taken bytes self.old }
    {
        self.bytes = self.bytes.saturating_sub(bytes);
        self.is_stuck = false;
    }

    /// It couldn't be copied.
    pub fn stick(&mut self)
        ensures { self.new ≡ stuck self.old }
    {
        self.is_stuck = true;
    }
}

/// That of each drive, by LUN.
#[derive(Clone, Copy, Default)]
pub(crate) struct Backlogs {
    one: Backlog,
    two: Backlog,
    three: Backlog,
    four: Backlog,
}

impl Backlogs {
    pub fn at(&self, lun: u8) -> Backlog {
        match lun {
            1 => self.one,
            2 => self.two,
            3 => self.three,
            4 => self.four,
            _ => Backlog::default(),
        }
    }

    pub fn set(&mut self, lun: u8, backlog: Backlog) {
        match lun {
            1 => self.one = backlog,
            2 => self.two = backlog,
            3 => self.three = backlog,
            4 => self.four = backlog,
            _ => {}
        }
    }
}
