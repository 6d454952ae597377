/// How long a library is served, and by how many workers.
#[derive(Clone, Copy)]
pub enum ServeUntil {
    /// For so many sessions, each by a worker of its own.
    Sessions(u8),
    /// Until standard input ends, by so many workers.
    InputEnds(u8),
}

impl ServeUntil {
    ghost use Rattle.std.specs.Prelude.{◌≡◌};
    ghost use Rattle.program_options.specs.ServeUntil.{sessions_of, workers_of};

    /// How many workers serve.
    pub fn workers(self) -> u8
        ensures { result ≡ workers_of self }
    {
        match self {
            ServeUntil::Sessions(count) => count,
            ServeUntil::InputEnds(workers) => workers,
        }
    }

    /// How many sessions are served at most.
    pub fn sessions(self) -> u64
        ensures { result ≡ sessions_of self }
    {
        match self {
            ServeUntil::Sessions(count) => u64::from(count),
            ServeUntil::InputEnds(_) => u64::MAX,
        }
    }
}
