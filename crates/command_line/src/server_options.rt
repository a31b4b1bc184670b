//! How a server is reached, whom it serves, and how its store is paced.
ghost use Rattle.std.specs.Prelude.{◌≡◌, ◌<◌, ◌≤◌, ◌^◌, IsTrue};

/// Where a server listens, which connections it serves and how, and how its store is paced.
#[derive(Clone, Copy)]
pub struct ServerOptions {
    /// The port of 127.0.0.1, or 0 for one that is free.
    pub port: u16,
    /// How many connections are served, 1 to 1024: in all, or at a time where the server stays.
    pub sessions: u32,
    /// Whether it serves all that come for as long as its input is open.
    pub stay: bool,
    /// Whether a line that can't be read ends a connection that has no seat.
    pub strict: bool,
    /// Whether each put takes its counter from its tenant's clock, so that its stamp is above each put that was done before.
    pub newest: bool,
    /// Whether it records nothing: it keeps neither journals nor transcripts, and has no verdict.
    pub unrecorded: bool,
    /// Whether it reports of how much its verdicts are. Without a verdict this changes nothing.
    pub counts: bool,
    /// How many calls may wait at a partition, 1 to 1024.
    pub queue: u32,
    /// After how many calls a partition is collected, 1 to 65536.
    pub every: u32,
    /// After how many events of a journal it is cut to be checked, 0 to 1048576; 0 is never, as where nothing is recorded.
    pub epoch: u32,
    /// The port of 127.0.0.1 that reports over HTTP how the server stands, 0 to 65535; 0 is none.
    pub status: u32,
    pub ghost is_port: { port < 2 ^ 16 },
    pub ghost some_sessions: { 0 < sessions },
    pub ghost few_sessions: { sessions ≤ 1024 },
    pub ghost some_room: { 0 < queue },
    pub ghost little_room: { queue ≤ 1024 },
    pub ghost some_calls: { 0 < every },
    pub ghost few_calls: { every ≤ 65536 },
    pub ghost few_events: { epoch ≤ 1048576 },
    pub ghost few_ports: { status ≤ 65535 },
    pub ghost unchecked: { IsTrue unrecorded → epoch ≡ 0 },
}
