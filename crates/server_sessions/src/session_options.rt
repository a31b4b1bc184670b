//! How the lines of a session are answered.

/// How the lines of a session are answered.
#[derive(Clone, Copy)]
pub struct SessionOptions {
    /// Whether a line that can't be read ends a session that has no seat yet.
    pub strict: bool,
    /// Whether each put is to be newest, as `info` says.
    pub newest: bool,
    /// The number of the store, which differs from run to run, as `info` says.
    pub store: u64,
}
