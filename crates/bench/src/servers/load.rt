// How much a server is asked.

// Calls of each sort in one round.
pub(crate) const CALLS_IN_ROUND: usize = 50;

#[derive(Clone, Copy)]
pub(crate) struct Load {
    // As many fragments are held whenever a round begins.
    pub fragments: u32,
    pub rounds: u32,
}
