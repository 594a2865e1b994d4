//! The processes of one worker.
ghost use Rattle.std.specs.Prelude.{◌<◌};

use hc_advance::Advance;

/// A process, and the advance in which its silent steps are worked out.
#[derive(Drop)]
pub struct Lane {
    pub process: u32,
    pub advance: Advance,
}

/// A worker's lanes. `stretches` counts those that it has begun, up to the greatest number; `next` is where it begins to look.
#[derive(Drop)]
pub struct Share {
    pub worker: u32,
    pub stretches: u64,
    pub next: usize,
    pub lanes: Vec<Lane>,
    ghost in_range: { worker < 64 },
}
