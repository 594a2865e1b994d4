//! The outside of a call, as a row says it.

use std::alloc::{AllocError, Global};

/// The outside of a call: how many bytes a read gives at most, for how many there is room on output, how much of the
/// source there is, and which calls fail, by their numbers.
#[derive(Drop)]
pub(crate) struct World {
    pub(crate) most: usize,
    pub(crate) room: usize,
    pub(crate) cut: usize,
    pub(crate) failing_reads: Vec<u64>,
    pub(crate) failing_outs: Vec<u64>,
    pub(crate) failing_errs: Vec<u64>,
}

impl World {
    /// A world in which nothing fails, but for what these words say, such as `most=1`, `room=6`, `cut=3`, `read=0`,
    /// `out=2` or `err=1`.
    pub(crate) fn of_words(alloc: Global, words: &str) -> Result<World, AllocError> {
        let mut world = World {
            most: 4096,
            room: 100_000,
            cut: usize::MAX,
            failing_reads: Vec::new(alloc),
            failing_outs: Vec::new(alloc),
            failing_errs: Vec::new(alloc),
        };
        for word in words.split_whitespace() {
            if let Some((name, number)) = word.split_once('=') {
                world.set(name, number.parse::<u64>().unwrap_or(0))?;
            }
        }
        Ok(world)
    }

    fn set(&mut self, name: &str, number: u64) -> Result<(), AllocError> {
        match name {
            "most" => self.most = number as usize,
            "room" => self.room = number as usize,
            "cut" => self.cut = number as usize,
            "read" => self.failing_reads.push(number)?,
            "out" => self.failing_outs.push(number)?,
            _ => self.failing_errs.push(number)?,
        }
        Ok(())
    }
}
