//! The workers, the memory and the gate of a search.
ghost use Rattle.std.specs.Prelude.{◌≡◌, ◌≤◌, ◌^◌};

use cq_words::Settings;
use std::alloc::Global;

/// The workers that search the games of an archive as the settings say, in threads of `rt` and with memory of `alloc`. They tell `gate`.
#[derive(Drop)]
pub struct RunContext<'a, R, G> {
    pub rt: &'a R,
    pub alloc: Global,
    pub gate: &'a G,
    pub settings: Settings,
    ghost ranges: { (1 ≤ settings.workers) × (settings.workers ≤ 64) × (1 ≤ settings.limit) × (settings.limit ≤ 2 ^ 40) },
}

impl<'a, R, G> RunContext<'a, R, G> {
    /// Returns a context with these settings: from 1 to 64 workers, and a limit from 1 to 2^40 bytes. Both ranges are conditions.
    pub fn new(rt: &'a R, alloc: Global, settings: Settings, gate: &'a G) -> RunContext<'a, R, G>
        requires workers { (1 ≤ settings.workers) × (settings.workers ≤ 64) }
        requires limit { (1 ≤ settings.limit) × (settings.limit ≤ 2 ^ 40) }
        ensures { result.settings ≡ settings }
    {
        RunContext {
            rt,
            alloc,
            gate,
            settings,
        }
    }
}
