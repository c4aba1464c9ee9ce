//! The program over memory: what its top call's contract says of objects that tell all, and tests of the whole path.
#![tactic(auto)]

ghost use Rattle.std.specs.Prelude.{◌≡◌, ◌++◌, Some, None, List, ℕ, map, string_bytes};
ghost use Rattle.catalog.specs.Views.{View};
ghost use Rattle.my_wire.specs.Memory.{taken, Holds};
ghost use Rattle.world_runs.specs.Run.{transcript};
ghost use Rattle.spider_cli.specs.Top.{Play, form_of, IsConfigured};

use my_wire::{MemFiles, MemSink, MemSource, Status};
use spider_cli::spider_local;
use std::alloc::Global;

#[cfg(test)]
mod tests;
#[cfg(test)]
mod workloads;

/// Calls the program over memory. Where the words ask to play, status 0 says that the whole transcript of the whole schedule was written, and nothing else.
pub fn play_in_memory(
    alloc: Global,
    words: &[String],
    files: &mut MemFiles,
    schedule: Vec<u8>,
    out: &mut MemSink,
    err: &mut MemSink,
) -> Status
    ensures { result.code ≡ 0 → (path : List ℕ) → form_of (map string_bytes words.now) ≡ Some (Play path) → (catalog : View) × IsConfigured Holds (map string_bytes words.now) files.old (Play path) catalog
        × ((transcript catalog schedule.items).refusal ≡ None) × (taken out.new ≡ taken out.old ++ (transcript catalog schedule.items).text) }
{
    let mut input = MemSource::new(schedule, Vec::new(alloc));
    spider_local(alloc, words, files, &mut input, out, err)
}
