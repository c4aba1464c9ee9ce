// Statements that a seed generates are played, with their transcript in memory, and what is told of it in short is written.
ghost use Rattle.std.specs.Prelude.{◌≡◌, [], Some, None, ℕ, List, OnOk, IfOk};
ghost use Rattle.catalog.specs.Conf.{IsCatalog};
ghost use Rattle.plain_sessions.specs.Held.{CanBeServed};
ghost use Rattle.spider_cli.specs.Playing.{IsReady, told_by};
ghost use Rattle.spider_cli.specs.Summing.{Sums};
ghost use Rattle.spider_cli.specs.Top.{generated, Worked};
ghost use Rattle.workload.specs.Generated.{lines_from, played_count};
ghost use Rattle.workload.specs.Summary.{summary};
ghost use Rattle.world_runs.specs.Run.{transcript, with_front};
ghost use Rattle.world_runs.specs.declared.schedule.LineRule.{LineRule};

use crate::outcome::{Object, Outcome};
use crate::world::World;
use crate::world_play::{PlayFault, Player};
use catalog::{Catalog, Table};
use my_wire::{Sink, write_all};
use std::alloc::{AllocError, Global};
use workload::{Generator, played_count, summary};

/// Plays the lines that a seed generates.
fn play_lines(
    alloc: Global,
    player: &mut Player,
    tables: &[Table],
    seed: u64,
    count: u64,
    text: &mut Vec<u8>,
) -> Result<(), PlayFault>
    requires { IsReady player.old }
    ensures ready { OnOk result (IsReady player.new) }
    ensures told { OnOk result (with_front text.new.items (told_by player.new []) ≡ with_front text.old.items (told_by player.old (lines_from tables.now (played_count tables.now count) seed))) }
    ensures refused { (line : ℕ) (rule : LineRule) → result ≡ Err (PlayFault.Refused line rule) →
        record { text = text.new.items; refusal = Some (line, rule) } ≡ with_front text.old.items (told_by player.old (lines_from tables.now (played_count tables.now count) seed)) }
{
    let played = played_count(tables, count);
    let mut generator = Generator::new(seed);
    let mut line = Vec::new(alloc);
    for number in 0..played {
        line.clear();
        generator.push_line(tables, &mut line)?;
        player.feed(alloc, line.as_slice(), text)?;
    }
    Ok(())
}

/// A player on a world of its own.
fn new_player(alloc: Global, catalog: &Catalog) -> Result<Player, AllocError>
    requires { CanBeServed catalog.now }
    ensures ready { IfOk result (λ player. IsReady player) }
    ensures fresh { IfOk result (λ player. (rest : List ℕ) → told_by player rest ≡ transcript catalog.now rest) }
{
    let copy = catalog.copy(alloc)?;
    let world = World::new(alloc, copy)?;
    let player = Player::new(alloc, world);
    Ok(player)
}

/// The transcript of the lines that a seed generates, where none breaks a rule.
fn generated(alloc: Global, catalog: &Catalog, seed: u64, count: u64) -> Result<Vec<u8>, PlayFault>
    requires { CanBeServed catalog.now }
    ensures told { IfOk result (λ text. record { text = text.items; refusal = None } ≡ generated catalog.now seed count) }
    ensures refused { (line : ℕ) (rule : LineRule) → result ≡ Err (PlayFault.Refused line rule) → (generated catalog.now seed count).refusal ≡ Some (line, rule) }
{
    let mut player = new_player(alloc, catalog)?;
    let mut text = Vec::new(alloc);
    play_lines(alloc, &mut player, catalog.tables(), seed, count, &mut text)?;
    player.finish(alloc, &mut text)?;
    Ok(text)
}

/// Writes what is told of a transcript in short.
fn write_summary<O: Sink>(alloc: Global, played: u64, transcript: &[u8], out: &mut O) -> Outcome
    ensures { Sums O.takes O.faults out.old out.new (summary played transcript.now) result }
{
    let Ok(text) = summary(alloc, played, transcript) else {
        return Outcome::NoMemory;
    };
    match write_all(out, text.as_slice()) {
        Ok(()) => Outcome::Done,
        Err(_) => Outcome::Fault(Object::Output),
    }
}

/// Plays the statements that a seed generates, and writes what is told of their transcript in short.
///
/// Nothing is written where a line breaks a rule. Memory grows with the transcript.
pub fn play_workload<O: Sink>(
    alloc: Global,
    catalog: &Catalog,
    seed: u64,
    count: u64,
    out: &mut O,
) -> Outcome
    requires { CanBeServed catalog.now }
    ensures { (conf : List ℕ) → IsCatalog conf catalog.now → Worked O.takes O.faults out.old out.new conf seed count result }
{
    match generated(alloc, catalog, seed, count) {
        Ok(transcript) => write_summary(
            alloc,
            played_count(catalog.tables(), count),
            transcript.as_slice(),
            out,
        ),
        Err(PlayFault::Refused { line, rule }) => Outcome::Refused { line, rule },
        Err(PlayFault::NoMemory) => Outcome::NoMemory,
    }
}
