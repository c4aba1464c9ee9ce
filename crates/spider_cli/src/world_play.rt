// A schedule is played: from its bytes to the transcript's, a piece at a time.
ghost use Rattle.std.specs.Prelude.{◌≡◌, ◌<◌, ◌≤◌, length, IfOk};
ghost use Rattle.my_wire.specs.Counts.{HasRisen};
ghost use Rattle.plain_sessions.specs.Held.{CanBeServed};
ghost use Rattle.spider_cli.specs.Playing.{Plays};
ghost use Rattle.spider_cli.specs.Showing.{Shows};
ghost use Rattle.spider_cli.specs.Shown.{shown};
ghost use Rattle.world_runs.specs.World.{new_world};

use crate::end_text::push_end;
use crate::world::{Stage, StepFault, World};
use catalog::Catalog;
use my_wire::{Sink, Source, write_all};
use std::alloc::{AllocError, AllocFailed, Global};
use workload::cut_at;
use world_runs::LineRule;

/// How a play ended.
#[derive(Clone, Copy, Debug, PartialEq, Eq)]
pub enum PlayEnd {
    /// The schedule was played to its end.
    Done,
    /// This line breaks this rule. The lines before it were played.
    Refused { line: u64, rule: LineRule },
    /// Reading the schedule failed.
    ReadFault,
    /// Writing the transcript failed.
    WriteFault,
    /// Want of memory.
    NoMemory,
}

/// Why feeding a player ended.
#[derive(Clone, Copy, Debug, PartialEq, Eq)]
pub enum PlayFault {
    /// This line breaks this rule.
    Refused { line: u64, rule: LineRule },
    /// Want of memory.
    NoMemory,
}

impl From<AllocError> for PlayFault {
    ghost use Rattle.std.specs.Prelude.{◌≡◌};
    ghost use Rattle.spider_cli.specs.declared.world_play.PlayFault.TheVariants.{NoMemory};

    ghost from_gives = { λ _ e. e ≡ NoMemory };

    fn from(_: AllocError) -> Self {
        PlayFault::NoMemory
    }
}

impl<T: Drop> From<AllocFailed<T>> for PlayFault {
    ghost use Rattle.std.specs.Prelude.{◌≡◌};
    ghost use Rattle.spider_cli.specs.declared.world_play.PlayFault.TheVariants.{NoMemory};

    ghost from_gives = { λ _ e. e ≡ NoMemory };

    fn from(_: AllocFailed<T>) -> Self {
        PlayFault::NoMemory
    }
}

/// How many bytes are read at once.
const ROOM: usize = 65_536;

/// The stage, the line that isn't whole yet, and how many lines were played.
#[derive(Drop)]
pub struct Player {
    stage: Stage,
    line: Vec<u8>,
    number: u64,
}

impl Player {
    ghost use Rattle.std.specs.Prelude.{◌≡◌, ◌++◌, ◌∷◌, ◌<◌, [], ℕ, List, length, Some, None, OnOk};
    ghost use Rattle.spider_cli.specs.Playing.{IsReady, NoEnd, run_from, told_by};
    ghost use Rattle.world_runs.specs.Run.{told, with_front, end_of, transcript};
    ghost use Rattle.world_runs.specs.World.{new_world};
    ghost use Rattle.world_runs.specs.declared.schedule.LineRule.{LineRule};
    ghost use Rattle.spider_cli.specs.Shown.{shown};

    /// A player that has played nothing on this world. It takes no memory.
    pub fn new(alloc: Global, world: World) -> Player
        requires { shown world ≡ new_world world.front.catalog }
        ensures ready { IsReady result }
        ensures fresh { (rest : List ℕ) → told_by result rest ≡ transcript world.front.catalog rest }
    {
        let stage = Stage {
            world,
            traced: false,
        };
        Player {
            stage,
            line: Vec::new(alloc),
            number: 0,
        }
    }

    /// Plays the line that is whole.
    fn play_line(&mut self, alloc: Global, text: &mut Vec<u8>) -> Result<(), PlayFault>
        requires { IsReady self.old }
        ensures ready { OnOk result (IsReady self.new) }
        ensures told { OnOk result ((lines : List (List ℕ)) →
            with_front text.new.items (told (run_from self.new lines)) ≡ with_front text.old.items (told (run_from self.old (self.old.line.items ∷ lines)))) }
        ensures refused { (line : ℕ) (rule : LineRule) → result ≡ Err (PlayFault.Refused line rule) → (lines : List (List ℕ)) →
            record { text = text.new.items; refusal = Some (line, rule) } ≡ with_front text.old.items (told (run_from self.old (self.old.line.items ∷ lines))) }
    {
        let number = self.number + 1;
        match self.stage.step(alloc, number, self.line.as_slice(), text) {
            Ok(()) => {
                self.number = number;
                Ok(())
            }
            Err(StepFault::Broken(rule)) => Err(PlayFault::Refused { line: number, rule }),
            Err(StepFault::NoMemory) => Err(PlayFault::NoMemory),
        }
    }

    /// Ends the line.
    fn end_line(&mut self, alloc: Global, text: &mut Vec<u8>) -> Result<(), PlayFault>
        requires { IsReady self.old }
        ensures ready { OnOk result (IsReady self.new) }
        ensures empty { OnOk result (self.new.line.items ≡ []) }
        ensures told { OnOk result ((lines : List (List ℕ)) →
            with_front text.new.items (told (run_from self.new lines)) ≡ with_front text.old.items (told (run_from self.old (self.old.line.items ∷ lines)))) }
        ensures refused { (line : ℕ) (rule : LineRule) → result ≡ Err (PlayFault.Refused line rule) → (lines : List (List ℕ)) →
            record { text = text.new.items; refusal = Some (line, rule) } ≡ with_front text.old.items (told (run_from self.old (self.old.line.items ∷ lines))) }
    {
        self.play_line(alloc, text)?;
        self.line.clear();
        Ok(())
    }

    /// Takes bytes that end no line.
    fn grow(&mut self, bytes: &[u8]) -> Result<(), AllocError>
        requires ready { IsReady self.old }
        requires no_end { NoEnd bytes.now }
        ensures ready { OnOk result (IsReady self.new) }
        ensures told { OnOk result ((text : List ℕ) (rest : List ℕ) →
            with_front text (told_by self.new rest) ≡ with_front text (told_by self.old (bytes.now ++ rest))) }
    {
        self.line.extend_from_slice(bytes)
    }

    /// Takes the rest of a line, and its end.
    fn take_line(&mut self, alloc: Global, line: &[u8], text: &mut Vec<u8>) -> Result<(), PlayFault>
        requires ready { IsReady self.old }
        requires no_end { NoEnd line.now }
        ensures ready { OnOk result (IsReady self.new) }
        ensures told { OnOk result ((rest : List ℕ) →
            with_front text.new.items (told_by self.new rest) ≡ with_front text.old.items (told_by self.old (line.now ++ (10 ∷ rest)))) }
        ensures refused { (number : ℕ) (rule : LineRule) → result ≡ Err (PlayFault.Refused number rule) → (rest : List ℕ) →
            record { text = text.new.items; refusal = Some (number, rule) } ≡ with_front text.old.items (told_by self.old (line.now ++ (10 ∷ rest))) }
    {
        self.grow(line)?;
        self.end_line(alloc, text)
    }

    /// Takes the next piece, however the schedule is cut.
    pub fn feed(&mut self, alloc: Global, piece: &[u8], text: &mut Vec<u8>) -> Result<(), PlayFault>
        requires { IsReady self.old }
        ensures ready { OnOk result (IsReady self.new) }
        ensures told { OnOk result ((rest : List ℕ) →
            with_front text.new.items (told_by self.new rest) ≡ with_front text.old.items (told_by self.old (piece.now ++ rest))) }
        ensures refused { (line : ℕ) (rule : LineRule) → result ≡ Err (PlayFault.Refused line rule) → (rest : List ℕ) →
            record { text = text.new.items; refusal = Some (line, rule) } ≡ with_front text.old.items (told_by self.old (piece.now ++ rest)) }
    {
        let mut left = piece;
        while let Some((line, more)) = cut_at(b'\n', left) {
            self.take_line(alloc, line, text)?;
            left = more;
        }
        self.grow(left)?;
        Ok(())
    }

    /// Adds what the schedule's end tells.
    fn push_end(&self, alloc: Global, text: &mut Vec<u8>) -> Result<(), AllocError>
        ensures { OnOk result (text.new.items ≡ text.old.items ++ end_of None (shown self.now.stage.world)) }
    {
        let world = &self.stage.world;
        push_end(alloc, text, world.front.catalog(), world.stores.as_slice())
    }

    /// The schedule is at its end, and its last line had none.
    fn finish_line(&mut self, alloc: Global, text: &mut Vec<u8>) -> Result<(), PlayFault>
        requires ready { IsReady self.old }
        requires some { 0 < length self.old.line.items }
        ensures told { OnOk result (record { text = text.new.items; refusal = None } ≡ with_front text.old.items (told_by self.old [])) }
        ensures refused { (line : ℕ) (rule : LineRule) → result ≡ Err (PlayFault.Refused line rule) →
            record { text = text.new.items; refusal = Some (line, rule) } ≡ with_front text.old.items (told_by self.old []) }
    {
        self.end_line(alloc, text)?;
        self.push_end(alloc, text)?;
        Ok(())
    }

    /// The schedule is at its end.
    pub fn finish(&mut self, alloc: Global, text: &mut Vec<u8>) -> Result<(), PlayFault>
        requires { IsReady self.old }
        ensures told { OnOk result (record { text = text.new.items; refusal = None } ≡ with_front text.old.items (told_by self.old [])) }
        ensures refused { (line : ℕ) (rule : LineRule) → result ≡ Err (PlayFault.Refused line rule) →
            record { text = text.new.items; refusal = Some (line, rule) } ≡ with_front text.old.items (told_by self.old []) }
    {
        if !self.line.is_empty() {
            return self.finish_line(alloc, text);
        }
        self.push_end(alloc, text)?;
        Ok(())
    }
}

/// Writes the text, unless memory ran out before.
fn show<K: Sink>(fed: Result<(), PlayFault>, text: &mut Vec<u8>, out: &mut K) -> Result<(), PlayEnd>
    ensures later { K.faults out.old ≤ K.faults out.new }
    ensures shown { Shows K.takes K.faults fed text.old.items text.new.items out.old out.new result }
{
    if let Err(PlayFault::NoMemory) = fed {
        return Err(PlayEnd::NoMemory);
    }
    if write_all(out, text.as_slice()).is_err() {
        return Err(PlayEnd::WriteFault);
    }
    match fed {
        Err(PlayFault::Refused { line, rule }) => Err(PlayEnd::Refused { line, rule }),
        _ => {
            text.clear();
            Ok(())
        }
    }
}

/// A room of so many bytes.
fn make_room(alloc: Global, size: usize) -> Result<Vec<u8>, AllocError>
    ensures { IfOk result (λ room. length room.items ≡ size) }
{
    vec![in alloc; 0u8; size]
}

/// Plays a schedule on a configuration, with everything in memory.
///
/// What it writes is a front of the transcript of what it read, and the whole where it is done; the schedule was then read
/// to its end. A refused line ends it: then the transcript of the lines before stands written. Memory grows with the
/// longest line and with the tables, not with the schedule or the transcript.
pub fn play<S: Source, K: Sink>(
    alloc: Global,
    catalog: Catalog,
    schedule: &mut S,
    out: &mut K,
) -> PlayEnd
    requires { CanBeServed catalog }
    ensures plays { Plays S.gives S.has_ended K.takes catalog schedule.old schedule.new out.old out.new result }
    ensures reading { result ≡ PlayEnd.ReadFault → HasRisen (S.faults schedule.old) (S.faults schedule.new) }
    ensures writing { result ≡ PlayEnd.WriteFault → HasRisen (K.faults out.old) (K.faults out.new) }
    ensures later_in { S.faults schedule.old ≤ S.faults schedule.new }
    ensures later_out { K.faults out.old ≤ K.faults out.new }
{
    let Ok(mut room) = make_room(alloc, ROOM) else {
        return PlayEnd::NoMemory;
    };
    let Ok(world) = World::new(alloc, catalog) else {
        return PlayEnd::NoMemory;
    };
    play_in(alloc, world, room.as_mut_slice(), schedule, out)
}

/// The same, on a world that is new, with a room for what is read at once.
fn play_in<S: Source, K: Sink>(
    alloc: Global,
    world: World,
    room: &mut [u8],
    schedule: &mut S,
    out: &mut K,
) -> PlayEnd
    requires room { 0 < length room.old }
    requires fresh { shown world ≡ new_world world.front.catalog }
    ensures plays { Plays S.gives S.has_ended K.takes world.front.catalog schedule.old schedule.new out.old out.new result }
    ensures reading { result ≡ PlayEnd.ReadFault → HasRisen (S.faults schedule.old) (S.faults schedule.new) }
    ensures writing { result ≡ PlayEnd.WriteFault → HasRisen (K.faults out.old) (K.faults out.new) }
    ensures later_in { S.faults schedule.old ≤ S.faults schedule.new }
    ensures later_out { K.faults out.old ≤ K.faults out.new }
{
    let mut player = Player::new(alloc, world);
    let mut text = Vec::new(alloc);
    loop {
        let count = match schedule.read(room) {
            Ok(count) => count,
            Err(_) => return PlayEnd::ReadFault,
        };
        if count == 0 {
            break;
        }
        let fed = player.feed(alloc, &room[..count], &mut text);
        match show(fed, &mut text, out) {
            Ok(()) => {}
            Err(end) => return end,
        }
    }
    let fed = player.finish(alloc, &mut text);
    match show(fed, &mut text, out) {
        Ok(()) => PlayEnd::Done,
        Err(end) => end,
    }
}
