// The front, the servers' stores and what lies between them, in one.
ghost use Rattle.std.specs.Prelude.{◌≡◌, ◌++◌, ◌∷◌, [], OnOk, IfOk, option_to_list};
ghost use Rattle.front_core.specs.Core.{most_turns};
ghost use Rattle.front_core.specs.Outputs.{sends};
ghost use Rattle.world_runs.specs.Transcript.{outputs_text};
ghost use Rattle.spider_cli.specs.Shown.{shown_as};

use crate::schedule::{Line, read_line};
use crate::transcript::{Style, push_output};
use branch_store::BranchStore;
use catalog::Catalog;
use front_core::{Event, FrontState, Output, Outputs};
use list_types::{Bytes, Listed};
use sql_text::{LinkAnswer, LinkRequest};
use sql_values::ServerNo;
use std::alloc::{AllocError, Global};
use std::collections::VecDeque;
use wire_play::new_stores;
use world_runs::LineRule;

/// Why a line wasn't played.
#[derive(Clone, Copy, Debug, PartialEq, Eq)]
pub enum StepFault {
    /// The line breaks this rule.
    Broken(LineRule),
    /// Want of memory.
    NoMemory,
}

/// The front, the servers' stores by number, the requests that aren't delivered and the answers that aren't read.
#[derive(Drop)]
pub struct World {
    pub front: FrontState,
    pub stores: Vec<BranchStore>,
    pub requests: VecDeque<(ServerNo, LinkRequest)>,
    pub answers: VecDeque<(ServerNo, LinkAnswer)>,
}

/// A world, and whether requests are shown.
#[derive(Drop)]
pub struct Stage {
    pub world: World,
    pub traced: bool,
}

/// The request that an output is, with its server, where it is one.
fn request_of(output: Output) -> Option<(ServerNo, LinkRequest)>
    ensures { option_to_list result ≡ sends (output ∷ []) }
{
    match output {
        Output::Send { server, request } => Some((server, request)),
        Output::Await { server: _server } => None,
        Output::Decided { tx: _tx } => None,
        Output::Acked { tx: _tx } => None,
        Output::Answer {
            tx: _tx,
            reply: _reply,
        } => None,
    }
}

/// Passes a request on to the connection.
fn send(
    request: Option<(ServerNo, LinkRequest)>,
    requests: &mut VecDeque<(ServerNo, LinkRequest)>,
) -> Result<(), AllocError>
    ensures { OnOk result (requests.new.items ≡ requests.old.items ++ option_to_list request) }
{
    match request {
        Some(request) => {
            requests.push_back(request)?;
            Ok(())
        }
        None => Ok(()),
    }
}

/// Adds the lines of what the front gave out, and passes the requests among it on to the connection.
fn pass_on(
    alloc: Global,
    given: Listed<Output>,
    style: Style<'_>,
    requests: &mut VecDeque<(ServerNo, LinkRequest)>,
    text: &mut Vec<u8>,
) -> Result<(), AllocError>
    ensures sent { OnOk result (requests.new.items ≡ requests.old.items ++ sends given) }
    ensures text { OnOk result (text.new.items ≡ text.old.items ++ outputs_text (shown_as style.entry) given) }
{
    for output in given.into_vec() {
        push_output(alloc, text, style, &output)?;
        send(request_of(output), requests)?;
    }
    Ok(())
}

/// More turns than any statement takes.
fn most_turns() -> u64
    ensures { result ≡ most_turns }
{
    u64::MAX
}

impl World {
    ghost use Rattle.std.specs.Prelude.{◌≡◌, IfOk, OnOk, [], slice_get};
    ghost use Rattle.plain_sessions.specs.Held.{CanBeServed};
    ghost use Rattle.world_runs.specs.World.{Deliver, Reply, happens, reaches, fronts, turn, turns, is_over, with_session, runs, client, new_world};
    ghost use Rattle.spider_cli.specs.Shown.{shown, style_of, told_as};

    /// The world of a configuration as it starts.
    pub fn new(alloc: Global, catalog: Catalog) -> Result<World, AllocError>
        requires { CanBeServed catalog }
        ensures { IfOk result (λ world. shown world ≡ new_world catalog) }
    {
        let stores = new_stores(alloc, &catalog)?;
        Ok(World {
            front: FrontState::start(alloc, catalog),
            stores,
            requests: VecDeque::new(alloc),
            answers: VecDeque::new(alloc),
        })
    }

    /// The front makes an event of the session.
    fn event(
        &mut self,
        alloc: Global,
        event: Event,
        session: u32,
        traced: bool,
        text: &mut Vec<u8>,
    ) -> Result<(), AllocError>
        ensures told { OnOk result ((shown self.new, text.new.items) ≡ told_as (style_of (shown self.old) traced session) text.old.items (fronts (shown self.old) event)) }
        ensures same { OnOk result (self.new.front.catalog ≡ self.old.front.catalog) }
    {
        match self.front.step(event) {
            Outputs::Given(given) => {
                let style = Style {
                    servers: self.front.catalog().servers(),
                    traced,
                    session,
                };
                pass_on(alloc, given, style, &mut self.requests, text)
            }
            Outputs::NoRoom => Err(AllocError),
        }
    }

    /// A request reaches its server, whose answer waits. One to a server that isn't there is gone.
    fn reach(
        &mut self,
        alloc: Global,
        session: u32,
        server: ServerNo,
        request: &LinkRequest,
    ) -> Result<(), AllocError>
        ensures reaches { OnOk result (shown self.new ≡ reaches (shown self.old) session server request.now self.old.requests.items (slice_get self.old.stores.items server)) }
    {
        let Some(store) = self.stores.get_mut(server as usize) else {
            return Ok(());
        };
        let answer = store.ask(alloc, session, request)?;
        self.answers.push_back((server, answer))?;
        Ok(())
    }

    /// The session's oldest request is delivered.
    fn deliver(&mut self, alloc: Global, session: u32) -> Result<(), AllocError>
        ensures delivered { OnOk result ((shown self.new, []) ≡ happens (shown self.old) session Deliver) }
        ensures same { OnOk result (self.new.front ≡ self.old.front) }
    {
        let Some((server, request)) = self.requests.pop_front() else {
            return Ok(());
        };
        self.reach(alloc, session, server, &request)
    }

    /// The front reads the oldest answer.
    fn reply(
        &mut self,
        alloc: Global,
        session: u32,
        traced: bool,
        text: &mut Vec<u8>,
    ) -> Result<(), AllocError>
        ensures told { OnOk result ((shown self.new, text.new.items) ≡ told_as (style_of (shown self.old) traced session) text.old.items (happens (shown self.old) session Reply)) }
        ensures same { OnOk result (self.new.front.catalog ≡ self.old.front.catalog) }
    {
        match self.answers.pop_front() {
            Some((server, answer)) => {
                let event = Event::Got {
                    session,
                    server,
                    answer,
                };
                self.event(alloc, event, session, traced, text)
            }
            None => Ok(()),
        }
    }

    /// One turn.
    fn turn(
        &mut self,
        alloc: Global,
        session: u32,
        traced: bool,
        text: &mut Vec<u8>,
    ) -> Result<(), AllocError>
        ensures told { OnOk result ((shown self.new, text.new.items) ≡ told_as (style_of (shown self.old) traced session) text.old.items (turn (shown self.old) session)) }
        ensures same { OnOk result (self.new.front.catalog ≡ self.old.front.catalog) }
    {
        self.deliver(alloc, session)?;
        self.reply(alloc, session, traced, text)
    }

    /// Whether the session is idle, or nothing is under way.
    fn is_over(&self, session: u32) -> bool
        ensures { result ≡ is_over (shown self.now) session }
    {
        self.front.is_idle(session) || (self.requests.is_empty() && self.answers.is_empty())
    }

    /// Turns until all is over, at most so many.
    fn turns(
        &mut self,
        alloc: Global,
        session: u32,
        traced: bool,
        most: u64,
        text: &mut Vec<u8>,
    ) -> Result<(), AllocError>
        ensures told { OnOk result ((shown self.new, text.new.items) ≡ told_as (style_of (shown self.old) traced session) text.old.items (turns most (shown self.old) session)) }
        ensures same { OnOk result (self.new.front.catalog ≡ self.old.front.catalog) }
    {
        for _ in 0..most {
            if self.is_over(session) {
                return Ok(());
            }
            self.turn(alloc, session, traced, text)?;
        }
        Ok(())
    }

    /// Opens the session, where it isn't open.
    fn open(
        &mut self,
        alloc: Global,
        session: u32,
        traced: bool,
        text: &mut Vec<u8>,
    ) -> Result<(), AllocError>
        ensures told { OnOk result ((shown self.new, text.new.items) ≡ told_as (style_of (shown self.old) traced session) text.old.items (with_session (shown self.old) session)) }
        ensures same { OnOk result (self.new.front.catalog ≡ self.old.front.catalog) }
    {
        if self.front.is_open(session) {
            return Ok(());
        }
        self.event(alloc, Event::Open { session }, session, traced, text)
    }

    /// A statement, and then turns until the session is idle.
    fn run(
        &mut self,
        alloc: Global,
        session: u32,
        traced: bool,
        statement: &[u8],
        text: &mut Vec<u8>,
    ) -> Result<(), AllocError>
        ensures told { OnOk result ((shown self.new, text.new.items) ≡ told_as (style_of (shown self.old) traced session) text.old.items (runs (shown self.old) session statement.now)) }
        ensures same { OnOk result (self.new.front.catalog ≡ self.old.front.catalog) }
    {
        let statement = Event::Statement {
            session,
            text: Bytes::from_vec(Vec::from_slice(alloc, statement)?),
        };
        self.event(alloc, statement, session, traced, text)?;
        self.turns(alloc, session, traced, most_turns(), text)
    }

    /// A client's line: the session is opened where it isn't open, and runs the statement.
    fn client(
        &mut self,
        alloc: Global,
        session: u32,
        traced: bool,
        statement: &[u8],
        text: &mut Vec<u8>,
    ) -> Result<(), AllocError>
        ensures { OnOk result ((shown self.new, text.new.items) ≡ told_as (style_of (shown self.old) traced session) text.old.items (client (shown self.old) session statement.now)) }
    {
        self.open(alloc, session, traced, text)?;
        self.run(alloc, session, traced, statement, text)
    }
}

impl Stage {
    ghost use Rattle.std.specs.Prelude.{◌≡◌, OnOk, Ok, Err};
    ghost use Rattle.world_runs.specs.Run.{line_step, spoken_onto};
    ghost use Rattle.world_runs.specs.declared.schedule.LineRule.{LineRule};
    ghost use Rattle.spider_cli.specs.Shown.{scene_of};

    /// Plays the line of that number.
    pub fn step(
        &mut self,
        alloc: Global,
        number: u64,
        line: &[u8],
        text: &mut Vec<u8>,
    ) -> Result<(), StepFault>
        ensures step { OnOk result (spoken_onto text.old.items (line_step number (scene_of self.old) line.now) ≡ Ok (scene_of self.new, text.new.items)) }
        ensures broken { (rule : LineRule) → result ≡ Err (StepFault.Broken rule) → line_step number (scene_of self.old) line.now ≡ Err rule }
        ensures silent { (rule : LineRule) → result ≡ Err (StepFault.Broken rule) → text.new.items ≡ text.old.items }
    {
        match read_line(number, line) {
            Line::Passed => Ok(()),
            Line::Trace(on) => {
                self.traced = on;
                Ok(())
            }
            Line::Client {
                session,
                text: statement,
            } => {
                match self
                    .world
                    .client(alloc, session, self.traced, statement, text)
                {
                    Ok(()) => Ok(()),
                    Err(_) => Err(StepFault::NoMemory),
                }
            }
            Line::Broken(rule) => Err(StepFault::Broken(rule)),
        }
    }
}
