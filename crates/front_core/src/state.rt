use crate::work::{Work, come, receive};
use crate::{Event, Outputs};
use catalog::Catalog;
use list_types::{Bytes, Listed};
use sql_text::LinkAnswer;
use sql_values::ServerNo;
use std::alloc::Global;
use std::collections::BTreeMap;
use std::marker::Model;
use std::mem;

/// All that a front remembers: its configuration, how many numbers were drawn, and its sessions.
#[derive(Drop)]
pub struct FrontState {
    alloc: Global,
    catalog: Catalog,
    drawn: u64,
    sessions: BTreeMap<u32, Work>,
}

impl Model for FrontState {
    ghost use Rattle.front_core.specs.Core.{Front};
    ghost use Rattle.sql_values.specs.contracts.tree.Cond as cond;
    ghost use Rattle.sql_values.specs.contracts.tree.Expr as expr;
    ghost use Rattle.std.specs.Coded.{codes};

    ghost Value = { Front };

    ghost coded = { Prim.hlevel (codes, cond.the_row.coded, expr.the_row.coded) };

    ghost view = { λ s. record { catalog = s.catalog; drawn = s.drawn; sessions = s.sessions.entries } };
}

impl FrontState {
    ghost use Rattle.std.specs.Prelude.{◌≡◌, true, List, [], is_some};
    ghost use Rattle.front_core.specs.Outputs.{outputs_of, AnswersHaveBytes};
    ghost use Rattle.front_core.specs.Core.{new_front, IsStep, fits, rests, takes, work_of, opened, comes_to, got_by, StarvesAt};
    ghost use Rattle.front_core.specs.declared.event.Output.{Output};

    /// The front of a configuration as it starts, with boot 1. It takes no memory.
    pub fn start(alloc: Global, catalog: Catalog) -> FrontState
        ensures { result ≡ new_front catalog }
    {
        FrontState {
            alloc,
            catalog,
            drawn: 0,
            sessions: BTreeMap::new(alloc),
        }
    }

    /// The configuration.
    pub fn catalog(&self) -> &Catalog
        ensures { result.now ≡ self.now.catalog }
    {
        &self.catalog
    }

    /// Whether the session is open.
    pub fn is_open(&self, session: u32) -> bool
        ensures { result ≡ is_some (work_of self.now session) }
    {
        self.sessions.contains_key(&session)
    }

    /// Whether the session is open, and none of its statements is at work.
    pub fn is_idle(&self, session: u32) -> bool
        ensures { result ≡ rests (work_of self.now session) }
    {
        match self.sessions.get(&session) {
            Some(work) => work.is_idle(),
            None => false,
        }
    }

    /// Whether the session reads from that server, and the answer has the form of the one that is awaited.
    fn takes(&self, session: u32, server: ServerNo, answer: &LinkAnswer) -> bool
        ensures { result ≡ takes (work_of self.now session) server answer.now }
    {
        match self.sessions.get(&session) {
            Some(work) => work.takes(server, answer),
            None => false,
        }
    }

    /// Whether the event may come now: a new session has a number from 1 on that isn't open; a statement comes to an open session that is idle; an
    /// answer comes from the server that the session reads from, in its request's form; an open session may be closed.
    pub fn fits(&self, event: &Event) -> bool
        ensures { result ≡ fits self.now event.now }
    {
        match event {
            Event::Open { session } => 0 < *session && !self.is_open(*session),
            Event::Statement { session, .. } => self.is_idle(*session),
            Event::Got {
                session,
                server,
                answer,
            } => self.takes(*session, *server, answer),
            Event::Closed { session } => self.is_open(*session),
        }
    }

    /// Opens a session.
    fn open(&mut self, session: u32) -> Outputs
        ensures given { (outputs : List Output) → result ≡ Outputs.Given outputs → (outputs ≡ []) × (self.new ≡ opened self.old session) }
        ensures bytes { AnswersHaveBytes (outputs_of result) }
        ensures starved { result ≡ Outputs.NoRoom → self.new ≡ self.old }
    {
        match self.sessions.insert(session, Work::Idle) {
            Ok(_) => Outputs::Given(Listed::new(self.alloc)),
            Err(_) => Outputs::NoRoom,
        }
    }

    /// A text comes to an idle session.
    fn come(&mut self, session: u32, text: Bytes) -> Outputs
        requires { rests (work_of self.old session) ≡ true }
        ensures given { (outputs : List Output) → result ≡ Outputs.Given outputs → (self.new, outputs) ≡ comes_to self.old session text (work_of self.old session) }
        ensures bytes { AnswersHaveBytes (outputs_of result) }
        ensures starved { result ≡ Outputs.NoRoom → StarvesAt self.old session (Event.Statement session text) (work_of self.old session) self.new }
    {
        let Some(work) = self.sessions.get_mut(&session) else {
            unreachable!()
        };
        let waits = mem::replace(work, Work::Idle);
        match come(self.alloc, &self.catalog, self.drawn, text, waits) {
            Ok((drawn, waits, outputs)) => {
                *work = waits;
                self.drawn = drawn;
                Outputs::Given(outputs)
            }
            Err(left) => {
                *work = left;
                Outputs::NoRoom
            }
        }
    }

    /// An answer comes to a session that awaits it.
    fn receive(&mut self, session: u32, server: ServerNo, answer: LinkAnswer) -> Outputs
        requires { takes (work_of self.old session) server answer ≡ true }
        ensures given { (outputs : List Output) → result ≡ Outputs.Given outputs → (self.new, outputs) ≡ got_by self.old session answer (work_of self.old session) }
        ensures bytes { AnswersHaveBytes (outputs_of result) }
        ensures starved { result ≡ Outputs.NoRoom → StarvesAt self.old session (Event.Got session server answer) (work_of self.old session) self.new }
    {
        let Some(work) = self.sessions.get_mut(&session) else {
            unreachable!()
        };
        let waits = mem::replace(work, Work::Idle);
        match receive(self.alloc, &self.catalog, self.drawn, waits, server, answer) {
            Ok((drawn, waits, outputs)) => {
                *work = waits;
                self.drawn = drawn;
                Outputs::Given(outputs)
            }
            Err(left) => {
                *work = left;
                Outputs::NoRoom
            }
        }
    }

    /// Makes one event. One that doesn't fit changes nothing, and gives out nothing.
    pub fn step(&mut self, event: Event) -> Outputs
        ensures step { IsStep self.old event result self.new }
        ensures bytes { AnswersHaveBytes (outputs_of result) }
    {
        if !self.fits(&event) {
            return Outputs::Given(Listed::new(self.alloc));
        }
        match event {
            Event::Open { session } => self.open(session),
            Event::Statement { session, text } => self.come(session, text),
            Event::Got {
                session,
                server,
                answer,
            } => self.receive(session, server, answer),
            Event::Closed { session } => {
                let _work = self.sessions.remove(&session);
                Outputs::Given(Listed::new(self.alloc))
            }
        }
    }
}
