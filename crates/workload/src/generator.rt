// The lines of a schedule, by draws from a seed.
ghost use Rattle.std.specs.Prelude.{◌≡◌, length, option_map, slice_get};
ghost use Rattle.workload.specs.Generated.{played_count};

use crate::statements::{push_comma, push_digits, push_insert_front, push_number, push_plain};
use catalog::Table;
use sql_values::{Kind, TableDef};
use std::alloc::AllocError;
use std::marker::Model;

// What takes one state to the next.
const MULTIPLIER: u64 = 6_364_136_223_846_793_005;

const INCREMENT: u64 = 1_442_695_040_888_963_407;

/// The sessions that send statements.
const SESSIONS: u64 = 8;

/// Keys are below this.
const KEYS: u64 = 1_000;

/// So many kinds of statements there are, an INSERT as often as it has kinds.
const KINDS: u64 = 10;

const INSERTS: u64 = 4;

/// Values of a BIGINT column are below this, and those of a VARCHAR column are the first digits of numbers below that.
const NUMBERS: u64 = 100_000;

const TEXTS: u64 = 1_000_000;

/// Generates the lines of a schedule. Contracts see it as its state, which at first is the seed.
#[derive(Drop)]
pub struct Generator {
    state: u64,
}

impl Model for Generator {
    ghost use Rattle.std.specs.Prelude.{ℕ};

    ghost Value = { ℕ };

    ghost view = { λ g. g.state };
}

/// What is drawn for a line.
#[derive(Clone, Copy)]
struct Draws {
    session: u64,
    table: u64,
    key: u64,
    kind: u64,
}

impl Generator {
    ghost use Rattle.std.specs.Prelude.{◌≡◌, ◌<◌, ◌+◌, length, codes, OnOk};
    ghost use Rattle.workload.specs.Generated.{next_state, drawn, draws_of, onto, value_text, value_at, values_from, insert_text, statement_text, line_on, next_line};

    /// A generator that has drawn nothing.
    pub fn new(seed: u64) -> Generator
        ensures { result ≡ seed }
    {
        Generator { state: seed }
    }

    /// One of so many numbers from 0 on.
    #[tactic(auto, unfolding(crate::specs::Generated::next_state, crate::specs::Generated::drawn))]
    fn draw(&mut self, count: u64) -> u64
        requires { 0 < count }
        ensures state { self.new ≡ next_state self.old }
        ensures value { result ≡ drawn count (next_state self.old) }
        ensures below { result < count }
    {
        self.state = self.state.wrapping_mul(MULTIPLIER).wrapping_add(INCREMENT);
        (self.state >> 33) % count
    }

    /// Adds a value that is drawn.
    fn push_drawn(&mut self, text: &mut Vec<u8>, kind: Kind) -> Result<(), AllocError>
        ensures { OnOk result ((text.new.items, self.new) ≡ onto text.old.items (value_text kind (next_state self.old), next_state self.old)) }
    {
        match kind {
            Kind::BigInt => {
                let number = self.draw(NUMBERS);
                push_number(text, number)
            }
            Kind::VarChar(most) => {
                let number = self.draw(TEXTS);
                push_digits(text, most, number)
            }
        }
    }

    /// Adds the value at a place: the key in its own, else one that is drawn.
    fn push_value(
        &mut self,
        text: &mut Vec<u8>,
        key_place: usize,
        key: u64,
        place: usize,
        kind: Kind,
    ) -> Result<(), AllocError>
        ensures { OnOk result ((text.new.items, self.new) ≡ onto text.old.items (value_at key_place key place kind self.old)) }
    {
        if place == key_place {
            return push_number(text, key);
        }
        self.push_drawn(text, kind)
    }

    /// Adds the values of a row.
    fn push_values(
        &mut self,
        text: &mut Vec<u8>,
        def: &TableDef,
        key: u64,
    ) -> Result<(), AllocError>
        ensures { OnOk result ((text.new.items, self.new) ≡ onto text.old.items (values_from def.now.key key 0 def.now.columns self.old)) }
    {
        for (place, column) in def.columns.as_slice().iter().enumerate() {
            push_comma(text, place)?;
            self.push_value(text, def.key as usize, key, place, column.kind)?;
        }
        Ok(())
    }

    fn push_insert(
        &mut self,
        text: &mut Vec<u8>,
        def: &TableDef,
        key: u64,
    ) -> Result<(), AllocError>
        ensures { OnOk result ((text.new.items, self.new) ≡ onto text.old.items (insert_text def.now key self.old)) }
    {
        push_insert_front(text, def)?;
        self.push_values(text, def, key)?;
        text.extend_from_slice(b")")
    }

    fn push_statement(
        &mut self,
        text: &mut Vec<u8>,
        def: &TableDef,
        key: u64,
        kind: u64,
    ) -> Result<(), AllocError>
        ensures { OnOk result ((text.new.items, self.new) ≡ onto text.old.items (statement_text def.now key kind self.old)) }
    {
        if kind < INSERTS {
            return self.push_insert(text, def, key);
        }
        push_plain(text, def, key, kind)
    }

    /// What is drawn for the next line, among so many tables.
    fn draws(&mut self, tables: u64) -> Draws
        requires { 0 < tables }
        ensures { record { session = result.session; table = result.table; key = result.key; kind = result.kind; state = self.new } ≡ draws_of tables self.old }
    {
        let session = self.draw(SESSIONS) + 1;
        let table = self.draw(tables);
        let key = self.draw(KEYS);
        let kind = self.draw(KINDS);
        Draws {
            session,
            table,
            key,
            kind,
        }
    }

    /// Adds a line on a table.
    fn push_line_on(
        &mut self,
        text: &mut Vec<u8>,
        draws: Draws,
        table: &Table,
    ) -> Result<(), AllocError>
        ensures { OnOk result ((text.new.items, self.new) ≡ onto text.old.items (line_on (record { session = draws.session; table = draws.table; key = draws.key; kind = draws.kind; state = self.old }) (Some table.now))) }
    {
        text.extend_from_slice(b"client ")?;
        push_number(text, draws.session)?;
        text.extend_from_slice(b" ")?;
        self.push_statement(text, &table.def, draws.key, draws.kind)?;
        text.extend_from_slice(b"\n")
    }

    /// Adds the next line.
    #[tactic(auto, unfolding(crate::specs::Generated::next_line))]
    pub fn push_line(&mut self, tables: &[Table], text: &mut Vec<u8>) -> Result<(), AllocError>
        requires { 0 < length tables.now }
        ensures { OnOk result ((text.new.items, self.new) ≡ onto text.old.items (next_line tables.now self.old)) }
    {
        let draws = self.draws(tables.len() as u64);
        match table_at(tables, draws.table) {
            Some(table) => self.push_line_on(text, draws, table),
            None => Ok(()),
        }
    }
}

/// The table at a place.
fn table_at(tables: &[Table], place: u64) -> Option<&Table>
    ensures { option_map (λ x. x.now) result ≡ slice_get tables.now place }
{
    tables.get(place as usize)
}

/// How many lines are played on these tables: none where there is no table.
pub fn played_count(tables: &[Table], count: u64) -> u64
    ensures { result ≡ played_count tables.now count }
{
    if tables.is_empty() { 0 } else { count }
}
