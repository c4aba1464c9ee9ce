//! The laws of redundant links and of the plain tables, over every run.
//!
//! What it is for: links fall, come back and are copied to while transactions go on, servers and the front stop, and a record
//! may be kept or lost; all the same the decided transactions are a serial run of one plain table, each read of theirs found
//! what that table gave then, and each link that is OK has its rows.
//!
//! How it is used: each law is the contract of a function without parameters. The front's core shows that what it does is a
//! `Run` of `commit_protocol`; a language's statements are put in as `Statement`s.
//!
//! What it promises: the laws, without any premise beyond the guards of `commit_protocol`'s moves.
#![tactic(auto)]

ghost use Rattle.std.specs.Prelude.{◌≡◌, ℕ, Bool, List, [], ◌∷◌, Option, Some, None, true, false, map, length, ◌⊎◌};
ghost use Rattle.commit_protocol.specs.Rows.{row};
ghost use Rattle.commit_protocol.specs.Network.{Topology};
ghost use Rattle.commit_protocol.specs.Protocol.{Move, run, start};
ghost use Rattle.commit_protocol.specs.Views.{view};
ghost use Rattle.commit_protocol.specs.Links.{Placement, Status, at_link, IsMark, is_recovery};
ghost use Rattle.commit_protocol.specs.Notes.{Went, plain, IsPlainSerial, IsAmong};
ghost use Rattle.commit_protocol.specs.Replicas.{Front, Run, new_front, has_key, has_recorded};
ghost use Rattle.commit_protocol.specs.Links.Cursor.{Nothing};
ghost use Rattle.commit_protocol.specs.Links.Status.{OK, NG};
ghost use Rattle.commit_protocol.specs.Statements.{Entry, notes_of, AllAnswered, AreSerial, tables_of};
ghost use Rattle.replica_law.specs.Examples.{wires, places, configured, first_notes, front_whole, front_reopened, two_decided, front_decided_alone};

/// The decided transactions, in the order of their decisions, are a run of the plain tables, each of whose reads found what
/// these gave then; and what counts of each link is the plain tables' rows of its partition: each key of an OK link, and those
/// up to the cursor of a RECOVERY link. Also those that decided batches have reached whose cursor isn't recorded yet.
pub fn links_agree()
    ensures serial { (f : Topology) (p : Placement) (status : ℕ → Status) (v : Front) → Run f p (new_front status) v → IsPlainSerial p v.book }
    ensures whole { (f : Topology) (p : Placement) (status : ℕ → Status) (v : Front) (l k : ℕ) → Run f p (new_front status) v
        → has_recorded v l k ≡ true → p.key_partition k ≡ p.link_partition l → view f v.core (p.link_server l) (at_link l k) ≡ plain p v.book k }
    ensures copied { (f : Topology) (p : Placement) (status : ℕ → Status) (v : Front) (l k : ℕ) → Run f p (new_front status) v
        → has_key v l k ≡ true → p.key_partition k ≡ p.link_partition l → view f v.core (p.link_server l) (at_link l k) ≡ plain p v.book k }
{}

/// For any meaning of statements that is a function of what their scans find: where the decided transactions' notes are those
/// of statements that were scanned whole and answered from what was found, they are a serial run of these statements, and each
/// link has the rows of the tables that all leave. A copy's batch is a transaction without statements.
pub fn statements_are_serial()
    ensures answers { (f : Topology) (p : Placement) (status : ℕ → Status) (v : Front) (book : List (List Entry)) → Run f p (new_front status) v
        → v.book ≡ map notes_of book → AllAnswered book → AreSerial p book }
    ensures rows { (f : Topology) (p : Placement) (status : ℕ → Status) (v : Front) (book : List (List Entry)) (l k : ℕ) → Run f p (new_front status) v
        → v.book ≡ map notes_of book → AllAnswered book → has_recorded v l k ≡ true → p.key_partition k ≡ p.link_partition l
        → view f v.core (p.link_server l) (at_link l k) ≡ tables_of p book k }
{}

/// The book has one entry for each decision, in their order; and a cursor that is recorded of a RECOVERY link is that of a decided
/// batch of the link's present epoch.
pub fn books_follow_decisions()
    ensures entries { (f : Topology) (p : Placement) (status : ℕ → Status) (v : Front) → Run f p (new_front status) v → length v.book ≡ length v.core.history }
    ensures cursors { (f : Topology) (p : Placement) (status : ℕ → Status) (v : Front) (l : ℕ) → Run f p (new_front status) v → is_recovery (v.link l).status ≡ true
        → ((v.link l).cursor ≡ Nothing) ⊎ IsMark (record { link = l; epoch = (v.link l).epoch; upto = (v.link l).cursor }) v.marks }
{}

/// What a front may come to is a run of the protocol: so the laws at each server hold of it.
pub fn fronts_run_the_protocol()
    ensures { (f : Topology) (p : Placement) (status : ℕ → Status) (v : Front) → Run f p (new_front status) v
        → (ms : List Move) × (v.core ≡ run f ms start) }
{}

/// What went to a link in the link's present epoch went on the connection on which that server was asked to prepare: so the
/// tests by epochs and servers say which connection it was.
pub fn epochs_name_connections()
    ensures { (f : Topology) (p : Placement) (status : ℕ → Status) (v : Front) (x c : ℕ) (g : Went) → Run f p (new_front status) v
        → IsAmong g (v.sent x) → g.epoch ≡ (v.link g.link).epoch → (v.core.transaction x).asked (p.link_server g.link) ≡ Some c → g.connection ≡ c }
{}

/// A run of each kind of move of the front, computed: a write to two links; one falls, rises and is copied to; its cursor is
/// recorded, and it is OK and has the row. What was decided is a statement and a copy's batch.
pub fn one_is_copied()
    ensures run { Run wires places (new_front configured) front_whole }
    ensures status { (front_whole.link 1).status ≡ OK }
    ensures row { view wires front_whole.core 1 (at_link 1 3) ≡ Some (row 5) }
    ensures table { plain places front_whole.book 3 ≡ Some (row 5) }
    ensures entries { front_whole.book ≡ map notes_of two_decided }
    ensures answered { AllAnswered two_decided }
{}

/// A record in progress is lost or found as the log is opened again.
pub fn one_is_reopened()
    ensures run { (found : Bool) → Run wires places (new_front configured) (front_reopened found) }
    ensures found { (front_reopened true).book ≡ first_notes ∷ [] }
    ensures lost { (front_reopened false).book ≡ [] }
{}

/// A session goes on after it lost a server: the link there goes to NG, its server is dialled again, and the write goes to the
/// other link alone.
pub fn one_goes_on()
    ensures run { Run wires places (new_front configured) front_decided_alone }
    ensures status { (front_decided_alone.link 1).status ≡ NG }
    ensures row { view wires front_decided_alone.core 0 (at_link 0 3) ≡ Some (row 5) }
    ensures table { plain places front_decided_alone.book 3 ≡ Some (row 5) }
{}
