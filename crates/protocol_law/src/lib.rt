//! The laws of the commit protocol at each server, over every run.
//!
//! What it is for: strict two-phase locking and two-phase commit with presumed abort, whatever the front sends in its guards,
//! the network loses or delays, and whichever server or front stops when. Links, statements and tables stand in
//! `replica_law` above.
//!
//! How it is used: each law is the contract of a function without parameters. A proof above cites the lemmas in
//! `proofs/`, of which `Runs.sound` has all of them for every run.
//!
//! What it promises: the laws, without any premise beyond the guards of `commit_protocol`'s moves.
#![tactic(auto)]

ghost use Rattle.std.specs.Prelude.{◌≡◌, ◌≢◌, ℕ, List, [], ◌∷◌, Option, Some, None, true, false};
ghost use Rattle.commit_protocol.specs.Rows.{Key, row, AreApart, touches, owns, holds};
ghost use Rattle.commit_protocol.specs.Backend.{Branch, Request, Call, Stage, calls, new_server, find, effect, served, hung_up, stopped};
ghost use Rattle.commit_protocol.specs.Backend.Effect.{Drop, Install};
ghost use Rattle.commit_protocol.specs.Backend.Stage.{Prepared};
ghost use Rattle.commit_protocol.specs.Network.{Topology, Reply, reply, is_empty};
ghost use Rattle.commit_protocol.specs.Answers.{Answers, course, new_course};
ghost use Rattle.commit_protocol.specs.Store.{stored, tells, store_hung_up, store_stopped, store_of};
ghost use Rattle.commit_protocol.specs.Network.Reply.{Listed};
ghost use Rattle.commit_protocol.specs.Protocol.{Move, run, start, happens, decided_at, is_fresh, is_undecided};
ghost use Rattle.commit_protocol.specs.Views.{view, decides_member, decided_rows, done_on, First, IsSerialAt};
ghost use Rattle.protocol_law.specs.Examples.{two_servers, commits_once, waits_for_lock, gets_lock, late_request, late_then_seen, stops_between, settles_commit, settles_rollback, settles_too_early, decides_nothing, gives_up, spans_servers, refuses_scan, faults_preparing, recovers, after_run, row_at, has_log, is_there, branch_of, decided_numbers};

/// At one server no footprints of two live branches conflict, and each key that a branch changes is in one of its exclusive
/// footprints.
pub fn locks_are_apart()
    ensures apart { (es : List Call) (x y : ℕ) (a b : Branch) → find x (calls es new_server).branches ≡ Some a
        → find y (calls es new_server).branches ≡ Some b → x ≢ y → AreApart a.log b.log }
    ensures own { (es : List Call) (x : ℕ) (a : Branch) (k : Key) → find x (calls es new_server).branches ≡ Some a
        → touches a.log k ≡ true → owns a.log k ≡ true }
{}

/// The number of each live branch was drawn. Where a server has done a transaction's PREPARE and the transaction isn't ended, its
/// prepared branch stands there, begun on the connection that was asked, and did exactly what the front was told on that
/// connection.
pub fn prepared_is_told()
    ensures drawn { (f : Topology) (ms : List Move) (x s : ℕ) (b : Branch) → let w = run f ms start in
        find x (w.server s).branches ≡ Some b → is_fresh (w.transaction x).phase ≡ false }
    ensures told { (f : Topology) (ms : List Move) (x s : ℕ) → let w = run f ms start in
        is_undecided (w.transaction x).phase ≡ true → (w.transaction x).ready s ≡ true
        → (c : ℕ) × (b : Branch) × ((w.transaction x).asked s ≡ Some c) × (find x (w.server s).branches ≡ Some b)
        × (b.stage ≡ Prepared) × (b.log ≡ done_on c (w.transaction x).log) }
{}

/// On a connection that lost no answer, answers come in the order of the requests and what they say is true: `done` to a START
/// means that the branch was begun, `done` to a PREPARE that it is prepared. Where nothing is due there, nothing is under way.
pub fn answers_come_in_order()
    ensures first { (f : Topology) (ms : List Move) (c : ℕ) (a : Reply) (more : List Reply) → let v = course f ms new_course in
        (v.core.connection c).missed ≡ false → (v.core.connection c).unread ≡ a ∷ more
        → (r : Request) × (rest : List Request) × (v.due c ≡ r ∷ rest) × Answers f v.core c r a }
    ensures idle { (f : Topology) (ms : List Move) (c : ℕ) → let v = course f ms new_course in
        (v.core.connection c).missed ≡ false → v.due c ≡ [] → is_empty (v.core.connection c) ≡ true }
{}

/// No prepared branch of a decided transaction ends in rollback at a member, and no branch ends in commit elsewhere, or before
/// its decision.
pub fn decisions_stand()
    ensures no_rollback { (f : Topology) (ms : List Move) (c : ℕ) (r : Request) (b : Branch) → let w = run f ms start in
        First r (w.connection c).queue → effect (w.server (f.home c)) c r ≡ Drop b → decided_at f w.history b.xid (f.home c) ≡ false }
    ensures commit { (f : Topology) (ms : List Move) (c : ℕ) (r : Request) (b : Branch) → let w = run f ms start in
        First r (w.connection c).queue → effect (w.server (f.home c)) c r ≡ Install b → decided_at f w.history b.xid (f.home c) ≡ true }
{}

/// The store that code keeps, of each branch its changes and footprints in order, goes with the server: after every list of calls a
/// request, the end of a connection and a stop leave the store of what they leave of the server, and it tells what that answers.
pub fn stores_keep_servers()
    ensures left { (es : List Call) (c : ℕ) (r : Request) → let v = calls es new_server in stored (store_of v) c r ≡ store_of (served v c r) }
    ensures told { (es : List Call) (c : ℕ) (r : Request) → let v = calls es new_server in tells (store_of v) c r ≡ reply (effect v c r) }
    ensures hangup { (es : List Call) (c : ℕ) → let v = calls es new_server in store_hung_up (store_of v) c ≡ store_of (hung_up v c) }
    ensures stop { (es : List Call) → let v = calls es new_server in store_stopped (store_of v) ≡ store_of (stopped v) }
{}

/// Where a live branch holds a key, what counts of its server there changes by the decision of its own transaction alone.
pub fn held_keys_stay()
    ensures { (f : Topology) (ms : List Move) (m : Move) (s x : ℕ) (k : Key) (b : Branch) → let w = run f ms start in
        find x (w.server s).branches ≡ Some b → holds b.log k ≡ true → decides_member f w m x s ≡ false
        → view f (happens f w m) s k ≡ view f w s k }
{}

/// At each server the decided transactions, in the order of their decisions, are a serial run, and what counts of the server
/// is what they leave.
pub fn servers_are_serial()
    ensures serial { (f : Topology) (ms : List Move) (s : ℕ) → IsSerialAt f s (run f ms start).history }
    ensures rows { (f : Topology) (ms : List Move) (s : ℕ) (k : Key) → let w = run f ms start in view f w s k ≡ decided_rows f s w.history k }
{}

/// A transaction reads and writes a key, is decided and installed.
pub fn one_commits()
    ensures decided { decided_at two_servers (after_run commits_once).history 7 0 ≡ true }
    ensures row { row_at commits_once 0 3 ≡ Some (row 5) }
    ensures gone { branch_of commits_once 7 ≡ None }
{}

/// A conflicting lock is refused while the other branch is prepared, and given once it is committed.
pub fn one_waits()
    ensures refused { has_log (branch_of waits_for_lock 8) 0 ≡ true }
    ensures given { has_log (branch_of gets_lock 8) 1 ≡ true }
{}

/// A late request is done at the server, and goes with its branch as the end of the connection is seen.
pub fn one_is_late()
    ensures done { has_log (branch_of late_request 7) 1 ≡ true }
    ensures gone { is_there (branch_of late_then_seen 7) ≡ false }
{}

/// A server refuses a request for a cause of its own; a disk fault keeps a PREPARE or loses it with its branch; RECOVER lists what
/// is prepared.
pub fn one_faults()
    ensures refused { has_log (branch_of refuses_scan 7) 0 ≡ true }
    ensures kept { is_there (branch_of (faults_preparing true) 7) ≡ true }
    ensures lost { is_there (branch_of (faults_preparing false) 7) ≡ false }
    ensures listed { ((after_run recovers).connection 3).unread ≡ Listed (7 ∷ []) ∷ [] }
{}

/// A stop of a server keeps the prepared branch and drops the other.
pub fn one_stops()
    ensures kept { is_there (branch_of stops_between 7) ≡ true }
    ensures gone { is_there (branch_of stops_between 8) ≡ false }
{}

/// A record in progress at a stop of the front is found, and its branch is committed by settling; or it is lost, and its branch
/// is rolled back. Before the log is opened nothing is settled.
pub fn one_reopens()
    ensures found { row_at settles_commit 0 3 ≡ Some (row 5) }
    ensures lost { row_at settles_rollback 0 3 ≡ None }
    ensures gone { is_there (branch_of settles_rollback 7) ≡ false }
    ensures waits { is_there (branch_of settles_too_early 7) ≡ true }
{}

/// A transaction without a branch is decided; one is given up and rolled back; one spans two servers.
pub fn others_end()
    ensures nothing { decided_numbers decides_nothing ≡ 7 ∷ [] }
    ensures given_up { is_there (branch_of gives_up 7) ≡ false }
    ensures spans { row_at spans_servers 1 4 ≡ Some (row 6) }
    ensures both { decided_at two_servers (after_run spans_servers).history 7 0 ≡ true }
{}
