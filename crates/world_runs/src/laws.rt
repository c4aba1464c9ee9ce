//! What the definitions say of one another.
ghost use Rattle.std.specs.Prelude.{List, ℕ};
ghost use Rattle.catalog.specs.Views.{View};
ghost use Rattle.plain_sessions.specs.Held.{CanBeServed};
ghost use Rattle.world_runs.specs.History.{IsPlain};

/// The run of each schedule, on each configuration whose servers can hold its tables, is that of a plain session.
pub fn runs_are_plain()
    ensures { (catalog : View) (schedule : List ℕ) → CanBeServed catalog → IsPlain catalog schedule }
{}
