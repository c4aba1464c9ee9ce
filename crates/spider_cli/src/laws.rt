// What the definitions say of one another.
ghost use Rattle.std.specs.Prelude.{List, ℕ};
ghost use Rattle.catalog.specs.Conf.{IsCatalog};
ghost use Rattle.catalog.specs.Views.{View};
ghost use Rattle.world_runs.specs.History.{IsPlain};

use phase_law::configurations_can_be_served;
use world_runs::laws::runs_are_plain;

/// The run of each schedule, on each configuration that is read, is that of a plain session over plain tables.
pub fn is_plain()
    ensures { (conf : List ℕ) (catalog : View) → IsCatalog conf catalog → (schedule : List ℕ) → IsPlain catalog schedule }
{
    configurations_can_be_served();
    runs_are_plain();
}
