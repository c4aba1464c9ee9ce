//! Which names are taken.

ghost use Rattle.std.specs.Prelude.{◌≡◌, ◌||◌, ℕ, List, map, not, IfOk, OnOk};
ghost use Rattle.conf_file.specs.Names.{all_free, with_name, is_among, system_tables};
ghost use Rattle.conf_file.specs.Taken.{is_taken};

use list_types::Text;
use std::alloc::{AllocError, Global};
use std::collections::BTreeSet;

/// Names that are taken, in a space of names.
#[derive(Drop)]
pub(crate) struct TakenNames {
    names: BTreeSet<Text>,
}

/// The tables that are there without being named.
const SYSTEM_TABLES: [&str; 5] = [
    "spider_xa",
    "spider_xa_member",
    "spider_tables",
    "spider_link_mon_servers",
    "spider_link_failed_log",
];

impl TakenNames {
    /// No name is taken.
    #[tactic(auto, unfolding(crate::specs::Taken::is_taken))]
    pub(crate) fn new(alloc: Global) -> TakenNames
        ensures { is_taken result ≡ all_free }
    {
        TakenNames {
            names: BTreeSet::new(alloc),
        }
    }

    /// The names of the system tables are taken.
    pub(crate) fn of_system_tables(alloc: Global) -> Result<TakenNames, AllocError>
        ensures { IfOk result (λ names. is_taken names ≡ is_among system_tables) }
    {
        let mut names = TakenNames::new(alloc);
        names.take_all(alloc, &SYSTEM_TABLES)?;
        Ok(names)
    }

    /// Takes a name, and says whether it was free.
    #[tactic(auto, unfolding(crate::specs::Taken::is_taken))]
    pub(crate) fn take(&mut self, alloc: Global, name: &str) -> Result<bool, AllocError>
        ensures free { IfOk result (λ was_free. was_free ≡ not (is_taken self.old name.now)) }
        ensures taken { OnOk result (is_taken self.new ≡ with_name name.now (is_taken self.old)) }
    {
        let name = Text::from_str(alloc, name)?;
        let was_free = self.names.insert(name)?;
        Ok(was_free)
    }

    fn take_all(&mut self, alloc: Global, names: &[&str]) -> Result<(), AllocError>
        ensures { OnOk result ((name : List ℕ) → is_taken self.new name ≡ (is_among (map (λ n. n.now) names.now) name || is_taken self.old name)) }
    {
        for name in names {
            self.take(alloc, name)?;
        }
        Ok(())
    }
}
