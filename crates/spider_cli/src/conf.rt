// A configuration that isn't read: by which rule.
ghost use Rattle.std.specs.Prelude.{◌≡◌, ℕ, List, IfOk};
ghost use Rattle.catalog.specs.Conf.{IsConfFault};
ghost use Rattle.spider_cli.specs.Configurations.{is_rule as names_rule, Breaks, IsTurnedDown};

use crate::outcome::Outcome;
use catalog::{CatalogFault, ConfFault};
use conf_check::fault_text;
use conf_file::FileFault;
use list_types::Text;
use std::alloc::{AllocError, Global};

/// Whether a fault tells of a rule, and not of memory.
fn is_rule(fault: &ConfFault) -> bool
    ensures { result ≡ names_rule fault.now }
{
    match fault {
        ConfFault::NoMemory
        | ConfFault::File(FileFault::NoMemory)
        | ConfFault::Entries(CatalogFault::NoMemory) => false,
        ConfFault::File(_) | ConfFault::Entries(_) => true,
    }
}

/// The text of the rule that a configuration breaks.
fn broken_rule(alloc: Global, fault: &ConfFault) -> Result<Text, AllocError>
    ensures { IfOk result (λ rule. (conf : List ℕ) → IsConfFault conf fault.now → Breaks conf rule) }
{
    if !is_rule(fault) {
        return Err(AllocError);
    }
    fault_text(alloc, fault)
}

/// A configuration that has this fault is refused.
pub fn refused(alloc: Global, fault: &ConfFault) -> Outcome
    ensures { (conf : List ℕ) → IsConfFault conf fault.now → IsTurnedDown conf result }
{
    match broken_rule(alloc, fault) {
        Ok(rule) => Outcome::Conf(rule),
        Err(_) => Outcome::NoMemory,
    }
}
