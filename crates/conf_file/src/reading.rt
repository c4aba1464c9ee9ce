//! Reads a configuration file, rule by rule.

ghost use Rattle.std.specs.Prelude.{◌≡◌, ◌↔◌, ◌≢◌, ◌≤◌, ◌<◌, ◌⊎◌, ◌^◌, length, Some, None, IfOk, IfErr, IsUtf8};
ghost use Rattle.toml.specs.Parse.{parse_document};
ghost use Rattle.toml.specs.View.{table_view};
ghost use Rattle.conf_file.specs.Files.{Tells, keys_fault, entries_fault, IsRead, IsFirstFault};

use crate::counts::too_many;
use crate::keys::{missing_key, unknown_key, wrong_type};
use crate::making::read_entries;
use crate::names::check_names;
use crate::repeats::check_repeats;
use crate::{ConfFile, FileFault};
use list_types::Text;
use std::alloc::Global;
use toml::Table;

/// The most bytes of a file.
const MOST_BYTES: usize = 1 << 20;

fn read_tree(alloc: Global, bytes: &[u8]) -> Result<Table, FileFault>
    ensures ok { IfOk result (λ tree. IsUtf8 bytes.now × (parse_document bytes.now ≡ Some (table_view tree))) }
    ensures err { IfErr result (λ fault. (fault ≡ FileFault.NoMemory) ⊎ ((fault ≡ FileFault.NotToml) × (IsUtf8 bytes.now → parse_document bytes.now ≡ None))) }
{
    match toml::table_from_slice(alloc, bytes) {
        Ok(tree) => Ok(tree),
        Err(error) => {
            if error.is_memory() {
                Err(FileFault::NoMemory)
            } else {
                Err(FileFault::NotToml)
            }
        }
    }
}

/// Checks the rules of keys, one after the other.
fn check_keys(alloc: Global, tree: &Table) -> Result<(), FileFault>
    ensures { Tells (keys_fault (table_view tree.now)) result }
{
    if let Some(key) = missing_key(tree) {
        return Err(FileFault::MissingKey(Text::from_str(alloc, key)?));
    }
    if let Some(key) = unknown_key(tree) {
        return Err(FileFault::UnknownKey(Text::from_str(alloc, key)?));
    }
    if let Some(key) = wrong_type(tree) {
        return Err(FileFault::WrongType(Text::from_str(alloc, key)?));
    }
    Ok(())
}

/// Checks the rules of entries, one after the other.
fn check_entries(alloc: Global, file: &ConfFile) -> Result<(), FileFault>
    ensures { Tells (entries_fault file.now) result }
{
    check_names(alloc, file)?;
    check_repeats(alloc, file)?;
    match too_many(file) {
        Some(what) => Err(FileFault::TooMany(what)),
        None => Ok(()),
    }
}

/// Reads a file that isn't too large.
#[tactic(auto, using(crate::proofs::Faults::keys_told, crate::proofs::Faults::entries_told, crate::proofs::Faults::read_right))]
fn read_within(alloc: Global, bytes: &[u8]) -> Result<ConfFile, FileFault>
    requires { length bytes.now ≤ 2 ^ 20 }
    ensures ok { IfOk result (IsRead bytes.now) }
    ensures err { IfErr result (IsFirstFault bytes.now) }
{
    let tree = read_tree(alloc, bytes)?;
    check_keys(alloc, &tree)?;
    let file = read_entries(alloc, &tree)?;
    check_entries(alloc, &file)?;
    Ok(file)
}

/// The entries of a configuration file, or the first rule that it breaks.
///
/// The cost is linear in the bytes, but for a logarithm at each key and name.
pub fn read_file(alloc: Global, bytes: &[u8]) -> Result<ConfFile, FileFault>
    ensures ok { IfOk result (IsRead bytes.now) }
    ensures err { IfErr result (IsFirstFault bytes.now) }

    // No memory is taken before the size is known.
    ensures large { (result ≡ Err FileFault.TooLarge) ↔ (2 ^ 20 < length bytes.now) }
{
    if bytes.len() > MOST_BYTES {
        return Err(FileFault::TooLarge);
    }
    read_within(alloc, bytes)
}
