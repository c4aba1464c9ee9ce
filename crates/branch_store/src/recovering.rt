//! Which branches are prepared.

ghost use Rattle.std.specs.Prelude.{◌≡◌, [], IfOk, OnOk};
ghost use Rattle.std.specs.List.{fold};
ghost use Rattle.branch_store.specs.Store.{add_name as with_name, recovered};

use crate::Branch;
use list_types::{Listed, Text};
use sql_values::{Xid, Xids};
use std::alloc::{AllocError, Global};
use std::collections::BTreeMap;

/// The names of branches, in the order of their global parts, then of their branch parts.
type XidNames = BTreeMap<(Text, Text), ()>;

fn add_name(names: &mut XidNames, branch: &Branch) -> Result<(), AllocError>
    ensures { OnOk result (names.new.entries ≡ with_name names.old.entries branch.now) }
{
    if !branch.stage.is_prepared() {
        return Ok(());
    }
    names.insert((branch.xid.gtrid.clone()?, branch.xid.bqual.clone()?), ())?;
    Ok(())
}

fn names_of(alloc: Global, branches: &[Branch]) -> Result<XidNames, AllocError>
    ensures { IfOk result (λ names. names.entries ≡ fold with_name [] branches.now) }
{
    let mut names = BTreeMap::new(alloc);
    for branch in branches {
        add_name(&mut names, branch)?;
    }
    Ok(names)
}

/// The names of the prepared branches, in their order.
pub(crate) fn recovered_xids(alloc: Global, branches: &[Branch]) -> Result<Xids, AllocError>
    ensures { IfOk result (λ xids. xids ≡ recovered branches.now) }
{
    let mut xids = Listed::new(alloc);
    for name in names_of(alloc, branches)?.into_keys() {
        let (gtrid, bqual) = name;
        xids.push(Xid { gtrid, bqual })?;
    }
    Ok(xids)
}
