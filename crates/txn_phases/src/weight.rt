//! How much is written at each server.
ghost use Rattle.std.specs.Prelude.{◌≡◌, map, IfOk};
ghost use Rattle.std.specs.List.{list_any};
ghost use Rattle.txn_phases.specs.declared.weight.Weight.{Weight};
ghost use Rattle.txn_phases.specs.Deeds.{writes_too_much as too_much, deletes_too_much as too_many};
ghost use Rattle.txn_phases.specs.Weights.{weight_of as weight_meant, key_weight_of as key_weight_meant, is_heavy};

use crate::partitions::PlacedKey;
use crate::{PlacedRow, Target};
use sql_values::{ServerNo, size};
use std::alloc::{AllocError, Global};

/// How many rows a transaction may write at a server.
const MOST_ROWS: u64 = 10_000;

/// How many bytes of rows it may write there.
const MOST_BYTES: u64 = 4_194_304;

/// How many rows a link gets, and how many bytes of them.
#[derive(Clone, Copy, Debug)]
pub(crate) struct Weight {
    server: ServerNo,
    rows: u64,
    bytes: u64,
}

fn weight_of(news: &[PlacedRow], target: &Target) -> Weight
    ensures { result ≡ weight_meant news.now target.now }
{
    let mut rows: u64 = 0;
    let mut bytes: u64 = 0;
    for new in news {
        if new.part != target.part {
            continue;
        }
        rows = rows.saturating_add(1);
        bytes = bytes.saturating_add(size(&new.row));
    }
    Weight {
        server: target.server,
        rows,
        bytes,
    }
}

fn weights_of(
    alloc: Global,
    targets: &[Target],
    news: &[PlacedRow],
) -> Result<Vec<Weight>, AllocError>
    ensures { IfOk result (λ weights. weights.items ≡ map (weight_meant news.now) targets.now) }
{
    let mut weights = Vec::new(alloc);
    for target in targets {
        weights.push(weight_of(news, target))?;
    }
    Ok(weights)
}

/// A key counts one row, and no bytes.
fn key_weight_of(keys: &[PlacedKey], target: &Target) -> Weight
    ensures { result ≡ key_weight_meant keys.now target.now }
{
    let mut rows: u64 = 0;
    for key in keys {
        if key.part != target.part {
            continue;
        }
        rows = rows.saturating_add(1);
    }
    Weight {
        server: target.server,
        rows,
        bytes: 0,
    }
}

fn key_weights_of(
    alloc: Global,
    targets: &[Target],
    keys: &[PlacedKey],
) -> Result<Vec<Weight>, AllocError>
    ensures { IfOk result (λ weights. weights.items ≡ map (key_weight_meant keys.now) targets.now) }
{
    let mut weights = Vec::new(alloc);
    for target in targets {
        weights.push(key_weight_of(keys, target))?;
    }
    Ok(weights)
}

/// Whether so much may not be written at the server.
fn is_long_write(weights: &[Weight], server: ServerNo) -> bool
    ensures { result ≡ is_heavy weights.now server }
{
    let mut rows: u64 = 0;
    let mut bytes: u64 = 0;
    for weight in weights {
        if weight.server != server {
            continue;
        }
        rows = rows.saturating_add(weight.rows);
        bytes = bytes.saturating_add(weight.bytes);
    }
    rows > MOST_ROWS || bytes > MOST_BYTES
}

fn is_any_heavy(weights: &[Weight]) -> bool
    ensures { result ≡ list_any (λ (w : Weight). is_heavy weights.now w.server) weights.now }
{
    weights
        .iter()
        .any(|weight| is_long_write(weights, weight.server))
}

/// Whether more than 10,000 rows, or more than 4 MiB of them, would be written at a server.
pub(crate) fn writes_too_much(
    alloc: Global,
    targets: &[Target],
    news: &[PlacedRow],
) -> Result<bool, AllocError>
    ensures { IfOk result (λ much. much ≡ too_much targets.now news.now) }
{
    let weights = weights_of(alloc, targets, news)?;
    Ok(is_any_heavy(&weights))
}

/// Whether more than 10,000 rows would go at a server.
pub(crate) fn deletes_too_much(
    alloc: Global,
    targets: &[Target],
    keys: &[PlacedKey],
) -> Result<bool, AllocError>
    ensures { IfOk result (λ much. much ≡ too_many targets.now keys.now) }
{
    let weights = key_weights_of(alloc, targets, keys)?;
    Ok(is_any_heavy(&weights))
}
