//! The links that a statement asks, and the servers of these.
ghost use Rattle.std.specs.Prelude.{◌≡◌, ◌<◌, ◌^◌, ◌==◌, ◌++◌, ◌∷◌, false, true, length, slice_index_or, IfOk, List, ℕ};
ghost use Rattle.std.specs.List.{list_any};
ghost use Rattle.catalog.specs.declared.link.Link.{Link as TheLink};
ghost use Rattle.catalog.specs.Links.{is_ok as counts_as_ok};
ghost use Rattle.txn_phases.specs.declared.phase.Target.{Target as TheTarget};
ghost use Rattle.front_core.specs.Jobs.{is_ng as counts_as_ng, target_at as target_meant, links_at as links_meant, part_targets, targets_of as targets_meant, servers_of as servers_meant};
ghost use Rattle.front_core.specs.Planned.{is_asked as asks_link, targets_left};

use catalog::{Link, Part, Status};
use list_types::Listed;
use sql_values::{LockMode, PartNo, ServerNo, ServerNos};
use std::alloc::{AllocError, Global};
use txn_phases::{Target, Targets};

fn is_ng(status: Status) -> bool
    ensures { result ≡ counts_as_ng status }
{
    match status {
        Status::Ok | Status::Recovery => false,
        Status::Ng => true,
    }
}

fn is_ok(status: Status) -> bool
    ensures { result ≡ counts_as_ok status }
{
    match status {
        Status::Ok => true,
        Status::Recovery | Status::Ng => false,
    }
}

/// Whether a link is asked that isn't NG.
fn is_asked(mode: LockMode, counts: bool) -> bool
    ensures { result ≡ asks_link mode counts }
{
    match mode {
        LockMode::Exclusive => true,
        LockMode::Shared => counts,
    }
}

fn target_at(part: PartNo, link: &Link, counts: bool) -> Result<Target, AllocError>
    ensures { IfOk result (λ target. target ≡ target_meant part (link.now, counts)) }
{
    Ok(Target {
        part,
        server: link.server,
        remote: link.remote.clone()?,
        counts,
    })
}

/// Adds a link of a partition, where it is asked. `found` says whether a link whose rows count was found before it, and what is answered whether one is
/// found now.
fn push_link(
    targets: &mut Targets,
    mode: LockMode,
    part: PartNo,
    link: &Link,
    found: bool,
) -> Result<bool, AllocError>
    ensures { IfOk result (λ now_found. (rest : List TheLink) → targets.new ++ targets_left mode part now_found rest ≡ targets.old ++ targets_left mode part found (link.now ∷ rest)) }
{
    if is_ng(link.first) {
        return Ok(found);
    }
    let counts = !found && is_ok(link.first);
    if !is_asked(mode, counts) {
        return Ok(found || is_ok(link.first));
    }
    targets.push(target_at(part, link, counts)?)?;
    Ok(found || is_ok(link.first))
}

/// Adds the links of a partition that are asked.
fn push_links(
    targets: &mut Targets,
    mode: LockMode,
    part: PartNo,
    links: &[Link],
) -> Result<(), AllocError>
    ensures { IfOk result (λ _. targets.new ≡ targets.old ++ targets_left mode part false links.now) }
{
    let mut found = false;
    for link in links {
        found = push_link(targets, mode, part, link, found)?;
    }
    Ok(())
}

/// The links of a partition.
fn links_at(parts: &[Part], part: PartNo) -> &[Link]
    ensures { result.now ≡ links_meant parts.now part }
{
    match parts.get(part as usize) {
        Some(part) => part.links.as_slice(),
        None => &[],
    }
}

fn push_part(
    targets: &mut Targets,
    mode: LockMode,
    parts: &[Part],
    part: PartNo,
) -> Result<(), AllocError>
    ensures { IfOk result (λ _. targets.new ≡ targets.old ++ part_targets mode parts.now part) }
{
    push_links(targets, mode, part, links_at(parts, part))
}

/// The links of these partitions that are asked: to change rows all that are written, to read them the one whose rows count.
pub(crate) fn targets_of(
    alloc: Global,
    mode: LockMode,
    parts: &[Part],
    asked: &[PartNo],
) -> Result<Targets, AllocError>
    ensures { IfOk result (λ targets. targets ≡ targets_meant mode parts.now asked.now) }
{
    let mut targets = Listed::new(alloc);
    for part in asked {
        push_part(&mut targets, mode, parts, *part)?;
    }
    Ok(targets)
}

/// For each of so many servers whether one of the links is there.
fn marks(alloc: Global, servers: usize, targets: &[Target]) -> Result<Vec<bool>, AllocError>
    ensures count { IfOk result (λ marks. length marks.items ≡ servers) }
    ensures marked { IfOk result (λ marks. (s : ℕ) → s < servers → slice_index_or marks.items s false ≡ list_any (λ (t : TheTarget). t.server == s) targets.now) }
    ensures numbers { IfOk result (λ marks. (s : ℕ) → slice_index_or marks.items s false ≡ true → s < 2 ^ 32) }
{
    let mut marks = vec![in alloc; false; servers]?;
    for target in targets {
        let server = target.server as usize;
        if server < marks.len() {
            marks[server] = true;
        }
    }
    Ok(marks)
}

/// The servers of these links among so many, rising, each once. It takes a look at each link and at each server.
pub(crate) fn servers_of(
    alloc: Global,
    servers: usize,
    targets: &[Target],
) -> Result<ServerNos, AllocError>
    ensures { IfOk result (λ found. found ≡ servers_meant servers targets.now) }
{
    let marks = marks(alloc, servers, targets)?;
    let mut found = Listed::new(alloc);
    for server in 0..servers {
        if !marks[server] {
            continue;
        }
        found.push(server as ServerNo)?;
    }
    Ok(found)
}
