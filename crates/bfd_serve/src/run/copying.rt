//! The sessions of a script, copied and dealt out to shards.
ghost use Rattle.std.specs.Prelude.{◌≡◌, ◌<◌, ◌≤◌, ◌+◌, ◌*◌, ◌++◌, [], IfOk, length, map, drop};
ghost use Rattle.bfd_shard.specs.Dealing.{share};
ghost use Rattle.bfd_serve.specs.Runs.{AreDealt};

use bfd_session::SessionConfig;
use std::alloc::{AllocError, Global};

/// Copies of the configurations of a shard's sessions.
fn dealt_to(
    alloc: Global,
    configs: &[SessionConfig],
    shards: usize,
    shard: usize,
) -> Result<Vec<SessionConfig>, AllocError>
    requires some { (0 < shards) × (shards ≤ 64) }
    requires few { length configs.now ≤ 65536 }
    requires inside { shard < shards }
    ensures { IfOk result (λ part. part.items ≡ share shards shard configs.now) }
{
    let mut part = Vec::new(alloc);
    let mut at = shard;
    while at < configs.len() {
        part.push(configs[at].copy())?;
        at += shards;
    }
    Ok(part)
}

/// Copies of the configurations by shard, as an engine deals them out.
pub(crate) fn dealt(
    alloc: Global,
    configs: &[SessionConfig],
    shards: u32,
) -> Result<Vec<Vec<SessionConfig>>, AllocError>
    requires some { (0 < shards) × (shards ≤ 64) }
    requires few { length configs.now ≤ 65536 }
    ensures { IfOk result (λ parts. AreDealt shards shards configs.now (map (λ part. part.items) parts.items)) }
{
    let mut parts = Vec::new(alloc);
    for shard in 0..shards {
        parts.push(dealt_to(alloc, configs, shards as usize, shard as usize)?)?;
    }
    Ok(parts)
}
