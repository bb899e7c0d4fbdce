//! A script's lines in runs one after another.
ghost use Rattle.std.specs.Prelude.{◌<◌, ◌≤◌, IfOk, length};
ghost use Rattle.bfd_replay.specs.Planned.{AreRuns};

use bfd_script::line::Line;
use std::alloc::{AllocError, Global};

/// Lines that stand one after another, and the number of the first.
#[derive(Drop)]
pub(crate) struct Run {
    pub(crate) first: u64,
    pub(crate) lines: Vec<Line>,
}

/// Cuts lines into at most `count` runs of one length, of which the first may be shorter. Fails only when out of memory.
pub(crate) fn cut(alloc: Global, lines: Vec<Line>, count: usize) -> Result<Vec<Run>, AllocError>
    requires some { 0 < count }
    requires few { length lines.items ≤ 200000 }
    ensures runs { IfOk result (λ runs. AreRuns lines.items runs.items) }
    ensures most { IfOk result (λ runs. length runs.items ≤ count) }
{
    let size = lines.len() / count + 1;
    let mut runs = Vec::new(alloc);
    let mut left = lines;
    'runs: while size < left.len() {
        let at = left.len() - size;
        let tail = left.split_off(at)?;
        runs.push(Run {
            first: at as u64 + 1,
            lines: tail,
        })?;
    }
    runs.push(Run {
        first: 1,
        lines: left,
    })?;
    runs.reverse();
    Ok(runs)
}
