//! The rows by which arrivals are selected, one for each session and each reflector.
ghost use Rattle.std.specs.Prelude.{◌≡◌, IfOk, map};
ghost use Rattle.bfd_session.specs.Rows as rows;

use crate::SessionConfig;
use bfd_demux::{Row, RowKind};
use bfd_rules::Role;
use bfd_sbfd::Reflector;
use std::alloc::{AllocError, Global};

/// The row of a session: over a single hop its interface counts among its addresses, over several it doesn't (RFC 5881
/// section 3, RFC 5883 section 4); a tail is selected by its head, interface, group and source (RFC 8562 section 5.7), an
/// initiator and a head by no addresses.
pub fn row_of(config: &SessionConfig) -> Row
    ensures { result ≡ rows.row_of config.now }
{
    let kind = match config {
        SessionConfig::PointToPoint(c) => match c.role {
            Role::Single => RowKind::Single {
                iface: c.iface,
                local: c.local,
                remote: c.remote,
            },
            Role::Multi => RowKind::Multi {
                local: c.local,
                remote: c.remote,
            },
        },
        SessionConfig::Initiator(_) => RowKind::Initiator,
        SessionConfig::Head(_) => RowKind::Head,
        SessionConfig::Tail(c) => RowKind::Tail {
            head: c.head,
            iface: c.iface,
            group: c.group,
            source: c.source,
        },
    };
    Row {
        discr: config.discr(),
        kind,
    }
}

/// The row of a reflector (RFC 7880 section 7.2).
pub fn row_of_reflector(reflector: &Reflector) -> Row
    ensures { result ≡ rows.row_of_reflector reflector.now }
{
    Row {
        discr: reflector.discr,
        kind: RowKind::Reflect,
    }
}

/// The rows of sessions, in their order. Fails only when out of memory.
pub fn rows_of(alloc: Global, configs: &[SessionConfig]) -> Result<Vec<Row>, AllocError>
    ensures { IfOk result (λ list. list.items ≡ rows.rows_of configs.now) }
{
    configs.iter().map(|config| row_of(config)).collect(alloc)
}

/// The rows of the reflectors, in their order.
fn reflector_rows(alloc: Global, pool: &[Reflector]) -> Result<Vec<Row>, AllocError>
    ensures { IfOk result (λ list. list.items ≡ map rows.row_of_reflector pool.now) }
{
    pool.iter()
        .map(|reflector| row_of_reflector(reflector))
        .collect(alloc)
}

/// The table of sessions and of a pool of reflectors: the rows of the sessions, and then those of the reflectors. Fails only when out of
/// memory.
pub fn table_of(
    alloc: Global,
    configs: &[SessionConfig],
    pool: &[Reflector],
) -> Result<Vec<Row>, AllocError>
    ensures { IfOk result (λ list. list.items ≡ rows.table_of configs.now pool.now) }
{
    let mut list = rows_of(alloc, configs)?;
    let mut reflectors = reflector_rows(alloc, pool)?;
    list.append(&mut reflectors)?;
    Ok(list)
}
