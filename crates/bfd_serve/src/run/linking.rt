//! The links of a run, opened and shut.
ghost use Rattle.std.specs.Prelude.{◌≡◌, ◌<◌, ◌≤◌, ◌+◌, ◌∷◌, ℕ, false, true, length, Some, IfOk, MatchResult, slice_index_or};
ghost use Rattle.std.specs.List.{All};
ghost use Rattle.bfd_edge.specs.Links.{IsNewLink};
ghost use Rattle.bfd_serve.specs.Linking.{AreTheirs, IsUncalled, IsOpenTo, IsUnopened};

use crate::run::finish::{Refused, refused_as};
use bfd_edge::Ports;
use std::alloc::Global;

/// Shuts the link of caller 0, and then those of the workers, each by the number by which it was opened.
pub(crate) fn shut_all<P: Ports>(ports: &mut P, own: P::Link, links: Vec<P::Link>)
    requires few { length links.items ≤ 64 }
    requires opened { (number : ℕ) → number ≤ length links.items → (P.observed ports.old).opened number ≡ true }
    requires theirs { AreTheirs P.Link.observed own links.items }
    ensures opened { (number : ℕ) → (P.observed ports.new).opened number ≡ (P.observed ports.old).opened number }
    ensures faults { (P.observed ports.new).faults ≡ (P.observed ports.old).faults }
    ensures shut { (number : ℕ) → number ≤ length links.items
        → (P.observed ports.new).shut number ≡ Some (P.Link.observed (slice_index_or (own ∷ links.items) number own)) }
{
    ports.shut(0, own);
    let mut number = 1;
    for link in links {
        ports.shut(number, link);
        number += 1;
    }
}

/// Opens the links 0 to the number of workers. After a fault those that were opened are shut again, and none was called.
#[tactic(auto, using(crate::proofs::Theirs::theirs_none, crate::proofs::Theirs::theirs_more))]
pub(crate) fn open_all<P: Ports>(
    alloc: Global,
    ports: &mut P,
    workers: u32,
) -> Result<(P::Link, Vec<P::Link>), Refused>
    requires new { (number : ℕ) → (P.observed ports.old).opened number ≡ false }
    requires few { workers ≤ 64 }
    ensures own { IfOk result (λ r. IsNewLink (P.Link.observed r.0)) }
    ensures links { IfOk result (λ r. All (IsUncalled P.Link.observed) r.1.items) }
    ensures theirs { IfOk result (λ r. AreTheirs P.Link.observed r.0 r.1.items) }
    ensures opened { MatchResult result (λ r. IsOpenTo workers (P.observed ports.old) (P.observed ports.new))
        (λ refused. IsUnopened refused (P.observed ports.old) (P.observed ports.new)) }
    ensures long { IfOk result (λ r. length r.1.items ≡ workers) }
{
    let own = match ports.open(0) {
        Ok(link) => link,
        Err(fault) => return Err(refused_as(fault)),
    };
    let Ok(mut links) = Vec::with_capacity(alloc, workers as usize) else {
        ports.shut(0, own);
        return Err(Refused::Memory);
    };
    for at in 0..workers {
        match ports.open(at + 1) {
            Ok(link) => links.push_reserved(link),
            Err(fault) => {
                shut_all(ports, own, links);
                return Err(refused_as(fault));
            }
        }
    }
    Ok((own, links))
}
