//! The reflectors of a table: unique by discriminator.
ghost use Rattle.std.specs.Prelude.{◌≡◌, [], false, length, IfOk};
ghost use Rattle.bfd_script.specs.Rows.{has_reflector, pooled};
ghost use Rattle.bfd_script.specs.Ranges.{IsReflector};
ghost use Rattle.bfd_script.specs.Sound.{ArePool};

use bfd_sbfd::Reflector;
use std::alloc::{AllocError, Global};
use std::collections::BTreeMap;
use std::marker::Model;

/// Reflectors. Contracts see the list of them, ascending by discriminator.
#[derive(Drop)]
pub(crate) struct Pool {
    reflectors: BTreeMap<u32, Reflector>,
}

impl Model for Pool {
    ghost use Rattle.std.specs.Prelude.{List};
    ghost use Rattle.std.specs.BTreeMap.{values};
    ghost use Rattle.bfd_sbfd.specs.declared.reflecting.Reflector.{Reflector};
    ghost use Rattle.bfd_script.specs.Tables.{IsPool};

    ghost Value = { List Reflector };

    ghost view = { λ p. values p.reflectors };

    ghost invariant = { λ p. IsPool p.reflectors.entries };
}

impl Pool {
    /// A pool without reflectors.
    pub(crate) fn new(alloc: Global) -> Pool
        ensures { result ≡ [] }
    {
        Pool {
            reflectors: BTreeMap::new(alloc),
        }
    }

    /// How many reflectors there are.
    pub(crate) fn len(&self) -> usize
        ensures { result ≡ length self.now }
    {
        self.reflectors.len()
    }

    /// Whether a reflector has this discriminator.
    #[tactic(auto, using(crate::proofs::Pooling::known_at))]
    pub(crate) fn has_discr(&self, discr: u32) -> bool
        ensures { result ≡ has_reflector discr self.now }
    {
        self.reflectors.contains_key(&discr)
    }

    /// One more reflector, whose discriminator is new. Fails only when out of memory.
    pub(crate) fn with(self, reflector: Reflector) -> Result<Pool, AllocError>
        requires discr { has_reflector reflector.discr self ≡ false }
        requires row { IsReflector reflector }
        ensures { IfOk result (λ pool. pool ≡ pooled reflector self) }
    {
        let Pool { mut reflectors } = self;
        reflectors.insert(reflector.discr, reflector)?;
        Ok(Pool { reflectors })
    }

    /// The reflectors, ascending by discriminator.
    pub(crate) fn into_rows(self, alloc: Global) -> Result<Vec<Reflector>, AllocError>
        ensures rows { IfOk result (λ rows. rows.items ≡ self) }
        ensures sound { ArePool self }
    {
        self.reflectors.into_values().collect(alloc)
    }
}
