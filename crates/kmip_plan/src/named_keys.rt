//! The keys of a plan that were read so far.
ghost use Rattle.std.specs.Prelude.{◌≡◌, ◌+◌, ◌<◌, ◌^◌, ◌++◌, ◌∷◌, [], length, IfOk};
ghost use Rattle.kmip_plan.specs.Reading.{has_key_named};

use crate::Key;
use std::alloc::{AllocError, Global};
use std::collections::HashSet;
use std::marker::Model;

/// Keys in their order, and the set of their names. A contract sees the list of the keys.
#[derive(Drop)]
pub(crate) struct NamedKeys {
    keys: Vec<Key>,
    names: HashSet<String>,
}

impl Model for NamedKeys {
    ghost use Rattle.std.specs.Prelude.{List};
    ghost use Rattle.kmip_plan.specs.declared.key.Key.{Key};
    ghost use Rattle.kmip_plan.specs.PrivateNames.{AreNamesOf};

    ghost Value = { List Key };

    ghost view = { λ k. k.keys.items };

    ghost invariant = { λ k. AreNamesOf k.names k.keys.items };
}

impl NamedKeys {
    /// No keys.
    pub(crate) fn new(alloc: Global) -> Self
        ensures { result ≡ [] }
    {
        NamedKeys {
            keys: Vec::new(alloc),
            names: HashSet::new(alloc),
        }
    }

    /// How many keys there are.
    pub(crate) fn len(&self) -> usize
        ensures len { result ≡ length self.now }
        ensures small { result + 1 < 2 ^ 64 }
    {
        self.keys.as_slice().len()
    }

    /// Whether a key has the name.
    pub(crate) fn has_name(&self, name: &str) -> bool
        ensures { result ≡ has_key_named name.now self.now }
    {
        self.names.contains(name)
    }

    /// The keys with one more behind them.
    ///
    /// # Errors
    /// Where there is no memory for the key or its name.
    pub(crate) fn with(mut self, alloc: Global, key: Key) -> Result<Self, AllocError>
        ensures { IfOk result (λ keys. keys ≡ self ++ key ∷ []) }
    {
        let name = String::from_str(alloc, key.attrs.name.as_str())?;
        self.names.insert(name)?;
        self.keys.push(key)?;
        Ok(self)
    }

    /// The keys alone.
    pub(crate) fn into_keys(self) -> Vec<Key>
        ensures { result.items ≡ self }
    {
        self.keys
    }
}
