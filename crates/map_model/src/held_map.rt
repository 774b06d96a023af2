ghost use Rattle.std.specs.Prelude.{◌≡◌, is_none, OnOk};
ghost use Rattle.map_model.specs.Held.{map_of};
ghost use Rattle.map_model.specs.Map.{empty_map, has_value, with_key, without_key};

use std::alloc::{AllocError, Global};
use std::collections::BTreeMap;

/// A map whose keys and values are borrowed from those who call for them.
#[derive(Drop)]
pub struct HeldMap<'a> {
    values: BTreeMap<&'a [u8], &'a [u8]>,
}

impl<'a> HeldMap<'a> {
    /// The empty map.
    pub fn new(alloc: Global) -> HeldMap<'a>
        ensures { map_of result ≡ empty_map }
    {
        HeldMap {
            values: BTreeMap::new(alloc),
        }
    }

    /// Whether this value is at the key.
    pub fn has(&self, key: &[u8], value: &[u8]) -> bool
        ensures { result ≡ has_value (map_of self.now) key.now value.now }
    {
        match self.values.get(key) {
            Some(there) => *there == value,
            None => false,
        }
    }

    /// Whether nothing is at the key.
    pub fn lacks(&self, key: &[u8]) -> bool
        ensures { result ≡ is_none (map_of self.now key.now) }
    {
        self.values.get(key).is_none()
    }

    pub fn put(&mut self, key: &'a [u8], value: &'a [u8]) -> Result<(), AllocError>
        ensures { OnOk result (map_of self.new ≡ with_key (map_of self.old) key.entry.now value.entry.now) }
    {
        self.values.insert(key, value)?;
        Ok(())
    }

    pub fn remove(&mut self, key: &[u8])
        ensures { map_of self.new ≡ without_key (map_of self.old) key.now }
    {
        self.values.remove(key);
    }
}
