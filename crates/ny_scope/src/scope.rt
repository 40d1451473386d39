ghost use Rattle.std.specs.Prelude.{◌≡◌, ◌≤◌, ◌+◌, ◌-◌, ◌<◌, [], ◌∷◌, ◌++◌, length, take, OnOk, OnErr};
ghost use Rattle.ny_scope.specs.Scopes.{last_of};

use crate::key::Key;
use indexmap::IndexMap;
use std::alloc::{AllocError, Global};
use std::hash::Hash;
use std::marker::Model;

/// A key that is bound to a value, and what it was bound to before.
#[derive(Drop)]
struct Binding<K, V> {
    key: K,
    value: V,
    earlier: Option<V>,
}

/// Keys bound to values, one after another, seen as the list of these pairs. The last pair of a key counts.
///
/// Binding, looking up, and leaving one binding take constant time (amortised), however many there are.
#[derive(Drop)]
pub struct Scope<K: Eq + Hash, V> {
    bindings: Vec<Binding<K, V>>,
    // what each key that was ever bound is bound to now
    nearest: IndexMap<K, Option<V>>,
}

impl<K: Eq + Hash, V> Model for Scope<K, V> {
    ghost use Rattle.std.specs.Prelude.{List};
    ghost use Rattle.std.specs.Coded.{coded_list, coded×};

    ghost Value = { List (K × V) };

    ghost coded = { coded_list (coded× K.code V.code) };

    ghost use Rattle.ny_scope.specs.Indexed.{pairs_of, IsIndexed};

    ghost view = { λ s. pairs_of s.bindings.items };

    ghost invariant = { λ s. IsIndexed K.eq s.nearest.entries s.bindings.items };
}

impl<K: Key, V: Copy> Scope<K, V> {
    /// A scope that binds nothing.
    pub fn new(alloc: Global) -> Scope<K, V>
        ensures { result ≡ [] }
    {
        Scope {
            bindings: Vec::new(alloc),
            nearest: IndexMap::new(alloc),
        }
    }

    /// How many pairs there are.
    pub fn len(&self) -> usize
        ensures { result ≡ length self.now }
    {
        self.bindings.len()
    }

    /// What a key is bound to: the value of its last pair.
    #[tactic(auto, using(crate::proofs::Pairs::last_of_pairs))]
    pub fn find(&self, key: &K) -> Option<V>
        ensures { result ≡ last_of (K.eq key.now) self.now }
    {
        match self.nearest.get(key) {
            Some(value) => *value,
            None => None,
        }
    }

    /// Binds a key to a value from here on.
    ///
    /// # Errors
    /// `AllocError` where memory is missing, and then all is as before.
    pub fn bind(&mut self, key: K, value: V) -> Result<(), AllocError>
        ensures bound { OnOk result (self.new ≡ self.old ++ (key, value) ∷ []) }
        ensures refused { OnErr result (self.new ≡ self.old) }
    {
        self.bindings.reserve(1)?;
        let earlier = self.nearest.insert(key.copied(), Some(value))?;
        self.bindings
            .push(Binding {
                key,
                value,
                earlier: earlier.flatten(),
            })
            .unwrap();
        Ok(())
    }

    /// Undoes the last binding.
    fn unbind(&mut self)
        requires { 0 < length self.old }
        ensures { self.new ≡ take (length self.old - 1) self.old }
    {
        if let Some(last) = self.bindings.pop() {
            self.nearest.insert(last.key, last.earlier).unwrap();
        }
    }

    /// Undoes all bindings but the first `len`.
    pub fn leave(&mut self, len: usize)
        ensures { self.new ≡ take len self.old }
    {
        while len < self.len() {
            self.unbind();
        }
    }
}
