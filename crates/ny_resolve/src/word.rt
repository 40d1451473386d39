ghost use Rattle.std.specs.Prelude.{◌≡◌, bytes_eq};
ghost use Rattle.std.specs.Cmp.Rules.{comparing, hashing};
ghost use Rattle.std.specs.Hash as fed;
ghost use Rattle.std.proofs.Common.{rules};

use ny_scope::Key;
use ny_syntax::Name;
use std::hash::{Hash, Hasher};
use std::marker::Model;

/// A name of the text, by its bytes.
#[derive(Drop)]
pub struct Word<'t> {
    bytes: &'t [u8],
}

impl<'t> Model for Word<'t> {
    ghost use Rattle.std.specs.Prelude.{List, ℕ};

    ghost Value = { List ℕ };

    ghost view = { λ w. w.bytes.now };
}

impl<'t> PartialEq for Word<'t> {
    ghost eq = { λ x y. bytes_eq x y };

    ghost laws = { Prim.search (comparing, rules) };

    fn eq(&self, other: &Word<'t>) -> bool {
        self.bytes == other.bytes
    }
}

impl<'t> Eq for Word<'t> {
    ghost laws = { Prim.search (comparing, rules) };
}

impl<'t> Hash for Word<'t> {
    ghost hash_input = { λ w. fed.slice fed.u8 w };

    ghost respects_eq = { Prim.search (hashing, rules) };

    fn hash<H: Hasher>(&self, state: &mut H) {
        self.bytes.hash(state);
    }
}

impl<'t> Key for Word<'t> {
    fn copied(&self) -> Word<'t> {
        Word { bytes: self.bytes }
    }
}

impl<'t> Word<'t> {
    /// The word that a name is.
    pub fn of(name: &'t Name) -> Word<'t>
        ensures { result ≡ name.now.bytes }
    {
        Word {
            bytes: name.bytes.as_slice(),
        }
    }
}
