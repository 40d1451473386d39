ghost use Rattle.std.specs.Prelude.{◌≡◌};

use std::hash::Hash;

/// What a name is looked up by. A copy of it is the same key.
pub trait Key: Eq + Hash + Drop {
    fn copied(&self) -> Self
        ensures { result ≡ self.now };
}
