ghost use Rattle.std.specs.Prelude.{◌≡◌, ℕ, ◌+◌, ◌<◌, ◌≤◌, length, map};
ghost use Rattle.std.specs.List.{range_with_len};
ghost use Rattle.ny_units.specs.LeafKinds.{leaf_kind};
ghost use Rattle.ny_units.specs.Playing.{leaf_value, IsLeaf, Reaches};

use crate::leaves::{Leaf, LeafKind};
use crate::voice::Voice;
use ny_num::Sample;
use ny_wave::Waves;
use std::marker::Model;

/// A leaf that is heard, slice by slice: each fill goes on where the last one ended
/// (`docs/DEFINITIONS.md`, "Units").
#[derive(Drop)]
pub struct LeafUnit {
    voice: Voice,
    given: u64,
}

// A unit is seen as its leaf, and how many samples it has given.
impl Model for LeafUnit {
    ghost use Rattle.ny_units.specs.Playing.{Playing};

    ghost Value = { Playing };

    ghost use Rattle.ny_units.specs.Voices.{leaf_of, IsVoice};

    ghost view = { λ u. record { leaf = leaf_of u.voice; given = u.given } };

    ghost invariant = { λ u. IsVoice u.voice u.given };
}

impl LeafUnit {
    /// The unit of a leaf, of which nothing has been given yet. A ramp's length is at least 1, and
    /// an envelope begins with a knot at 0.
    pub fn of(leaf: Leaf) -> LeafUnit
        requires { IsLeaf leaf }
        ensures { result ≡ record { leaf = leaf; given = 0 } }
    {
        LeafUnit {
            voice: Voice::of(leaf),
            given: 0,
        }
    }

    /// What its leaf is.
    pub fn kind(&self) -> LeafKind
        ensures { result ≡ leaf_kind self.now.leaf }
    {
        self.voice.kind()
    }

    /// Writes the samples from `from` on, as many as `out` has places; `from` is where the last
    /// fill ended. They don't end past a ramp's length or an envelope's last knot.
    pub fn fill(&mut self, waves: &Waves, from: u32, out: &mut [Sample])
        requires next { from ≡ self.old.given }
        requires within { Reaches self.old.leaf (from + length out.old) }
        ensures leaf { self.new.leaf ≡ self.old.leaf }
        ensures given { self.new.given ≡ from + length out.old }
        ensures samples { out.new ≡ map (leaf_value self.old.leaf) (range_with_len from (length out.old)) }
    {
        self.voice.fill(waves, from, out);
        self.given += out.len() as u64;
    }
}
