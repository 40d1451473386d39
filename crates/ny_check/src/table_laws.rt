ghost use Rattle.std.specs.Prelude.{ℕ, List, ◌<◌, length};
ghost use Rattle.ny_resolve.specs.declared.term.NameId.{NameId as Name};
ghost use Rattle.ny_check.specs.FreeNames.{DependsOnFree, ScalarDependsOnFree, HasFree, IsKeptBy};
ghost use Rattle.ny_check.specs.Heights.{IsTall, height_of};

use crate::program::Program;

impl Program {
    /// The laws of free names (`docs/DEFINITIONS.md`, "Free names").
    #[tactic(auto, using(crate::proofs::Picked::free_laws))]
    pub fn free_name_laws(&self)
        // A meaning depends on the free names of its expression alone.
        ensures depends { DependsOnFree self.now }

        // So does its number or test.
        ensures scalar { ScalarDependsOnFree self.now }

        // It is the same where what its free names stand for is all that is kept.
        ensures kept { (e : ℕ) (names : List Name) → e < length self.now.nodes → HasFree self.now e names → IsKeptBy self.now e names }
    {
        self.order_law();
    }

    /// The law of heights (`docs/DEFINITIONS.md`, "Heights"): the height of each expression leaves room for what
    /// its node makes.
    #[tactic(auto, using(crate::proofs::Tall::height_laws))]
    pub fn height_law(&self)
        ensures tall { IsTall self.now (height_of self.now) }
    {
        self.order_law();
    }
}
