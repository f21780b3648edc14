//! Decides whether a sector must be written, and whether it must be erased first.

ghost use Rattle.std.specs.Prelude.{◌≡◌, ℕ, true, length, MatchBool};
ghost use Rattle.nor_plan.specs.Bytes.{AllAgree, SomeDiffer, NoneRises, SomeRise};
ghost use Rattle.nor_plan.specs.Plan.{AreBytesOf, IsPlan};

use crate::lanes::{differs, raises};

/// The planner for single sectors. It has no fields: call `Plan::of`.
#[derive(Clone, Copy, Debug)]
pub struct Plan;

/// The plan of a sector: whether the sector must be written, and whether it must be erased first.
#[derive(Clone, Copy, Debug, PartialEq, Eq)]
pub struct SectorPlan {
    /// Whether some byte differs from the target, so that the sector must be written.
    pub touched: bool,
    /// Whether some bit must go from 0 to 1, so that the sector must be erased first.
    pub raised: bool,
}

impl Plan {
    /// Returns the plan of a sector with the bytes `old` that must get the bytes `target`. The lengths must be equal.
    #[tactic(auto, using(crate::proofs::Agreement::agreed_NoneRises, crate::proofs::Plans::plan_anywhere))]
    pub fn of(old: &[u8], target: &[u8]) -> SectorPlan
        requires { length old.now ≡ length target.now }
        ensures touched { MatchBool result.touched (SomeDiffer old.now target.now) (AllAgree old.now target.now) }
        ensures raised { MatchBool result.raised (SomeRise old.now target.now) (NoneRises old.now target.now) }
        ensures needed { result.raised ≡ true → result.touched ≡ true }
        ensures anywhere { (content wanted : ℕ → ℕ) → AreBytesOf content old.now → AreBytesOf wanted target.now
            → IsPlan content wanted (length old.now) result }
    {
        let touched = differs(old, target);
        let raised = touched && raises(old, target);
        SectorPlan { touched, raised }
    }
}
