//! Who is asked for values, and told of plans.

ghost use Rattle.std.specs.Prelude.{◌≡◌, ℕ, ◌≤◌, min, Bool, true, Option, Some, None, ◌↔◌};
ghost use Rattle.std.specs.Option.{ForSome};
ghost use Rattle.ec_loads.specs.Cost.{plan_items, IsBusiest};
ghost use Rattle.ec_loads.specs.Legal.{IsLegal};
ghost use Rattle.ec_loads.specs.Search.{IsAtMost};
ghost use Rattle.ec_branch.specs.Frames.{Frame};

use ec_loads::Plan;

/// A source of values for an exploration, which is told each better plan. A value is the cost of a busiest tick in
/// wire bytes. Its units and its floor, a number, stay as they are; no value that it answers is below the floor,
/// unless it was told a plan of that cost. What it knows is the value that it answered last; that only falls, by the
/// plans that it is told or by what others find.
pub trait Guide {
    ghost frame: { Self → Frame };

    ghost halted: { Self → Bool };

    ghost known: { Self → Option ℕ };

    /// The value that is known now, asked before each node; none where no plan is known.
    fn bound(&mut self) -> Option<u64>
        ensures frame { frame self.new ≡ frame self.old }
        ensures halted { halted self.new ≡ halted self.old }
        ensures value { ForSome result (λ b. (frame self.old).floor ≤ b) }
        ensures known { known self.new ≡ result }
        ensures falls { IsAtMost result (known self.old) };

    /// Takes a legal plan and the cost of its busiest tick, and answers the value from then on; none stops the
    /// exploration.
    fn found(&mut self, plan: &Plan, cost: u64) -> Option<u64>
        requires legal { IsLegal (frame self.old).loads (frame self.old).slots plan.now.places }
        requires busiest { IsBusiest (plan_items (frame self.old).loads plan.now.places) (frame self.old).slots cost }
        ensures frame { frame self.new ≡ frame self.old }
        ensures halted { (halted self.new ≡ true) ↔ (result ≡ None) }
        ensures value { ForSome result (λ b. (b ≤ cost) × (min cost (frame self.old).floor ≤ b)) }
        ensures known { ForSome result (λ b. known self.new ≡ Some b) }
        ensures kept { result ≡ None → known self.new ≡ known self.old };

    /// Whether the exploration is to stop.
    fn stopped(&self) -> bool
        ensures { result ≡ halted self.now };
}
