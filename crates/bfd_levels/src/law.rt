//! What calls do to the potential, and how many steps they may take in the long run.
ghost use Rattle.std.specs.Prelude.{ℕ, ◌+◌, ◌*◌, ◌≤◌, List, Option, None, Some, replicate, slice_set};
ghost use Rattle.bfd_levels.specs.Height.{Clocked, potential_of};
ghost use Rattle.bfd_levels.specs.Calls.{WheelCall, Advance, Clear, Set, Made, wheel_after, after_all, steps_of, shares, KeepsAll};

/// Laws, and no work: a due tick that is set adds at most 9 to the potential, and no other call adds to it. So the
/// steps of any list of calls, each of which keeps its own contract, on a wheel that was just made, are at most 11 for
/// each `set`, 1 for each `clear`, 5 for each advance, and 2 for each tick that the clock has gone forward.
#[tactic(auto, using(crate::proofs::Potentials::set_adds, crate::proofs::Potentials::clear_falls, crate::proofs::Potentials::advance_falls, crate::proofs::Potentials::all_calls))]
pub fn call_laws()
    ensures set { (w : Clocked) (id due : ℕ) → potential_of (wheel_after (Set id due) w) ≤ potential_of w + 9 }
    ensures clear { (w : Clocked) (id : ℕ) → potential_of (wheel_after (Clear id) w) ≤ potential_of w }
    ensures advance { (w : Clocked) (t : ℕ) → potential_of (wheel_after (Advance t) w) ≤ potential_of w }
    ensures calls { (count : ℕ) (ms : List Made)
        → KeepsAll (record { clock = 0; dues = replicate count None }) ms
        → steps_of ms ≤ shares ms
        + 2 * (after_all ms (record { clock = 0; dues = replicate count None })).clock }
{}
