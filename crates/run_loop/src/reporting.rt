//! What is reported of a run's steps.

ghost use Rattle.std.specs.Prelude.{ℕ, Bool, OnErr, OnOk};
ghost use Rattle.joint_feed.specs.Stories.{Story};
ghost use Rattle.run_loop.specs.declared.ending.Ending.{Ending};
ghost use Rattle.run_loop.specs.Advance.{IsAtReport};

use joint_feed::Course;

/// What is done with a run's steps: something of type `O` is reported of them, which can fail with an `E`.
pub trait Reporter<O, E> {
    /// Whether it samples the wires, and so has something to report of each step that changes one.
    ghost WIRES: { Bool };

    /// All is reported of a run's first k steps, to what was so before the first of them.
    ghost has_reported: { Ending → Story → O → ℕ → Self → O → Type 0 };

    /// The report broke off in what the step after the first k says.
    ghost is_broken: { Ending → Story → O → ℕ → O → Type 0 };

    /// Whether it samples the wires.
    const WIRES: bool;

    /// Reports the step that the course is after. Of those before it back to step k there is nothing to be reported.
    fn report(&mut self, out: &mut O, course: &Course) -> Result<(), E>
        requires reported { (e : Ending) × (s : Story) × (first : O) × (k : ℕ) × IsAtReport e WIRES s k course.now
            × has_reported e s first k self.old out.old }
        ensures reported { (e : Ending) (s : Story) (first : O) (k : ℕ) → IsAtReport e WIRES s k course.now
            → has_reported e s first k self.old out.old
            → OnOk result (has_reported e s first course.now.joint.steps self.new out.new) }
        ensures broken { (e : Ending) (s : Story) (first : O) (k : ℕ) (b : IsAtReport e WIRES s k course.now)
            → has_reported e s first k self.old out.old → OnErr result (is_broken e s first b.last out.new) };
}
