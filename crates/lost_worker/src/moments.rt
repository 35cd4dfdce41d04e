//! The moments at which lines are answered.
ghost use Rattle.std.specs.Prelude.{List};
ghost use Rattle.lost_spec.specs.Moment.{Instant};
ghost use Rattle.lost_worker.specs.Moments.{Gives};

use lost_mapping::Moment;

/// Gives the moment of each line that is answered. Contracts see the moments that it will give, if it tells them; a
/// clock tells none.
pub trait Moments {
    /// The moments that it will give, if it tells them.
    ghost coming: { Self → List Instant };

    /// The next moment.
    fn now(&mut self) -> Moment
        ensures { Gives (coming self.old) result (coming self.new) };
}
