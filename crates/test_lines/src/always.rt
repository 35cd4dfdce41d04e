//! The moment of every stream.
use lost_mapping::Moment;
use lost_worker::Moments;
use test_parts::Setting;

/// Gives the same moment each time.
#[derive(Drop)]
pub(crate) struct Always {
    moment: Moment,
}

impl Moments for Always {
    ghost use Rattle.std.specs.Prelude.{[]};

    ghost coming = { λ _. [] };

    fn now(&mut self) -> Moment {
        self.moment
    }
}

/// Gives the moment of every stream each time.
pub(crate) fn moments_of(setting: &Setting) -> Always {
    Always {
        moment: setting.moment,
    }
}
