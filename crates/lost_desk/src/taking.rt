//! A thing that is taken out of where it is kept, and put back.
ghost use Rattle.std.specs.Prelude.{◌≡◌, Some, None, IsSome};

/// Takes a thing out of where it is kept.
pub(crate) fn take_out<T>(kept: &mut Option<T>) -> T
    requires { IsSome kept.old }
    ensures taken { kept.old ≡ Some result }
    ensures left { kept.new ≡ None }
{
    match kept.take() {
        Some(thing) => thing,
        None => unreachable!(),
    }
}

/// Puts a thing back where it is kept.
pub(crate) fn put_back<T>(kept: &mut Option<T>, thing: T)
    requires { kept.old ≡ None }
    ensures { kept.new ≡ Some thing }
{
    match kept.replace(thing) {
        None => {}
        Some(_) => unreachable!(),
    }
}
