//! The mode of a socket's file.
ghost use Rattle.std.specs.Option.{SomeIff};
ghost use Rattle.std.specs.Str.Parse.{digits_value};
ghost use Rattle.lost_sockets.specs.Mode.{IsMode};

/// The most digits of a mode.
const MAX_DIGITS: usize = 4;

/// The mode that gives everybody every right.
const MAX_MODE: u32 = 0o777;

/// The mode in a text of one to four octal digits, up to 0777, as `0600` or `660`. `None` for any other text.
pub fn mode_of(text: &str) -> Option<u32>
    ensures { SomeIff result (IsMode text.now) (digits_value 8 text.now) }
{
    if text.len() > MAX_DIGITS || text.starts_with('+') {
        return None;
    }
    match u32::from_str_radix(text, 8) {
        Ok(mode) if mode <= MAX_MODE => Some(mode),
        _ => None,
    }
}
