//! Escapes in the text of an id: `%` and two digits.
ghost use Rattle.std.specs.Prelude.{◌≡◌};
ghost use Rattle.tk_ids.specs.Reading.{byte_of};
ghost use Rattle.tk_ids.specs.IdText.{digits_of};

/// What was read of an escape: nothing, its `%`, or its `%` and one digit.
#[derive(Clone, Copy)]
pub(crate) enum Escape {
    Plain,
    Percent,
    Digit(u8),
}

/// The byte that two digits stand for.
pub(crate) fn byte_of_digits(first: u8, second: u8) -> Option<u8>
    ensures { result ≡ byte_of first second }
{
    match (first, second) {
        (b'2', b'5') => Some(b'%'),
        (b'2', b'B') => Some(b'+'),
        (b'2', b'F') => Some(b'/'),
        (b'3', b'A') => Some(b':'),
        (b'5', b'B') => Some(b'['),
        (b'5', b'D') => Some(b']'),
        _ => None,
    }
}

/// The two digits with which a byte is escaped, where it is.
#[inline(always)]
pub(crate) fn digits_of_byte(byte: u8) -> Option<(u8, u8)>
    ensures { result ≡ digits_of byte }
{
    match byte {
        b'%' => Some((b'2', b'5')),
        b'+' => Some((b'2', b'B')),
        b'[' => Some((b'5', b'B')),
        b']' => Some((b'5', b'D')),
        b':' => Some((b'3', b'A')),
        b'/' => Some((b'2', b'F')),
        _ => None,
    }
}
