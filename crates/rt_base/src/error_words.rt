//! The text of an error in an event.

ghost use Rattle.std.specs.Prelude.{◌≡◌, ◌≤◌, length, Some, None, IfSome, IfNone};
ghost use Rattle.rt_base.specs.ErrorText.{error_text};

use crate::error::Error;

/// Returns the text by which an event shows an error, and nothing where memory ran out. No text is longer than 17 bytes, so
/// room for it can be taken before the error is known.
pub fn error_text(error: &Error) -> Option<&'static str>
    ensures text { IfSome result (λ text. error_text error.now ≡ Some text.now) }
    ensures none { IfNone result (error_text error.now ≡ None) }
    ensures short { IfSome result (λ text. length text.now ≤ 17) }
{
    match error {
        Error::Closed => Some("closed"),
        Error::BindFailed => Some("bind failed"),
        Error::ConnectionFailed => Some("connection failed"),
        Error::SendFailed => Some("send failed"),
        Error::RecvFailed => Some("recv failed"),
        Error::PortsExhausted => Some("ports exhausted"),
        Error::ClockOverflow => Some("clock overflow"),
        Error::UnknownToken => Some("unknown token"),
        Error::NoMemory => None,
        _ => Some("other"),
    }
}
