//! Where in a record a byte comes.

ghost use Rattle.std.specs.Prelude.{◌≡◌, IsTrue, Some};
ghost use Rattle.csv_strict.specs.Strict.{bare, ends_text, next_state, start};

/// What was read of a record before a byte.
#[derive(Clone, Copy, PartialEq, Eq)]
pub enum State {
    /// Nothing.
    Record,
    /// A comma.
    Field,
    /// Some bytes of a field without quotes.
    Bare,
    /// A quote, and what comes after it.
    Quoted,
    /// The same, and another quote, which ends the field or is the first of two.
    Quote,
    /// The CR of a line's end.
    Return,
}

/// The state after a byte of a field without quotes.
#[inline(always)]
fn after_bare(byte: u8) -> Option<State>
    ensures { result ≡ bare byte }
{
    if byte == b'"' {
        None
    } else if byte == b',' {
        Some(State::Field)
    } else if byte == b'\r' {
        Some(State::Return)
    } else if byte == b'\n' {
        Some(State::Record)
    } else {
        Some(State::Bare)
    }
}

/// The state after the first byte of a field.
#[inline(always)]
fn after_start(byte: u8) -> Option<State>
    ensures { result ≡ start byte }
{
    if byte == b'"' {
        Some(State::Quoted)
    } else {
        after_bare(byte)
    }
}

impl State {
    /// Whether a byte may come here and leaves the state as it is, as far as can be told quickly: the bytes above the comma are letters, digits, `-` and
    /// others that mean nothing in a field.
    #[inline(always)]
    pub fn stays(self, byte: u8) -> bool
        ensures { IsTrue result → next_state self byte ≡ Some self }
    {
        byte > b',' && (self == State::Bare || self == State::Quoted)
    }

    /// The state after a byte, if the byte may come here.
    #[inline(always)]
    pub fn next(self, byte: u8) -> Option<State>
        ensures { result ≡ next_state self byte }
    {
        match self {
            State::Record => {
                if byte == b'\r' || byte == b'\n' {
                    None
                } else {
                    after_start(byte)
                }
            }
            State::Field => after_start(byte),
            State::Bare => after_bare(byte),
            State::Quoted => {
                if byte == b'"' {
                    Some(State::Quote)
                } else {
                    Some(State::Quoted)
                }
            }
            State::Quote => {
                if byte == b'"' {
                    Some(State::Quoted)
                } else {
                    match after_bare(byte) {
                        Some(State::Bare) => None,
                        after => after,
                    }
                }
            }
            State::Return => {
                if byte == b'\n' {
                    Some(State::Record)
                } else {
                    None
                }
            }
        }
    }

    /// Whether a text may end here.
    pub fn may_end(self) -> bool
        ensures { result ≡ ends_text self }
    {
        match self {
            State::Record | State::Field | State::Bare | State::Quote => true,
            State::Quoted | State::Return => false,
        }
    }
}
