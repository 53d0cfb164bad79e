//! Lines within a piece.
ghost use Rattle.std.specs.Prelude.{◌≡◌, ◌≤◌, ◌++◌, ◌∷◌, MatchOption, length};
ghost use Rattle.reo_values.specs.Bytes.{line_feed};
ghost use Rattle.reo_live.specs.base.Hearing.{without_return};
ghost use Rattle.reo_live.specs.talk.Feeds.{HasNoFeed, IsCut};

/// A line and what follows it.
#[derive(Clone, Copy)]
pub(crate) struct Cut<'a> {
    pub line: &'a [u8],
    pub rest: &'a [u8],
}

/// The bytes before the first line feed and those behind it, if there is one.
pub(crate) fn cut_line(bytes: &[u8]) -> Option<Cut<'_>>
    ensures { MatchOption result (HasNoFeed bytes.now)
        (λ cut. IsCut bytes.now cut.line.now cut.rest.now) }
{
    for index in 0..bytes.len() {
        if bytes[index] == b'\n' {
            return Some(Cut {
                line: &bytes[..index],
                rest: &bytes[index + 1..],
            });
        }
    }
    None
}

/// The bytes without a carriage return at their end.
pub(crate) fn without_return(bytes: &[u8]) -> &[u8]
    ensures cleaned { result.now ≡ without_return bytes.now }
    ensures shorter { length result.now ≤ length bytes.now }
{
    let length = bytes.len();
    if length == 0 {
        return bytes;
    }
    if bytes[length - 1] != b'\r' {
        return bytes;
    }
    &bytes[..length - 1]
}
