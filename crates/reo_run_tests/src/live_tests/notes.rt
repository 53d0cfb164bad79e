//! A source and a sink that note their calls in one list.
ghost use Rattle.std.specs.Prelude.{◌≡◌, ◌<◌, ◌≤◌, length, IfOk, None};
ghost use Rattle.reo_io.specs.Causes.{HasCause};
ghost use Rattle.reo_io.specs.Given.{bytes_given, empties_given, ends_after, taken_after};
ghost use Rattle.reo_io.specs.Sinks.{Puts};
ghost use Rattle.reo_io.specs.Sources.{Takes};

use reo_io::{GivenBytes, Sink, SinkFault, Source, SourceFault};
use reo_values::Bytes;
use std::cell::RefCell;

/// Notes a call; where there is no memory for it, it is missing.
fn note(notes: &RefCell<Bytes>, call: &[u8]) {
    if let Ok(mut list) = notes.try_borrow_mut() {
        let _noted = list.append(call);
    }
}

/// The bytes up to the first line feed, with it.
fn first_line(bytes: &[u8]) -> &[u8]
    ensures { length result.now ≤ length bytes.now }
{
    for index in 0..bytes.len() {
        if bytes[index] == b'\n' {
            return &bytes[..index + 1];
        }
    }
    bytes
}

/// A source that gives a line a take. At a line that begins with `!` the take fails. Each take is
/// noted as `take`.
#[derive(Drop)]
pub struct NotingSource<'a> {
    left: &'a [u8],
    faults: u64,
    given: GivenBytes,
    notes: &'a RefCell<Bytes>,
}

impl<'a> NotingSource<'a> {
    pub fn new(bytes: &'a [u8], notes: &'a RefCell<Bytes>) -> Self {
        NotingSource {
            left: bytes,
            faults: 0,
            given: GivenBytes::new(),
            notes,
        }
    }
}

impl Source for NotingSource<'_> {
    ghost told = { λ _. None };

    ghost given = { λ source. bytes_given source.given };

    ghost ends = { λ source. empties_given source.given };

    ghost faults = { λ source. source.faults };

    fn take(&mut self, room: &mut [u8]) -> Result<usize, SourceFault>
        requires { 0 < length room.old }
        ensures bound { IfOk result (λ count. count ≤ length room.new) }
        ensures bytes { Takes None None room.new result }
        ensures given { bytes_given self.new.given ≡ taken_after
            (bytes_given self.old.given) room.new result }
        ensures ended { empties_given self.new.given ≡ ends_after
            (empties_given self.old.given) room.new result }
        ensures cause { HasCause self.old.faults self.new.faults result }
    {
        note(self.notes, b"take\n");
        if self.left.starts_with(b"!") {
            self.faults = self.faults.saturating_add(1);
            return Err(SourceFault::Failed);
        }
        let count = first_line(self.left).len().min(room.len());
        let (line, left) = self.left.split_at(count);
        room[..count].copy_from_slice(line);
        self.left = left;
        self.given = self.given.then(&room[..count]);
        Ok(count)
    }
}

/// A sink that takes each piece whole and notes it.
#[derive(Drop)]
pub struct NotingSink<'a> {
    notes: &'a RefCell<Bytes>,
}

impl<'a> NotingSink<'a> {
    pub fn new(notes: &'a RefCell<Bytes>) -> Self {
        NotingSink { notes }
    }
}

impl Sink for NotingSink<'_> {
    ghost told = { λ _. None };

    ghost faults = { λ _. 0 };

    fn put(&mut self, piece: &[u8]) -> Result<usize, SinkFault>
        requires { 0 < length piece.now }
        ensures bytes { Puts None None piece.now result }
        ensures cause { HasCause 0 0 result }
    {
        note(self.notes, piece);
        Ok(piece.len())
    }
}
