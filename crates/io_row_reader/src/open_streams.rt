//! Which streams are open, by their numbers.
ghost use Rattle.std.specs.Prelude.{◌≡◌, ◌∷◌, [], ◌++◌, ◌<◌, ◌≤◌, filter, length, not, is_some, IfSome, None, Some};
ghost use Rattle.std.specs.List.{list_any};
ghost use Rattle.std.specs.Option.{option_map};
ghost use Rattle.std.specs.Prelude as prelude;
ghost use Rattle.io_row_reader.specs.Open as opening;

use std::marker::Model;

/// At most 16 numbers of streams, in a list.
#[derive(Drop)]
pub(crate) struct StreamNumbers {
    entries: [u8; 16],
    count: usize,
}

impl Model for StreamNumbers {
    ghost use Rattle.std.specs.Prelude.{take, ◌≤◌, List, ℕ};

    ghost Value = { List ℕ };

    ghost view = { λ numbers. take numbers.count numbers.entries };

    ghost invariant = { λ numbers. numbers.count ≤ 16 };
}

impl StreamNumbers {
    /// Returns an empty list.
    pub(crate) fn new() -> StreamNumbers
        ensures { result ≡ [] }
    {
        StreamNumbers {
            entries: [0; 16],
            count: 0,
        }
    }

    /// Returns the same list.
    pub(crate) fn copied(&self) -> StreamNumbers
        ensures { result ≡ self.now }
    {
        StreamNumbers {
            entries: self.entries,
            count: self.count,
        }
    }

    /// Returns the numbers.
    pub(crate) fn as_slice(&self) -> &[u8]
        ensures value { result.now ≡ self.now }
        ensures few { length result.now ≤ 16 }
    {
        &self.entries[..self.count]
    }

    /// Puts a number behind the others.
    pub(crate) fn push(&mut self, stream: u8)
        requires { length self.old < 16 }
        ensures { self.new ≡ self.old ++ stream ∷ [] }
    {
        self.entries[self.count] = stream;
        self.count += 1;
    }

    /// Returns whether a number is in the list.
    pub(crate) fn has(&self, stream: u8) -> bool
        ensures { result ≡ list_any (prelude.nat_eq stream) self.now }
    {
        self.as_slice().iter().any(|number| stream == *number)
    }

    /// Returns those of the numbers that are open by others too.
    pub(crate) fn open_by(&self, others: &OpenStreams) -> StreamNumbers
        ensures { result ≡ filter (opening.is_open others.now) self.now }
    {
        let mut both = StreamNumbers::new();
        for number in self.as_slice() {
            if others.opens(*number) {
                both.push(*number);
            }
        }
        both
    }
}

/// The streams whose rows are let, by their numbers: all, or at most 16 of them.
#[derive(Drop)]
pub struct OpenStreams {
    only: Option<StreamNumbers>,
}

impl Model for OpenStreams {
    ghost use Rattle.std.specs.Prelude.{Option, List, ℕ};

    ghost Value = { Option (List ℕ) };

    ghost view = { λ streams. streams.only };
}

impl OpenStreams {
    /// Returns all streams.
    pub fn all() -> OpenStreams
        ensures { result ≡ None }
    {
        OpenStreams { only: None }
    }

    /// Returns no stream.
    pub fn none() -> OpenStreams
        ensures { result ≡ Some [] }
    {
        OpenStreams {
            only: Some(StreamNumbers::new()),
        }
    }

    /// Returns the same streams.
    pub fn copied(&self) -> OpenStreams
        ensures { result ≡ self.now }
    {
        match &self.only {
            None => OpenStreams::all(),
            Some(numbers) => OpenStreams {
                only: Some(numbers.copied()),
            },
        }
    }

    /// Opens the stream of a number too.
    pub fn add(&mut self, stream: u8)
        requires { IfSome self.old (λ numbers. length numbers < 16) }
        ensures { self.new ≡ option_map (λ numbers. numbers ++ stream ∷ []) self.old }
    {
        if let Some(numbers) = &mut self.only {
            numbers.push(stream);
        }
    }

    /// Returns whether all streams are open.
    pub fn are_all(&self) -> bool
        ensures { result ≡ not (is_some self.now) }
    {
        self.only.is_none()
    }

    /// Returns whether the stream of a number is open.
    #[inline(always)]
    pub fn opens(&self, stream: u8) -> bool
        ensures { result ≡ opening.is_open self.now stream }
    {
        match &self.only {
            None => true,
            Some(numbers) => numbers.has(stream),
        }
    }

    /// Returns the streams that are open by these and by others.
    pub fn meet(&self, others: &OpenStreams) -> OpenStreams
        ensures { result ≡ opening.open_by_both self.now others.now }
    {
        match &self.only {
            None => others.copied(),
            Some(numbers) => OpenStreams {
                only: Some(numbers.open_by(others)),
            },
        }
    }
}
