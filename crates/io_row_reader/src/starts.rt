//! Where to begin to look for the stream of a line.
ghost use Rattle.std.specs.Prelude.{List, ℕ, Option};
ghost use Rattle.io_row_reader.specs.Indexed.{LeadToOpen};

use crate::open_streams::OpenStreams;
use sql_text::Name;

/// For each byte the number of the first open stream whose name begins with it, or a number that no stream has. It is a hint: the name that it
/// leads to is compared before it counts, and a line that it leads nowhere is read as lines are in general. It leads to no stream that is
/// not open.
#[derive(Clone, Copy, Debug)]
pub struct Starts {
    pub(crate) numbers: [u8; 256],
}

impl Starts {
    /// Returns the hints where no stream is open.
    pub fn new() -> Starts
        ensures { (opened : Option (List ℕ)) → LeadToOpen result opened }
    {
        Starts {
            numbers: [u8::MAX; 256],
        }
    }

    /// Notes a stream of this name and number, where it is open.
    pub fn add(&mut self, name: &Name, number: u8, opened: &OpenStreams)
        ensures { LeadToOpen self.old opened.now → LeadToOpen self.new opened.now }
    {
        if !opened.opens(number) {
            return;
        }
        if let Some(first) = name.bytes().first() {
            let place = usize::from(*first);
            self.numbers[place] = self.numbers[place].min(number);
        }
    }
}
