//! The streams and the live queries that the lines of a script have made.
ghost use Rattle.std.specs.Prelude.{◌≡◌, ◌<◌, ◌≤◌, ◌-◌, ◌^◌, ◌++◌, ◌∷◌, [], All, IfOk, OnOk, OnErr, length};
ghost use Rattle.std.specs.List.{position};
ghost use Rattle.std.specs.Str.{bytes_eq};
ghost use Rattle.sql_catalog.specs.Streams.{HasEnds};
ghost use Rattle.adv_key_choices.specs.Choices.{IsKeyed};
ghost use Rattle.cmd_advise_split.specs.Limited.{IsLimited, IsKnown};
ghost use Rattle.cmd_advise_split.specs.State.{empty, one_line_more, stopped, one_stream_more, one_query_more, one_query_less};

use adv_key_choices::KeyedQuery;
use sql_catalog::{Catalog, ColumnDef};
use sql_replies::Refusal;
use sql_text::Name;
use std::alloc::{AllocError, Global};
use std::marker::Model;

/// The first line that is refused, by its number from 1, and the word.
#[derive(Clone, Copy, Debug, PartialEq, Eq)]
pub struct Stop {
    pub line: u64,
    pub word: Refusal,
}

/// What the lines so far have made: the streams, and the live queries by their names, each with the classes of its columns and the limit that refuses
/// it; and the first line that is refused, if one is.
#[derive(Drop)]
pub struct Splitting {
    catalog: Catalog,
    names: Vec<Name>,
    queries: Vec<KeyedQuery>,
    lines: u64,
    stop: Option<Stop>,
}

impl Model for Splitting {
    ghost use Rattle.std.specs.Prelude.{◌≡◌, All, length};
    ghost use Rattle.cmd_advise_split.specs.Limited.{IsKnown};
    ghost use Rattle.cmd_advise_split.specs.State.{State};

    ghost Value = { State };

    ghost view = { λ s. record { streams = s.catalog; names = s.names.items; queries = s.queries.items; lines = s.lines; stop = s.stop } };

    ghost invariant = { λ s. (length s.names.items ≡ length s.queries.items) × All IsKnown s.queries.items };
}

// The place of the first name that is this one.
fn place_of(names: &[Name], name: &Name) -> Option<usize>
    ensures { result ≡ position (λ other. bytes_eq other name.now) names.now }
{
    names.iter().position(|other| *other == *name)
}

// Puts a query behind others. Where no memory is found the list stays as it is.
fn push_query(list: &mut Vec<KeyedQuery>, keyed: KeyedQuery) -> Result<(), AllocError>
    ensures pushed { OnOk result (list.new.items ≡ list.old.items ++ keyed ∷ []) }
    ensures same { OnErr result (list.new.items ≡ list.old.items) }
{
    match list.push(keyed) {
        Ok(()) => Ok(()),
        Err(_) => Err(AllocError),
    }
}

impl Splitting {
    /// Returns what no line has made.
    pub fn new(alloc: Global) -> Result<Splitting, AllocError>
        ensures { IfOk result (λ s. s ≡ empty) }
    {
        Ok(Splitting {
            catalog: Catalog::new(alloc)?,
            names: Vec::new(alloc),
            queries: Vec::new(alloc),
            lines: 0,
            stop: None,
        })
    }

    /// Returns the streams.
    pub fn catalog(&self) -> &Catalog
        ensures { result.now ≡ self.now.streams }
    {
        &self.catalog
    }

    /// Returns the names of the live queries.
    pub fn names(&self) -> &[Name]
        ensures { result.now ≡ self.now.names }
    {
        self.names.as_slice()
    }

    /// Returns the live queries, each with the classes of its columns and the limit that refuses it.
    pub fn queries(&self) -> &[KeyedQuery]
        ensures queries { result.now ≡ self.now.queries }
        ensures keyed { All IsKeyed result.now }
        ensures limited { All IsLimited result.now }
    {
        self.queries.as_slice()
    }

    /// Returns the first line that is refused, if one is.
    pub fn stop(&self) -> Option<Stop>
        ensures { result ≡ self.now.stop }
    {
        self.stop
    }

    /// Counts a line.
    pub fn count_line(&mut self)
        requires { self.old.lines < 2 ^ 64 - 1 }
        ensures { self.new ≡ one_line_more self.old }
    {
        self.lines += 1;
    }

    /// Counts a line that is refused by this word, and is the first.
    pub fn stop_at(&mut self, word: Refusal)
        requires { self.old.lines < 2 ^ 64 - 1 }
        ensures { self.new ≡ stopped self.old word }
    {
        self.lines += 1;
        self.stop = Some(Stop {
            line: self.lines,
            word,
        });
    }

    /// Adds a stream with 1 to 8 columns behind the others, where it can be added, and counts its line.
    pub fn add_stream(&mut self, name: Name, columns: &[ColumnDef])
        requires lines { self.old.lines < 2 ^ 64 - 1 }
        requires some { 0 < length columns.now }
        requires few { length columns.now ≤ 8 }
        requires domains { All (λ c. HasEnds c.domain) columns.now }
        ensures { self.new ≡ one_stream_more self.old (record { name = name; columns = columns.now }) }
    {
        // Where it cannot be added the catalog stays as it is, which is what the state says too.
        let _number = self.catalog.add_stream(name, columns);
        self.lines += 1;
    }

    /// Takes a query among the live ones, behind the others, and counts its line.
    #[tactic(auto, using(crate::proofs::Known::known_more))]
    pub fn add_query(&mut self, name: Name, keyed: KeyedQuery) -> Result<(), AllocError>
        requires lines { self.old.lines < 2 ^ 64 - 1 }
        requires known { IsKnown keyed }
        ensures { OnOk result (self.new ≡ one_query_more self.old name keyed) }
    {
        if self.names.push(name).is_err() {
            return Err(AllocError);
        }
        match push_query(&mut self.queries, keyed) {
            Ok(()) => {
                self.lines += 1;
                Ok(())
            }
            Err(fault) => {
                // The two lists stay as long as each other.
                self.names.pop();
                Err(fault)
            }
        }
    }

    /// Takes the first live query of a name out of the live ones, where there is one, and counts the line.
    pub fn drop_query(&mut self, name: &Name)
        requires { self.old.lines < 2 ^ 64 - 1 }
        ensures { self.new ≡ one_query_less self.old name.now }
    {
        if let Some(place) = place_of(self.names.as_slice(), name) {
            self.names.remove(place);
            self.queries.remove(place);
        }
        self.lines += 1;
    }
}
