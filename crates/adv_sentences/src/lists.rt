//! Lists of names and of candidates, as they are written.
ghost use Rattle.std.specs.Prelude.{◌≡◌, option_copied};
ghost use Rattle.io_streams.specs.Sink.{Writes};
ghost use Rattle.adv_hints.specs.Candidates.{told_as as told};
ghost use Rattle.adv_sentences.specs.Sentences as sentences;
ghost use Rattle.adv_sentences.specs.Sentences.{listed, name_text, there_are, stream_names, next_text};

use adv_hints::{Candidate, told_as};
use adv_templates::{Filling, Written, write_filled};
use arrayvec::ArrayVec;
use io_streams::{Sink, write_all};
use sql_catalog::Catalog;
use sql_text::Name;

/// Writes names, the first behind a text and each other behind a comma and a space.
pub fn write_names<O: Sink>(out: &mut O, lead: &[u8], names: &[Name]) -> Written
    ensures { Writes result (O.seen out.old) (O.seen out.new) (listed name_text lead.now names.now) }
{
    match names {
        [] => Ok(()),
        [first, others @ ..] => {
            write_all(out, lead)?;
            write_all(out, first.bytes())?;
            write_names(out, b", ", others)
        }
    }
}

// Which names there are, or that there is none.
fn write_there_are<O: Sink>(out: &mut O, names: &[Name]) -> Written
    ensures { Writes result (O.seen out.old) (O.seen out.new) (there_are names.now) }
{
    if names.is_empty() {
        write_all(out, b"there is none")
    } else {
        write_names(out, b"there are: ", names)
    }
}

// The first name that is the word but for the case of letters.
fn alike<'a>(word: &[u8], names: &'a [Name]) -> Option<&'a Name>
    ensures { option_copied result ≡ sentences.alike word.now names.now }
{
    names
        .iter()
        .find(|name| name.bytes().eq_ignore_ascii_case(word))
}

/// Writes which names there are, or that there is none, and the one that a word may mean.
#[tactic(auto, using(crate::proofs::Writers::writes_after, crate::proofs::Writers::broke_off, crate::proofs::Writers::stopped))]
pub fn write_there_like<O: Sink>(out: &mut O, word: &[u8], names: &[Name]) -> Written
    ensures { Writes result (O.seen out.old) (O.seen out.new) (sentences.there_are_like word.now names.now) }
{
    write_there_are(out, names)?;
    match alike(word, names) {
        None => Ok(()),
        Some(name) => write_filled(
            out,
            b"; the case of letters counts: write _",
            &[Filling::Text(name.bytes())],
        ),
    }
}

// Candidates, the first behind a text and each other behind a comma and a space.
fn write_candidates<O: Sink>(out: &mut O, lead: &[u8], candidates: &[Candidate]) -> Written
    ensures { Writes result (O.seen out.old) (O.seen out.new) (listed told lead.now candidates.now) }
{
    match candidates {
        [] => Ok(()),
        [first, others @ ..] => {
            write_all(out, lead)?;
            write_all(out, told_as(*first))?;
            write_candidates(out, b", ", others)
        }
    }
}

/// Writes what may stand at a place, or else a text that says that nothing may.
pub fn write_may_stand<O: Sink>(out: &mut O, nothing: &[u8], next: &[Candidate]) -> Written
    ensures { Writes result (O.seen out.old) (O.seen out.new) (next_text nothing.now next.now) }
{
    if next.is_empty() {
        write_all(out, nothing)
    } else {
        write_candidates(out, b", here may stand: ", next)
    }
}

/// Returns the names of the streams, in order.
pub fn names_of_streams(catalog: &Catalog) -> ArrayVec<Name, 16>
    ensures { result.items ≡ stream_names catalog.now }
{
    let mut names = ArrayVec::new();
    for stream in 0..catalog.len() {
        names.push(*catalog.stream_name(stream));
    }
    names
}
