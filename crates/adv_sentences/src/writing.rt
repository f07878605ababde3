//! The text of a fault.
ghost use Rattle.std.specs.Prelude.{◌≡◌, ◌≤◌, length, map};
ghost use Rattle.io_streams.specs.Sink.{Writes};
ghost use Rattle.adv_sentences.specs.Texts as specs;
ghost use Rattle.adv_sentences.specs.Texts.{fault_text};

use crate::sentences::write_sentence;
use adv_diagnosis::{Fault, Known, place_of, word_of};
use adv_hints::front_of;
use adv_templates::{Filling, Written, write_filled};
use arrayvec::ArrayVec;
use io_streams::{Sink, write_all};
use sql_parser::classify;
use sql_replies::{Refusal, word_text};

/// The most bytes of a line that are shown, and the last place.
const MOST_SHOWN: u16 = 200;

// What says that more bytes follow, where they do.
fn more_text(text: &[u8]) -> &'static [u8]
    ensures { result.now ≡ specs.more_text text.now }
{
    if usize::from(MOST_SHOWN) < text.len() {
        b".."
    } else {
        b""
    }
}

// A blank as wide as a byte.
fn blank_for(byte: u8) -> u8
    ensures { result ≡ specs.blank_for byte }
{
    if byte == b'\t' { b'\t' } else { b' ' }
}

// Blanks as wide as at most 200 bytes.
fn blanks_for(front: &[u8]) -> ArrayVec<u8, 200>
    requires { length front.now ≤ 200 }
    ensures { result.items ≡ map specs.blank_for front.now }
{
    let mut blanks = ArrayVec::new();
    for byte in front {
        blanks.push(blank_for(*byte));
    }
    blanks
}

// A text between two spaces and another text at the end of a line.
fn write_enclosed<O: Sink>(out: &mut O, text: &[u8], end: &'static [u8]) -> Written
    ensures { Writes result (O.seen out.old) (O.seen out.new) (specs.enclosed text.now end.now) }
{
    let fillings = [Filling::Text(text), Filling::Fixed(end)];
    write_filled(out, b"  __\n", &fillings)
}

// `line 8: Syntax`
#[tactic(auto, unfolding(crate::specs::Texts::head_text))]
fn write_head<O: Sink>(out: &mut O, number: u64, word: Refusal) -> Written
    ensures { Writes result (O.seen out.old) (O.seen out.new) (specs.head_text number word) }
{
    let fillings = [Filling::Number(number), Filling::Fixed(word_text(word))];
    write_filled(out, b"line _: _\n", &fillings)
}

// The mark below a place, where the place is shown.
fn write_mark_at<O: Sink>(out: &mut O, text: &[u8], place: Option<u16>) -> Written
    ensures { Writes result (O.seen out.old) (O.seen out.new) (specs.mark_text text.now place) }
{
    match place {
        Some(at) if at <= MOST_SHOWN => {
            let blanks = blanks_for(front_of(text, at));
            write_enclosed(out, blanks.as_slice(), b"^")
        }
        _ => Ok(()),
    }
}

// The line behind two spaces, its first 200 bytes and `..` where there are more, and its mark; a line that is too long is not shown.
#[tactic(auto, using(crate::proofs::Writers::writes_after, crate::proofs::Writers::broke_off, crate::proofs::Writers::stopped), unfolding(crate::specs::Texts::shown_text, crate::specs::Texts::quoted_text))]
fn write_shown<O: Sink>(out: &mut O, text: &[u8], fault: &Fault) -> Written
    ensures { Writes result (O.seen out.old) (O.seen out.new) (specs.shown_text text.now fault.now) }
{
    match fault {
        Fault::LineTooLong => Ok(()),
        _ => {
            write_enclosed(out, front_of(text, MOST_SHOWN), more_text(text))?;
            write_mark_at(out, text, place_of(text, fault))
        }
    }
}

// Two spaces, and the place by its number from 1 where it is not shown.
#[tactic(auto, unfolding(crate::specs::Texts::place_text))]
fn write_place<O: Sink>(out: &mut O, place: Option<u16>) -> Written
    ensures { Writes result (O.seen out.old) (O.seen out.new) (specs.place_text place) }
{
    match place {
        Some(at) if MOST_SHOWN < at => {
            write_filled(out, b"  at byte _: ", &[Filling::Count(u32::from(at) + 1)])
        }
        _ => write_all(out, b"  "),
    }
}

/// Writes what is wrong with a line: its number and the word, the line without the blanks at its ends, a mark below the place where
/// there is one, and a sentence. Of a line of more than 200 bytes the first 200 are shown, and a place behind them is told by
/// its number; a line of more than 1,024 bytes is not shown. Where the sink fails, a front of the text was written.
#[tactic(auto, using(crate::proofs::Writers::writes_after, crate::proofs::Writers::broke_off, crate::proofs::Writers::stopped))]
pub fn write_fault<O: Sink>(
    out: &mut O,
    number: u64,
    line: &[u8],
    fault: &Fault,
    known: &Known<'_>,
) -> Written
    ensures { Writes result (O.seen out.old) (O.seen out.new) (fault_text number line.now fault.now known.now.catalog.now known.now.live.now) }
{
    let text = classify(line).1;
    write_head(out, number, word_of(fault))?;
    write_shown(out, text, fault)?;
    write_place(out, place_of(text, fault))?;
    write_sentence(out, text, fault, known)?;
    write_all(out, b"\n")
}
