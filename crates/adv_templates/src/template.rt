//! A template, and what fills its holes.
ghost use Rattle.std.specs.Prelude.{◌≡◌, ◌+◌, ◌==◌, map, take, drop};
ghost use Rattle.std.specs.List.{position};
ghost use Rattle.io_streams.specs.Sink.{Writes};
ghost use Rattle.adv_templates.specs.Template as specs;
ghost use Rattle.adv_templates.specs.Template.{filling_text, filled};

use io_streams::{Sink, WriteFault, write_all};
use itoa::Buffer;

/// Whether a text was written.
pub type Written = Result<(), WriteFault>;

/// What fills a hole of a template: a text, or a number by its decimal digits.
#[derive(Clone, Copy)]
pub enum Filling<'a> {
    Text(&'a [u8]),
    Fixed(&'static [u8]),
    Number(u64),
    Count(u32),
    Integer(i64),
}

// The place of the first hole.
fn place_of_hole(template: &[u8]) -> Option<usize>
    ensures { result ≡ position (λ b. b == 95) template.now }
{
    template.iter().position(|byte| *byte == b'_')
}

// What stands before the first hole, and what stands behind it: nothing where there is none.
fn cut_at_hole(template: &[u8]) -> (&[u8], &[u8])
    ensures before { result.0.now ≡ take (specs.hole_in template.now) template.now }
    ensures behind { result.1.now ≡ drop (specs.hole_in template.now + 1) template.now }
{
    match place_of_hole(template) {
        Some(hole) => (&template[..hole], &template[hole + 1..]),
        None => (template, &[]),
    }
}

// What fills a hole.
fn write_filling<O: Sink>(out: &mut O, filling: &Filling<'_>) -> Written
    ensures { Writes result (O.seen out.old) (O.seen out.new) (filling_text filling.now) }
{
    match filling {
        Filling::Text(text) => write_all(out, text),
        Filling::Fixed(text) => write_all(out, text),
        Filling::Number(number) => write_all(out, Buffer::new().format(*number).as_bytes()),
        Filling::Count(number) => write_all(out, Buffer::new().format(*number).as_bytes()),
        Filling::Integer(integer) => write_all(out, Buffer::new().format(*integer).as_bytes()),
    }
}

/// Writes a template with its holes filled in order. Each `_` of it is a hole; those behind the last filling stay. Where the sink fails, a front of
/// the text was written.
#[tactic(auto, unfolding(crate::specs::Template::filled))]
pub fn write_filled<O: Sink>(out: &mut O, template: &[u8], fillings: &[Filling<'_>]) -> Written
    ensures { Writes result (O.seen out.old) (O.seen out.new) (filled template.now (map filling_text fillings.now)) }
{
    match fillings {
        [] => write_all(out, template),
        [first, others @ ..] => {
            let (before, behind) = cut_at_hole(template);
            write_all(out, before)?;
            write_filling(out, first)?;
            write_filled(out, behind, others)
        }
    }
}
