//! The sentence of each fault.
ghost use Rattle.std.specs.Prelude.{◌≡◌, ◌≤◌, ◌+◌, ◌++◌, ◌∷◌, [], length, decimal};
ghost use Rattle.std.specs.List.{slice_index_or};
ghost use Rattle.io_streams.specs.Sink.{Writes};
ghost use Rattle.sql_text.specs.Lines.{parts_behind};
ghost use Rattle.sql_text.specs.Word.{word_of};
ghost use Rattle.sql_catalog.specs.Streams.{column_at, shape_at, domain_at};
ghost use Rattle.adv_templates.specs.Template.{filled};
ghost use Rattle.adv_sentences.specs.Sentences as sentences;
ghost use Rattle.adv_sentences.specs.declared.texts.TheConstants as words;

use crate::lists::{names_of_streams, write_may_stand, write_names, write_there_like};
use crate::texts;
use adv_diagnosis::{Fault, Known, fields_text, names_of_columns};
use adv_hints::{Candidate, Hint, Standing, front_of, hint_of, is_quote, rest_of, standing_of};
use adv_templates::{Filling, Written, write_filled};
use io_streams::{Sink, write_all};
use sql_catalog::{Catalog, ColumnDef};
use sql_parser::{ColumnAst, What};
use sql_text::{Name, cut, is_letter, split_word, trim};

// The field at a place, nothing where there is none.
fn nth_field(fields: Option<&[u8]>, place: u16) -> &[u8]
    ensures { result.now ≡ slice_index_or (parts_behind 44 fields.entry) place [] }
{
    match fields {
        None => &[],
        Some(text) => {
            let (field, others) = cut(text, b',');
            if place == 0 {
                field
            } else {
                nth_field(others, place - 1)
            }
        }
    }
}

// The field of a row line at a place, without the blanks at its ends.
fn field_at(line: &[u8], place: u16) -> &[u8]
    ensures { result.now ≡ sentences.field_at line.now place }
{
    trim(nth_field(fields_text(line), place))
}

// Why a field is no integer.
fn field_text(field: &[u8]) -> &'static [u8]
    ensures { result.now ≡ sentences.field_text field.now }
{
    match field {
        [] => b" is empty: a row has an integer for each column",
        [first, ..] => {
            if is_quote(*first) {
                b" is quoted: an integer stands without quotation marks"
            } else if is_letter(*first) {
                b" is a word: a row has integers alone, and a line of headings is none"
            } else if field.contains(&b'.') {
                b" has a point: count in smaller units, as 125 tenths for 12.5"
            } else if field.contains(&b'e') || field.contains(&b'E') {
                b" has an exponent: write all digits, as 1000 for 1e3"
            } else {
                b" is no integer of 64 bits, from -9223372036854775808 to 9223372036854775807"
            }
        }
    }
}

// The columns of the stream of a number, none where there is no such stream.
fn columns_of(catalog: &Catalog, stream: u8) -> &[ColumnDef]
    ensures columns { result.now ≡ (shape_at catalog.now stream).columns }
    ensures few { length result.now ≤ 8 }
{
    if stream < catalog.len() {
        catalog.columns(stream).as_slice()
    } else {
        &[]
    }
}

// The name of the stream of a number, nothing where there is no such stream.
fn name_of(catalog: &Catalog, stream: u8) -> &[u8]
    ensures { result.now ≡ (shape_at catalog.now stream).name }
{
    if stream < catalog.len() {
        catalog.stream_name(stream).bytes()
    } else {
        &[]
    }
}

// The domain of a column of the stream of a number, where it has one.
fn domain_of(catalog: &Catalog, stream: u8, column: u8) -> Option<(i64, i64)>
    ensures { result ≡ domain_at catalog.now stream column }
{
    columns_of(catalog, stream).get(usize::from(column))?.domain
}

// The name of a column of the stream of a number, nothing where there is none.
fn column_name_of(catalog: &Catalog, stream: u8, column: u8) -> &[u8]
    ensures { result.now ≡ column_at (shape_at catalog.now stream).columns column }
{
    match columns_of(catalog, stream).get(usize::from(column)) {
        Some(column) => column.name.bytes(),
        None => &[],
    }
}

// A template that a name fills.
fn write_name<O: Sink>(out: &mut O, template: &[u8], name: &Name) -> Written
    ensures { Writes result (O.seen out.old) (O.seen out.new) (filled template.now (name.now ∷ [])) }
{
    write_filled(out, template, &[Filling::Text(name.bytes())])
}

// A template that a name fills, which names there are, and the one that it may mean.
#[tactic(auto, using(crate::proofs::Writers::writes_after, crate::proofs::Writers::broke_off, crate::proofs::Writers::stopped))]
fn write_name_among<O: Sink>(out: &mut O, template: &[u8], name: &Name, names: &[Name]) -> Written
    ensures { Writes result (O.seen out.old) (O.seen out.new) (filled template.now (name.now ∷ []) ++ sentences.there_are_like name.now names.now) }
{
    write_name(out, template, name)?;
    write_there_like(out, name.bytes(), names)
}

// A template that a number fills.
fn write_number<O: Sink>(out: &mut O, template: &[u8], number: u64) -> Written
    ensures { Writes result (O.seen out.old) (O.seen out.new) (filled template.now (decimal number ∷ [])) }
{
    write_filled(out, template, &[Filling::Number(number)])
}

// That a row line begins with the name of no stream, and which there are.
#[tactic(auto, using(crate::proofs::Writers::writes_after, crate::proofs::Writers::broke_off, crate::proofs::Writers::stopped))]
fn write_row_stream<O: Sink>(out: &mut O, line: &[u8], streams: &[Name]) -> Written
    ensures { Writes result (O.seen out.old) (O.seen out.new) (filled words.ROW_STREAM.now [] ++ sentences.there_are_like (word_of line.now) streams.now) }
{
    write_filled(out, texts::ROW_STREAM, &[])?;
    write_there_like(out, split_word(line).0, streams)
}

// A template that the two names of a column fill.
fn write_column<O: Sink>(out: &mut O, template: &[u8], column: &ColumnAst) -> Written
    ensures { Writes result (O.seen out.old) (O.seen out.new) (filled template.now (column.now.stream ∷ column.now.column ∷ [])) }
{
    let fillings = [
        Filling::Text(column.stream.bytes()),
        Filling::Text(column.column.bytes()),
    ];
    write_filled(out, template, &fillings)
}

// That a column is none of its stream, and which are.
#[tactic(auto, using(crate::proofs::Writers::writes_after, crate::proofs::Writers::broke_off, crate::proofs::Writers::stopped))]
fn write_no_column<O: Sink>(out: &mut O, column: &ColumnAst, catalog: &Catalog) -> Written
    ensures { Writes result (O.seen out.old) (O.seen out.new) (sentences.column_fault catalog.now column.now) }
{
    let stream = catalog.find(&column.stream).unwrap_or(u8::MAX);
    let names = names_of_columns(columns_of(catalog, stream));
    write_column(out, texts::NO_COLUMN, column)?;
    write_there_like(out, column.column.bytes(), names.as_slice())
}

// How many fields a row of a stream wants, how many it has, and the names of its columns.
#[tactic(auto, using(crate::proofs::Writers::writes_after, crate::proofs::Writers::broke_off, crate::proofs::Writers::stopped))]
fn write_arity<O: Sink>(
    out: &mut O,
    stream: u8,
    wanted: u8,
    found: u16,
    catalog: &Catalog,
) -> Written
    ensures { Writes result (O.seen out.old) (O.seen out.new) (sentences.arity_text stream wanted found catalog.now) }
{
    let names = names_of_columns(columns_of(catalog, stream));
    let fillings = [
        Filling::Text(name_of(catalog, stream)),
        Filling::Count(u32::from(wanted)),
        Filling::Count(u32::from(found)),
    ];
    write_filled(out, texts::ROW_COUNTS, &fillings)?;
    write_names(out, b"", names.as_slice())
}

// Why a field of a row line is no integer.
fn write_value<O: Sink>(out: &mut O, line: &[u8], field: u16) -> Written
    ensures { Writes result (O.seen out.old) (O.seen out.new) (sentences.value_text line.now field) }
{
    let fillings = [
        Filling::Count(u32::from(field) + 1),
        Filling::Fixed(field_text(field_at(line, field))),
    ];
    write_filled(out, b"field __", &fillings)
}

// The ends of a domain, where there is one.
fn write_ends<O: Sink>(out: &mut O, domain: Option<(i64, i64)>) -> Written
    ensures { Writes result (O.seen out.old) (O.seen out.new) (sentences.ends_text domain) }
{
    match domain {
        None => Ok(()),
        Some((lo, hi)) => {
            let fillings = [Filling::Integer(lo), Filling::Integer(hi)];
            write_filled(out, b"_.._", &fillings)
        }
    }
}

// That a field of a row of a stream, by its number from 0, lies outside a domain.
fn write_outside<O: Sink>(out: &mut O, stream: u8, field: u8, catalog: &Catalog) -> Written
    ensures { Writes result (O.seen out.old) (O.seen out.new) (filled words.FIELD_OUTSIDE.now (decimal (field + 1) ∷ (shape_at catalog.now stream).name ∷ column_at (shape_at catalog.now stream).columns field ∷ [])) }
{
    let fillings = [
        Filling::Count(u32::from(field) + 1),
        Filling::Text(name_of(catalog, stream)),
        Filling::Text(column_name_of(catalog, stream, field)),
    ];
    write_filled(out, texts::FIELD_OUTSIDE, &fillings)
}

// That the value of a field of a row of a stream lies outside the domain of its column.
#[tactic(auto, using(crate::proofs::Writers::writes_after, crate::proofs::Writers::broke_off, crate::proofs::Writers::stopped))]
fn write_domain<O: Sink>(out: &mut O, stream: u8, field: u8, catalog: &Catalog) -> Written
    ensures { Writes result (O.seen out.old) (O.seen out.new) (sentences.domain_text stream field catalog.now) }
{
    write_outside(out, stream, field, catalog)?;
    write_ends(out, domain_of(catalog, stream, field))
}

// A text, or another where it is empty.
fn or_text<'a>(text: &'a [u8], other: &'a [u8]) -> &'a [u8]
    ensures { result.now ≡ sentences.or_text text.now other.now }
{
    if text.is_empty() { other } else { text }
}

// An example of a column: the first of the first stream, where there is one.
fn write_example<O: Sink>(out: &mut O, catalog: &Catalog) -> Written
    ensures { Writes result (O.seen out.old) (O.seen out.new) (sentences.example_text catalog.now) }
{
    let fillings = [
        Filling::Text(or_text(name_of(catalog, 0), b"Stream")),
        Filling::Text(or_text(column_name_of(catalog, 0, 0), b"column")),
    ];
    write_filled(out, b"_._", &fillings)
}

// What is said of a limit, with a hole for the number that is found where there is one.
fn limit_template(what: What) -> &'static [u8]
    ensures { result.now ≡ sentences.limit_template what }
{
    texts::LIMITS[what as usize]
}

// The sentence of a limit, with the number that is found where there is one.
fn write_limit<O: Sink>(out: &mut O, what: What, found: Option<u16>) -> Written
    ensures { Writes result (O.seen out.old) (O.seen out.new) (sentences.limit_text what found) }
{
    match found {
        None => write_filled(out, limit_template(what), &[Filling::Fixed(b"")]),
        Some(number) => write_number(out, limit_template(what), u64::from(number)),
    }
}

// The sentence of what is meant.
fn hint_text(hint: Hint) -> &'static [u8]
    ensures { result.now ≡ sentences.hint_text hint }
{
    texts::HINTS[hint as usize]
}

// What is meant, with an example where one stands behind it.
#[tactic(auto, using(crate::proofs::Writers::writes_after, crate::proofs::Writers::broke_off, crate::proofs::Writers::stopped))]
fn write_hint<O: Sink>(out: &mut O, hint: Hint, catalog: &Catalog) -> Written
    ensures { Writes result (O.seen out.old) (O.seen out.new) (sentences.hint_sentence hint catalog.now) }
{
    write_all(out, hint_text(hint))?;
    match hint {
        Hint::BareColumn => write_example(out, catalog),
        _ => Ok(()),
    }
}

// The sentence of what stands at a place.
fn standing_text(standing: Standing) -> &'static [u8]
    ensures { result.now ≡ sentences.standing_text standing }
{
    texts::STANDINGS[standing as usize]
}

// What is said where no candidate may stand. A byte that begins nothing may stand behind the place where the statement goes wrong.
fn nothing_text(standing: Standing) -> &'static [u8]
    ensures { result.now ≡ sentences.nothing_text standing }
{
    match standing {
        Standing::Strange =>
            b", where nothing may stand: the statement has ended, or goes wrong before",
        _ => b", where the statement has ended",
    }
}

// What stands at a place, and what may stand there.
#[tactic(auto, using(crate::proofs::Writers::writes_after, crate::proofs::Writers::broke_off, crate::proofs::Writers::stopped))]
fn write_standing<O: Sink>(out: &mut O, standing: Standing, next: &[Candidate]) -> Written
    ensures { Writes result (O.seen out.old) (O.seen out.new) (sentences.standing_text standing ++ sentences.next_text (sentences.nothing_text standing) next.now) }
{
    write_all(out, standing_text(standing))?;
    write_may_stand(out, nothing_text(standing), next)
}

// Where the grammar is left: what is meant, or else what stands there and what may.
fn write_syntax<O: Sink>(
    out: &mut O,
    text: &[u8],
    at: u16,
    next: &[Candidate],
    catalog: &Catalog,
) -> Written
    ensures { Writes result (O.seen out.old) (O.seen out.new) (sentences.syntax_text text.now at next.now catalog.now) }
{
    let rest = rest_of(text, at);
    match hint_of(front_of(text, at), rest, next, catalog) {
        Some(hint) => write_hint(out, hint, catalog),
        None => write_standing(out, standing_of(rest), next),
    }
}

/// Writes the sentence of a fault, over what is left of its line.
#[tactic(auto, unfolding(crate::specs::Sentences::sentence_text))]
pub fn write_sentence<O: Sink>(
    out: &mut O,
    text: &[u8],
    fault: &Fault,
    known: &Known<'_>,
) -> Written
    ensures { Writes result (O.seen out.old) (O.seen out.new) (sentences.sentence_text text.now fault.now known.now.catalog.now known.now.live.now) }
{
    let (catalog, names) = (known.catalog, names_of_streams(known.catalog));
    let streams = names.as_slice();
    match fault {
        Fault::LineTooLong => write_all(out, texts::LONG_LINE),
        Fault::Syntax { at, next } => write_syntax(out, text, *at, next.as_slice(), catalog),
        Fault::Limit { what, found } => write_limit(out, *what, *found),
        Fault::DuplicateStream { name } => write_name(out, texts::STREAM_THERE, name),
        Fault::DuplicateColumn { name } => write_name(out, texts::COLUMN_TWICE, name),
        Fault::DuplicateQuery { name } => write_name(out, texts::QUERY_LIVE, name),
        Fault::TooManyStreams => write_all(out, texts::MANY_STREAMS),
        Fault::TooManyQueries => write_all(out, texts::MANY_QUERIES),
        Fault::NoStream { name } => write_name_among(out, texts::NO_STREAM, name, streams),
        Fault::NotInFrom { column } => write_column(out, texts::NOT_IN_FROM, column),
        Fault::NoColumn { column } => write_no_column(out, column, catalog),
        Fault::SelfJoin { name } => write_name(out, texts::TWICE_IN_FROM, name),
        Fault::NoQuery { name } => write_name_among(out, texts::NO_QUERY, name, known.live),
        Fault::Locked { line } => write_number(out, texts::LOCKED, *line),
        Fault::LockTwice { name } => write_name(out, b"TO names _ twice: leave it out once", name),
        Fault::LockNoStream { name } => write_name_among(out, texts::LOCK_NO_STREAM, name, streams),
        Fault::NoLock => write_all(out, b"no lock stands here"),
        Fault::RowKey => write_all(out, texts::ROW_KEY),
        Fault::RowName { bytes } => write_number(out, texts::ROW_NAME, u64::from(*bytes)),
        Fault::RowStream => write_row_stream(out, text, streams),
        Fault::Arity {
            stream,
            wanted,
            found,
        } => write_arity(out, *stream, *wanted, *found, catalog),
        Fault::Value { field } => write_value(out, text, *field),
        Fault::Domain { stream, field } => write_domain(out, *stream, *field, catalog),
    }
}
