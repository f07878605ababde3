//! A session over the lines of a file, where one is named, and of the input.
ghost use Rattle.std.specs.Prelude.{◌≡◌, ◌<◌, ◌≤◌, ◌^◌, [], map, IfOk};
ghost use Rattle.io_line_reader.specs.Reading.{fresh};
ghost use Rattle.cmd_session.specs.State.{State, empty};
ghost use Rattle.cmd_session.specs.Session.{StandsFor};
ghost use Rattle.cmd_session.specs.Run.{HasState, TookAll};
ghost use Rattle.cmd_session.specs.declared.run.Ending.TheVariants as endings;
ghost use Rattle.cmd_dispatch.specs.Commands.{HasFile};
ghost use Rattle.cmd_dispatch.specs.Phases.{RanAs, AnsweredAs, FilePhase, SessionRan};
ghost use Rattle.cmd_dispatch.specs.Files.{NoneFell};
ghost use Rattle.cmd_dispatch.specs.Run.{SessionEndsOn, failed_in, status_of};

use crate::ended::Ended;
use crate::words::RunForm;
use cmd_each::run_each;
use cmd_session::{Ending, Session, run_lines};
use exec_pool::Steps;
use io_line_reader::LineReader;
use io_streams::{Gathered, Sink, Source, Status};
use std::alloc::{AllocError, Global};
use std::marker::Brand;
use std::sync::ledger::{Blank, Ledger};

// A reader for the file, and one for the input.
#[derive(Drop)]
struct Readers {
    file: LineReader,
    input: LineReader,
}

// How a session ended, and whether in the file.
#[derive(Clone, Copy)]
struct SessionEnd {
    ending: Ending,
    in_file: bool,
}

// Readers that have taken nothing.
fn open_readers(alloc: Global) -> Result<Readers, AllocError>
    ensures { IfOk result (λ readers. (readers.file ≡ fresh) × (readers.input ≡ fresh)) }
{
    Ok(Readers {
        file: LineReader::new(alloc)?,
        input: LineReader::new(alloc)?,
    })
}

// Answers the lines of a source, each reply as it is or as one line.
#[inline(always)]
fn answer_source<I: Source, O: Sink, L: Ledger>(
    each: bool,
    reader: &mut LineReader,
    session: &mut Session,
    source: &mut I,
    output: &mut Gathered<'_, O>,
    steps: &mut Steps<L>,
) -> Ending
    requires reader { reader.old ≡ fresh }
    requires stands { HasState session.old }
    requires held { output.old.held.items ≡ [] }
    ensures streams { (s : State) → StandsFor session.old s → RanAs each result s (I.seen source.old) (I.seen source.new) (O.seen output.old.sink.now) (O.seen output.new.sink.now) }
    ensures done { result ≡ endings.Done → (s : State) → StandsFor session.old s
        → TookAll (I.seen source.old) (I.seen source.new) (λ text. AnsweredAs each s text (O.seen output.old.sink.now) (O.seen output.new.sink.now) session.new) }
    ensures flushed { result ≡ endings.Done → output.new.held.items ≡ [] }
    ensures same_reference { output.new.sink.ghost_name ≡ output.old.sink.ghost_name }
{
    if each {
        run_each(reader, session, source, output, steps)
    } else {
        run_lines(reader, session, source, output, steps)
    }
}

// Answers the lines of the first of the files, where one is named; else it does nothing.
#[inline(always)]
fn answer_file<F: Source, O: Sink, L: Ledger>(
    form: RunForm,
    reader: &mut LineReader,
    session: &mut Session,
    files: &mut [F],
    output: &mut Gathered<'_, O>,
    steps: &mut Steps<L>,
) -> Ending
    requires reader { reader.old ≡ fresh }
    requires stands { HasState session.old }
    requires held { output.old.held.items ≡ [] }
    requires file { HasFile form.file (map F.seen files.old) }
    ensures phase { (s : State) → StandsFor session.old s
        → FilePhase result form.file form.each s (map F.seen files.old) (map F.seen files.new) (O.seen output.old.sink.now) (O.seen output.new.sink.now) session.old session.new }
    ensures flushed { result ≡ endings.Done → output.new.held.items ≡ [] }
    ensures same_reference { output.new.sink.ghost_name ≡ output.old.sink.ghost_name }
{
    if form.file {
        answer_source(form.each, reader, session, &mut files[0], output, steps)
    } else {
        Ending::Done
    }
}

// Answers the lines of the file, where one is named, and then those of the input. Each loop over lines is called at one place, so it is inlined.
#[inline(always)]
fn answer_both<F: Source, I: Source, O: Sink, L: Ledger>(
    form: RunForm,
    readers: &mut Readers,
    session: &mut Session,
    files: &mut [F],
    input: &mut I,
    output: &mut Gathered<'_, O>,
    steps: &mut Steps<L>,
) -> SessionEnd
    requires file_reader { readers.old.file ≡ fresh }
    requires input_reader { readers.old.input ≡ fresh }
    requires stands { HasState session.old }
    requires held { output.old.held.items ≡ [] }
    requires file { HasFile form.file (map F.seen files.old) }
    ensures ran { (s : State) → StandsFor session.old s
        → SessionRan form.file result.in_file form.each result.ending s (I.seen input.old) (I.seen input.new) (map F.seen files.old) (map F.seen files.new) (O.seen output.old.sink.now) (O.seen output.new.sink.now) }
    ensures same_reference { output.new.sink.ghost_name ≡ output.old.sink.ghost_name }
{
    match answer_file(form, &mut readers.file, session, files, output, steps) {
        Ending::Done => SessionEnd {
            ending: answer_source(form.each, &mut readers.input, session, input, output, steps),
            in_file: false,
        },
        ending => SessionEnd {
            ending,
            in_file: true,
        },
    }
}

// Gathers the replies before they go to the output.
fn gather<F: Source, I: Source, O: Sink, L: Ledger>(
    form: RunForm,
    readers: &mut Readers,
    session: &mut Session,
    files: &mut [F],
    input: &mut I,
    output: &mut O,
    blank: Blank,
) -> SessionEnd
    requires file_reader { readers.old.file ≡ fresh }
    requires input_reader { readers.old.input ≡ fresh }
    requires stands { HasState session.old }
    requires file { HasFile form.file (map F.seen files.old) }
    requires name { blank.name ≡ L.name }
    requires parts { blank.parts ≡ L.parts }
    requires two { 2 ≤ L.parts }
    ensures { (s : State) → StandsFor session.old s
        → SessionRan form.file result.in_file form.each result.ending s (I.seen input.old) (I.seen input.new) (map F.seen files.old) (map F.seen files.new) (O.seen output.old) (O.seen output.new) }
{
    let mut steps = Steps::<L>::new(blank);
    let mut gathered = Gathered::new(output);
    let reached = answer_both(
        form,
        readers,
        session,
        files,
        input,
        &mut gathered,
        &mut steps,
    );
    let Gathered { sink, held: _held } = gathered;
    // No effect at run time. The proof reads what the output holds from this use.
    let _ = &*sink;
    reached
}

// The status that an ending leads to.
fn status_of(ending: Ending) -> Status
    ensures { result ≡ status_of ending }
{
    match ending {
        Ending::Done => Status::Done,
        Ending::ReadFault => Status::ReadFault,
        Ending::WriteFault => Status::WriteFault,
        Ending::Memory => Status::Memory,
        Ending::ByteLimit => Status::ByteLimit,
    }
}

// Whether a file failed where a session ended so.
fn failed_in(ending: Ending, in_file: bool) -> bool
    ensures { result ≡ failed_in ending in_file }
{
    match ending {
        Ending::Done => false,
        Ending::ReadFault => in_file,
        Ending::WriteFault => false,
        Ending::Memory => false,
        Ending::ByteLimit => false,
    }
}

/// Opens a session of this form, and answers in it the lines of the first of the files, where one is named, and then those of the input.
pub fn run_session<F: Source, I: Source, O: Sink>(
    alloc: Global,
    form: RunForm,
    files: &mut [F],
    input: &mut I,
    output: &mut O,
) -> Ended
    requires some { 0 < form.limit }
    requires few { form.limit ≤ 2 ^ 40 }
    requires file { HasFile form.file (map F.seen files.old) }
    ensures ends { SessionEndsOn form.file result.status result.file_failed form.each form.limit (I.seen input.old) (I.seen input.new) (map F.seen files.old) (map F.seen files.new) (O.seen output.old) (O.seen output.new) }
    ensures input_later { (I.seen input.old).faults ≤ (I.seen input.new).faults }
    ensures files_later { NoneFell (map F.seen files.old) (map F.seen files.new) }
    ensures output_later { (O.seen output.old).faults ≤ (O.seen output.new).faults }
{
    let Ok(mut readers) = open_readers(alloc) else {
        return Ended::by(Status::Memory);
    };
    let Ok(mut session) = Session::new(alloc, form.limit) else {
        return Ended::by(Status::Memory);
    };
    // It counts no steps.
    let reached = gather::<F, I, O, Brand>(
        form,
        &mut readers,
        &mut session,
        files,
        input,
        output,
        Blank::new(2),
    );
    session.close();
    Ended {
        status: status_of(reached.ending),
        file_failed: failed_in(reached.ending, reached.in_file),
    }
}
