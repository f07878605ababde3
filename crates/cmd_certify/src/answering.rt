//! The answer of a check, written in one line.
ghost use Rattle.std.specs.Prelude.{◌≡◌, ◌++◌, ◌∷◌, [], codes, decimal};
ghost use Rattle.io_streams.specs.Sink.{Writes};
ghost use Rattle.sql_parser.specs.Resolution.{HasNamed};
ghost use Rattle.sql_script.specs.Script as scripts;
ghost use Rattle.cmd_certify.specs.Checking as checking;
ghost use Rattle.cmd_certify.specs.Checking.{decision_text};
ghost use Rattle.cmd_certify.specs.Judged.{IsDecided};

use cert_checker::Reason;
use io_streams::{Sink, WriteFault, write_pieces};
use itoa::Buffer;
use sem_query::Decision;
use sql_printer::column_named;
use sql_replies::write_broken;
use sql_script::{Script, name_of};

fn reason_text(reason: Reason) -> &'static [u8]
    ensures { result.now ≡ checking.reason_text reason }
{
    match reason {
        Reason::Shape => b"Shape",
        Reason::Cycle => b"Cycle",
        Reason::Path => b"Path",
        Reason::Bound => b"Bound",
    }
}

// `certified q bounded parts N`
fn write_bounded<O: Sink>(out: &mut O, name: &[u8], parts: u32) -> Result<(), WriteFault>
    ensures { Writes result (O.seen out.old) (O.seen out.new) (codes "certified " ++ name.now ++ codes " bounded parts " ++ decimal parts ++ 10 ∷ []) }
{
    let mut number = Buffer::new();
    let pieces: [&[u8]; 5] = [
        b"certified ",
        name,
        b" bounded parts ",
        number.format(parts).as_bytes(),
        b"\n",
    ];
    write_pieces(out, &pieces)
}

/// Writes the decision of a certificate that is good, and where no condition is broken how many parts the query has.
pub fn write_decision<O: Sink>(
    out: &mut O,
    script: &Script,
    decision: Decision,
    parts: u32,
) -> Result<(), WriteFault>
    requires named { HasNamed script.now.catalog script.now.query }
    requires is { IsDecided script.now.query decision parts }
    ensures { Writes result (O.seen out.old) (O.seen out.new)
        (decision_text script.now.catalog (scripts.name_of script.now.statement) script.now.query decision parts) }
{
    let name = name_of(&script.statement);
    match decision {
        Decision::Bounded => write_bounded(out, name, parts),
        Decision::Violation {
            part,
            condition,
            attr,
        } => {
            let column = column_named(attr, script.query.from(), &script.catalog);
            write_broken(out, b"certified ", name, part, condition, &column)
        }
    }
}

/// Writes `no P Shape`
pub fn write_no<O: Sink>(out: &mut O, place: u32, reason: Reason) -> Result<(), WriteFault>
    ensures { Writes result (O.seen out.old) (O.seen out.new) (codes "no " ++ decimal place ++ 32 ∷ checking.reason_text reason ++ 10 ∷ []) }
{
    let mut buffer = Buffer::new();
    let number = buffer.format(place).as_bytes();
    let pieces: [&[u8]; 5] = [b"no ", number, b" ", reason_text(reason), b"\n"];
    write_pieces(out, &pieces)
}
