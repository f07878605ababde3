//! Writing whole texts.
ghost use Rattle.std.specs.List.{flat_map};
ghost use Rattle.io_streams.specs.Sink.{Writes};

use crate::sink::{Sink, WriteAnswer, WriteFault};

/// Writes the whole piece. Where the sink fails, a front of it was written.
pub fn write_all<O: Sink>(out: &mut O, piece: &[u8]) -> Result<(), WriteFault>
    ensures { Writes result (O.seen out.old) (O.seen out.new) piece.now }
{
    let mut rest = piece;
    'writing: while !rest.is_empty() {
        match out.write(rest) {
            WriteAnswer::Took(n) => rest = &rest[n..],
            WriteAnswer::Failed => return Err(WriteFault),
        }
    }
    Ok(())
}

/// Writes the pieces, one after another. Where the sink fails, a front of them all was written.
pub fn write_pieces<O: Sink>(out: &mut O, pieces: &[&[u8]]) -> Result<(), WriteFault>
    ensures { Writes result (O.seen out.old) (O.seen out.new) (flat_map (λ piece. piece.now) pieces.now) }
{
    for piece in pieces {
        match write_all(out, piece) {
            Ok(()) => {}
            Err(fault) => return Err(fault),
        }
    }
    Ok(())
}
