//! The summary of a load.
ghost use Rattle.std.specs.Prelude.{◌≡◌, ◌≤◌, ◌+◌, ◌++◌, length};
ghost use Rattle.cmd_dispatch.specs.Load.{labelled, summary_text, line_count};

use arrayvec::ArrayVec;
use cmd_session::Announced;
use itoa::Buffer;

/// Returns how many LF a text has.
pub fn line_count(text: &[u8]) -> u64
    ensures { result ≡ line_count text.now }
{
    text.iter().filter(|byte| **byte == b'\n').count() as u64
}

// Adds a piece of text.
fn push_text(text: &mut ArrayVec<u8, 256>, piece: &[u8])
    requires { length text.old.items + length piece.now ≤ 256 }
    ensures { text.new.items ≡ text.old.items ++ piece.now }
{
    match text.try_extend_from_slice(piece) {
        Ok(()) => {}
        Err(_) => unreachable!(),
    }
}

// Adds a number behind its label.
fn push_labelled(text: &mut ArrayVec<u8, 256>, label: &[u8], number: u128)
    requires { length text.old.items + length label.now + 40 ≤ 256 }
    ensures text { text.new.items ≡ text.old.items ++ labelled label.now number }
    ensures short { length text.new.items ≤ length text.old.items + length label.now + 40 }
{
    let mut buffer = Buffer::new();
    push_text(text, label);
    push_text(text, buffer.format(number).as_bytes());
}

/// Returns the summary of a load of so many rows, whose replies have so many lines.
pub fn summary(rows: u32, lines: u128, announced: Announced) -> ArrayVec<u8, 256>
    ensures { result.items ≡ summary_text rows lines announced }
{
    let mut text = ArrayVec::new();
    push_labelled(&mut text, b"load ", u128::from(rows));
    push_labelled(&mut text, b" lines ", lines);
    push_labelled(&mut text, b" cells ", u128::from(announced.cells));
    push_labelled(&mut text, b" answers ", u128::from(announced.answers));
    text.push(b'\n');
    text
}
