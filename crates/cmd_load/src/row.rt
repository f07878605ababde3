//! The generator, and the row that a number makes.
ghost use Rattle.std.specs.Prelude.{◌≡◌, ◌≤◌, ◌+◌, ◌++◌, [], length};
ghost use Rattle.cmd_load.specs.Script.{step, field, row};

use arrayvec::ArrayVec;
use itoa::Buffer;

/// A line, without its LF.
pub type LoadLine = ArrayVec<u8, 128>;

/// Returns the number after this one.
#[tactic(auto, unfolding(crate::specs::Script::step), using(crate::proofs::Sums::sum_mod))]
pub fn next_number(number: u64) -> u64
    ensures { result ≡ step number }
{
    number
        .wrapping_mul(6_364_136_223_846_793_005)
        .wrapping_add(1_442_695_040_888_963_407)
}

/// Returns a line with this text.
pub fn line_of(text: &[u8]) -> LoadLine
    requires { length text.now ≤ 128 }
    ensures { result.items ≡ text.now }
{
    let mut line = ArrayVec::new();
    match line.try_extend_from_slice(text) {
        Ok(()) => {}
        Err(_) => unreachable!(),
    }
    line
}

// Adds a field behind a comma.
fn push_field(line: &mut LoadLine, value: u64)
    requires { length line.old.items + 41 ≤ 128 }
    ensures text { line.new.items ≡ line.old.items ++ field value }
    ensures short { length line.new.items ≤ length line.old.items + 41 }
{
    line.push(b',');
    let mut buffer = Buffer::new();
    match line.try_extend_from_slice(buffer.format(value).as_bytes()) {
        Ok(()) => {}
        Err(_) => unreachable!(),
    }
}

/// Returns the row that a number makes.
#[tactic(auto, unfolding(crate::specs::Script::row))]
pub fn row_line(number: u64) -> LoadLine
    ensures { result.items ≡ row number }
{
    let high = (number >> 32) % 1000;
    if number < 1 << 63 {
        let mut line = line_of(b"T");
        push_field(&mut line, high);
        return line;
    }
    let mut line = line_of(b"S");
    push_field(&mut line, high);
    push_field(&mut line, (number >> 16) % 65536);
    line
}
