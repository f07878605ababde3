//! Where a line ends.
ghost use Rattle.std.specs.Prelude.{◌≡◌, ◌<◌, take, length, MatchOption, slice_index};
ghost use Rattle.io_line_reader.specs.Reading.{IsPlain};

use memchr::memchr_iter;

/// Returns the first place at which an LF stands. The iterator looks at the next 32 bytes first, in which most lines end.
pub fn feed_place(bytes: &[u8]) -> Option<usize>
    ensures { MatchOption result (IsPlain bytes.now) (λ n. (n < length bytes.now) × (slice_index bytes.now n ≡ 10) × IsPlain (take n bytes.now)) }
{
    memchr_iter(b'\n', bytes).next()
}
