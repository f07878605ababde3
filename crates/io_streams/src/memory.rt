//! A sink in memory, which fails in the calls that it is told to fail in.
mod mem_sink;

ghost use Rattle.std.specs.Prelude.{◌≡◌};
ghost use Rattle.io_streams.specs.Counts.{one_more};
ghost use Rattle.io_streams.specs.Memory.{is_listed};

pub use mem_sink::MemSink;

// One more, up to the end of 64 bits.
fn one_more(count: u64) -> u64
    ensures { result ≡ one_more count }
{
    count.saturating_add(1)
}

// Whether the call of this number is to fail.
fn is_listed(call: u64, fails: &[u64]) -> bool
    ensures { result ≡ is_listed call fails.now }
{
    fails.iter().any(|k| *k == call)
}
