//! A session for C, behind an opaque handle.
//!
//! C holds the handle as a pointer, which it passes by its address; null is the handle of no session. Each function tells by a number how
//! it went, and asks nothing of the handle: a session that is not open, or is open already, is answered by a number too. So no function has
//! a `requires`.
#![tactic(auto)]

ghost use Rattle.std.specs.Prelude.{◌≡◌, [], ◌++◌, ◌<◌, ◌≤◌, ◌^◌, true, false, length, drop};
ghost use Rattle.std.specs.Borrow.{sem};
ghost use Rattle.std.specs.Bool.{MatchBool};
ghost use Rattle.std.specs.Option.{is_none};
ghost use Rattle.std.specs.declared.option.Option.{Option};
ghost use Rattle.std.specs.declared.option.Option.TheVariants.{None, Some};
ghost use Rattle.lib_session.specs.Embedded.{EmbeddedValue};
ghost use Rattle.lib_c_interface.specs.Exports.{number_of, pages_for, waiting, Opens, FedSo, Feeds, Gives, Clears, Announces};
ghost use Rattle.cmd_session.specs.Announced.{announced_by};
ghost use Rattle.cmd_session.specs.Session.{StandsFor};
ghost use Rattle.cmd_session.specs.State.{State};

use lib_raw_parts::Parts;
use lib_session::{Embedded, FeedOutcome};
use std::alloc::Global;
use std::marker::Model;
use std::mem::replace;
use std::ptr::null_mut;

// Which functions these are, with these parameters and numbers. It grows where one of them changes.
const ABI: u32 = 2;

// The most rows of a session.
const MOST_ROWS: u64 = 1 << 40;

// The most pages of a session.
const MOST_PAGES: u16 = 16_384;

/// The one owner of a session on the heap, or of none where it is null. To C it is a pointer to nothing that C knows.
#[repr(C)]
pub struct Handle {
    at: *mut u8,
    pub ghost value: { Option EmbeddedValue },
}

impl Model for Handle {
    ghost use Rattle.lib_c_interface.specs.Owning.{session_at};

    ghost also_owns = { λ h. session_at h.at h.value };
}

// It may go to another thread: a session has no cell, no lock and no count that others share.
unsafe impl Send for Handle {}

// What may go to another thread. That a handle may is proved where this is called.
fn crosses<T: Send>(_sent: &T) {}

// A handle may.
fn handle_crosses(handle: &Handle) {
    crosses(handle)
}

impl Handle {
    ghost use Rattle.lib_c_interface.specs.Lending.{LendsValue};

    // The handle of no session.
    fn closed() -> Handle
        ensures { result.value ≡ None }
    {
        Handle { at: null_mut() }
    }

    // Ends the handle of no session.
    fn discard(self)
        requires { is_none self.value ≡ true }
    {
        let Handle { at: _ } = self;
    }

    // The handle of a session in a box.
    fn of_parts(parts: Parts<Embedded, Global>) -> Handle
        ensures { result.value ≡ Some parts.value }
    {
        let Parts { ptr, alloc: _ } = parts;
        Handle {
            at: ptr.cast::<u8>(),
        }
    }

    // The session of a handle in its box, which ends the handle.
    fn into_parts(self, alloc: Global) -> Parts<Embedded, Global>
        requires { is_none self.value ≡ false }
        ensures { Some result.value ≡ self.value }
    {
        let Handle { at } = self;
        Parts {
            ptr: at.cast::<Embedded>(),
            alloc,
        }
    }

    // Whether the handle has no session.
    fn is_closed(&mut self) -> bool
        ensures kept { self.new ≡ self.old }
        ensures answer { result ≡ is_none self.old.value }
    {
        self.at.is_null()
    }

    // The session of a handle, to be changed where it lies.
    fn value(&mut self) -> &mut Embedded
        requires { is_none self.old.value ≡ false }
        ensures* writes_back { sem 𝓛 (LendsValue self.entry result) }
        ensures value { Some result.now ≡ self.old.value }
    {
        unsafe { &mut *self.at.cast::<Embedded>() }
    }
}

// The pages of a session that is opened with such a number.
fn pages_for(number: u32) -> u16
    requires { number ≤ 16384 }
    ensures pages { result ≡ pages_for number }
    ensures few { result ≤ 16384 }
{
    if number == 0 {
        MOST_PAGES
    } else {
        number as u16
    }
}

// The number that tells C how feeding went.
fn number_of(outcome: FeedOutcome) -> u32
    ensures { result ≡ number_of outcome }
{
    match outcome {
        FeedOutcome::Done => 0,
        FeedOutcome::Cut => 3,
        FeedOutcome::Stopped => 5,
        FeedOutcome::Memory => 6,
        FeedOutcome::Ended => 7,
        FeedOutcome::Full => 8,
        FeedOutcome::NoRoom => 9,
    }
}

// Copies bytes to the front of the room for them, if there is room for all.
fn copy(bytes: &[u8], out: &mut [u8]) -> bool
    ensures { MatchBool result (out.new ≡ bytes.now ++ drop (length bytes.now) out.old) ((length out.old < length bytes.now) × (out.new ≡ out.old)) }
{
    if out.len() < bytes.len() {
        return false;
    }
    out[..bytes.len()].copy_from_slice(bytes);
    true
}

// Feeds a text to a session, tells how many bytes of it were taken and how many bytes of replies wait then, and gives the number of how
// that went.
fn feed(session: &mut Embedded, text: &[u8], taken: &mut usize, wait: &mut usize) -> u32
    ensures fed { FedSo result text.now taken.new session.old session.new }
    ensures told { wait.new ≡ length session.new.replies }
{
    let fed = session.feed(text);
    *taken = fed.taken;
    *wait = session.replies().len();
    number_of(fed.outcome)
}

// Tells what the live queries of a session announce.
fn announce(session: &Embedded, cells: &mut u64, answers: &mut u64)
    ensures { (s : State) → StandsFor session.now.session s → record { cells = cells.new; answers = answers.new } ≡ announced_by s.queries }
{
    let announced = session.announced();
    *cells = announced.cells;
    *answers = announced.answers;
}

/// Returns the number of these functions: it grows where one of them changes.
#[unsafe(no_mangle)]
pub extern "C" fn bq_abi() -> u32
    ensures { result ≡ 2 }
{
    ABI
}

/// Opens a session that may take so many rows, 1 to 2^40, and whose live queries have at most so many pages together, 1 to 16,384, or 0 for
/// as many. It answers a line only while fewer than `most` bytes of replies wait: 0. There is no memory: 6. The handle has a session, or the
/// number of rows or pages is another: 2.
#[unsafe(no_mangle)]
pub extern "C" fn bq_open(
    alloc: Global,
    handle: &mut Handle,
    rows: u64,
    pages: u32,
    most: usize,
) -> u32
    ensures { Opens result rows pages most handle.old.value handle.new.value }
{
    if rows == 0 || rows > MOST_ROWS {
        return 2;
    }
    if pages > u32::from(MOST_PAGES) {
        return 2;
    }
    if !handle.is_closed() {
        return 2;
    }
    let Ok(session) = Embedded::open(alloc, rows, pages_for(pages), most) else {
        return 6;
    };
    match Box::new(alloc, session) {
        Ok(boxed) => {
            let none = replace(handle, Handle::of_parts(Parts::of(boxed)));
            none.discard();
            0
        }
        Err(_) => 6,
    }
}

/// Answers the lines of a text, each of which ends with LF, whose replies wait then: 0. The text ends inside a line: 3. A reply broke off
/// for want of memory: 5. No memory was found for what a line creates: 6. The session takes no more text: 7. As many bytes of replies
/// wait as may: 8. No memory was found for replies: 9. The handle has no session: 2. It tells how many bytes of the text were taken, and
/// how many bytes of replies wait then.
#[unsafe(no_mangle)]
pub extern "C" fn bq_feed(
    handle: &mut Handle,
    text: &[u8],
    taken: &mut usize,
    wait: &mut usize,
) -> u32
    ensures fed { Feeds result text.now taken.new handle.old.value handle.new.value }
    ensures told { wait.new ≡ waiting handle.new.value }
{
    if handle.is_closed() {
        *taken = 0;
        *wait = 0;
        return 2;
    }
    feed(handle.value(), text, taken, wait)
}

/// Copies all replies that wait to the front of the room for them: 0. There is room for less, and nothing was copied: 1. The handle has no
/// session: 2. It tells how many bytes wait. They go on waiting.
#[unsafe(no_mangle)]
pub extern "C" fn bq_replies(handle: &mut Handle, out: &mut [u8], wait: &mut usize) -> u32
    ensures given { Gives result handle.old.value out.old out.new }
    ensures kept { handle.new.value ≡ handle.old.value }
    ensures told { wait.new ≡ waiting handle.old.value }
{
    *wait = 0;
    if handle.is_closed() {
        return 2;
    }
    let session = handle.value();
    *wait = session.replies().len();
    if copy(session.replies(), out) { 0 } else { 1 }
}

/// Clears the replies that wait: 0. The handle has no session: 2.
#[unsafe(no_mangle)]
pub extern "C" fn bq_clear(handle: &mut Handle) -> u32
    ensures { Clears result handle.old.value handle.new.value }
{
    if handle.is_closed() {
        return 2;
    }
    handle.value().clear();
    0
}

/// Tells the sums of the cells and of the answers that the live queries announce: 0. The handle has no session: 2, and both are 0.
#[unsafe(no_mangle)]
pub extern "C" fn bq_announced(handle: &mut Handle, cells: &mut u64, answers: &mut u64) -> u32
    ensures told { Announces result handle.old.value cells.new answers.new }
    ensures kept { handle.new.value ≡ handle.old.value }
{
    *cells = 0;
    *answers = 0;
    if handle.is_closed() {
        return 2;
    }
    announce(handle.value(), cells, answers);
    0
}

/// Closes the session, if the handle has one.
#[unsafe(no_mangle)]
pub extern "C" fn bq_close(alloc: Global, handle: &mut Handle)
    ensures { handle.new.value ≡ None }
{
    if handle.is_closed() {
        return;
    }
    let old = replace(handle, Handle::closed());
    drop(old.into_parts(alloc).into_box());
}
