//! A session and its replies.
ghost use Rattle.std.specs.Prelude.{◌≡◌, ◌+◌, ◌-◌, ◌<◌, ◌≤◌, ◌^◌, ◌⊎◌, [], true, false, length, IfOk, IsTrue, IsFalse};
ghost use Rattle.io_row_reader.specs.Ahead.{IsEnded};
ghost use Rattle.cmd_session.specs.State.{State};
ghost use Rattle.cmd_session.specs.Session.{StandsFor};
ghost use Rattle.cmd_session.specs.Run.{HasState};
ghost use Rattle.lib_session.specs.Embedded.{stops};
ghost use Rattle.lib_session.specs.Fed.{AreWholeLines, Feeds};

use crate::answering::answer_text;
use crate::outcome::{Fed, FeedOutcome};
use crate::replies::Replies;
use cmd_session::{Announced, Session};
use exec_pool::Steps;
use std::alloc::{AllocError, Global};
use std::marker::{Brand, Model};
use std::sync::ledger::{Blank, Ledger};

/// A session, the replies that were not cleared, how many bytes of them may be held before a line is answered, how many bytes of text
/// were taken, and whether it stopped.
pub struct Embedded {
    session: Session,
    replies: Replies,
    most: usize,
    fed: u64,
    stopped: bool,
}

impl Model for Embedded {
    ghost use Rattle.lib_session.specs.Embedded.{EmbeddedValue, IsKept};

    ghost Value = { EmbeddedValue };

    ghost view = { λ e. record { session = e.session; replies = e.replies.bytes.items; most = e.most; fed = e.fed; stopped = e.stopped } };

    ghost invariant = { λ e. IsKept e.session e.fed };
}

// Whether so many bytes can be counted, and those of a text.
fn can_count(bytes: u64, text: &[u8]) -> bool
    ensures counts { IsTrue result → bytes + length text.now < 2 ^ 64 }
    ensures cannot { IsFalse result → 2 ^ 64 ≤ bytes + length text.now }
{
    bytes <= u64::MAX - text.len() as u64
}

// Whether no line of a text lacks its LF.
fn are_whole_lines(text: &[u8]) -> bool
    ensures whole { IsTrue result → AreWholeLines text.now }
    ensures cut { IsFalse result → AreWholeLines text.now → ⊥ }
{
    text.is_empty() || text[text.len() - 1] == b'\n'
}

// Whether a session has stopped that was fed so.
fn has_stopped(outcome: FeedOutcome) -> bool
    ensures { result ≡ stops outcome }
{
    match outcome {
        FeedOutcome::Stopped => true,
        FeedOutcome::Done
        | FeedOutcome::Full
        | FeedOutcome::NoRoom
        | FeedOutcome::Memory
        | FeedOutcome::Cut
        | FeedOutcome::Ended => false,
    }
}

// Answers the lines of a text, and counts no steps.
fn answer_with<L: Ledger>(
    session: &mut Session,
    text: &[u8],
    replies: &mut Replies,
    most: usize,
    blank: Blank,
) -> Fed
    requires stands { HasState session.old }
    requires whole { AreWholeLines text.now }
    requires few { session.old.lines + length text.now < 2 ^ 64 }
    requires name { blank.name ≡ L.name }
    requires parts { blank.parts ≡ L.parts }
    requires two { 2 ≤ L.parts }
    ensures fed { (s : State) → StandsFor session.old s → Feeds result.outcome s text.now result.taken most replies.old.bytes.items replies.new.bytes.items session.new }
    ensures known { HasState session.new }
    ensures taken { result.taken ≤ length text.now }
    ensures lines { session.new.lines ≤ session.old.lines + result.taken }
{
    let mut steps = Steps::<L>::new(blank);
    answer_text(session, text, replies, most, &mut steps)
}

// The same with a ledger that is made here.
fn answer(session: &mut Session, text: &[u8], replies: &mut Replies, most: usize) -> Fed
    requires stands { HasState session.old }
    requires whole { AreWholeLines text.now }
    requires few { session.old.lines + length text.now < 2 ^ 64 }
    ensures fed { (s : State) → StandsFor session.old s → Feeds result.outcome s text.now result.taken most replies.old.bytes.items replies.new.bytes.items session.new }
    ensures known { HasState session.new }
    ensures taken { result.taken ≤ length text.now }
    ensures lines { session.new.lines ≤ session.old.lines + result.taken }
{
    answer_with::<Brand>(session, text, replies, most, Blank::new(2))
}

impl Embedded {
    ghost use Rattle.cmd_session.specs.Announced.{announced_by};
    ghost use Rattle.lib_session.specs.Embedded.{EmbeddedValue, IsOpened, TextFed};

    /// Opens a session with no streams, no queries and no rows, which may take so many rows, and whose live queries have at most so many
    /// pages together. A line is answered only where fewer than `most` bytes of replies are held.
    pub fn open(alloc: Global, rows: u64, pages: u16, most: usize) -> Result<Embedded, AllocError>
        requires some { 0 < rows }
        requires few { rows ≤ 2 ^ 40 }
        requires small { pages ≤ 16384 }
        ensures { IfOk result (IsOpened rows pages most) }
    {
        Ok(Embedded {
            session: Session::with_pages(alloc, rows, pages)?,
            replies: Replies {
                bytes: Vec::new(alloc),
                faults: 0,
            },
            most,
            fed: 0,
            stopped: false,
        })
    }

    /// Answers the lines of a text, one after another, and keeps the replies behind those that were not cleared. Each line ends with
    /// LF. It returns how that went and how many bytes of the text were taken; what was not taken may be fed later.
    #[tactic(auto, using(crate::proofs::Takings::text_fed))]
    pub fn feed(&mut self, text: &[u8]) -> Fed
        ensures { (s : State) → StandsFor self.old.session s → TextFed result.outcome s text.now result.taken self.old self.new }
    {
        if self.stopped {
            return Fed {
                outcome: FeedOutcome::Ended,
                taken: 0,
            };
        }
        if !can_count(self.fed, text) {
            return Fed {
                outcome: FeedOutcome::Ended,
                taken: 0,
            };
        }
        if !are_whole_lines(text) {
            return Fed {
                outcome: FeedOutcome::Cut,
                taken: 0,
            };
        }
        let fed = answer(&mut self.session, text, &mut self.replies, self.most);
        self.fed += fed.taken as u64;
        self.stopped = has_stopped(fed.outcome);
        fed
    }

    /// Returns the replies that were not cleared.
    pub fn replies(&self) -> &[u8]
        ensures { result.now ≡ self.now.replies }
    {
        &self.replies.bytes
    }

    /// Clears the replies.
    pub fn clear(&mut self)
        ensures { self.new ≡ record self.old { replies = [] } }
    {
        self.replies.bytes.clear();
    }

    /// Returns the sums of the cells and of the answers that the live queries announce, for every state that the session stands for.
    pub fn announced(&self) -> Announced
        ensures { (s : State) → StandsFor self.now.session s → result ≡ announced_by s.queries }
    {
        self.session.announced()
    }
}

impl Drop for Embedded {
    fn drop(self) {
        let Embedded {
            session,
            replies: _replies,
            most: _,
            fed: _,
            stopped: _,
        } = self;
        session.close();
    }
}
