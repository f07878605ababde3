//! States that keep the same are stood for and answered alike.
ghost use Rattle.law_resume.specs.Continuing.{ContinuesAlike, ResumedContinuesAlike};
ghost use Rattle.law_resume.specs.Reached.{SessionsStandForReached, ReachedStatesAreRestorable, CheckpointOfReached, ReachedCheckpointsAreShort, ReachedCheckpointsHaveFewLines, CheckpointContinuesTexts};
ghost use Rattle.law_resume.specs.Restores.{StreamsAreRestored, KeptIsRestored, QueriesAreRestored, CheckpointRestores, CheckpointGoesOn};
ghost use Rattle.law_resume.specs.Small.{CheckpointLinesAreShort};
ghost use Rattle.law_resume.specs.Sound.{StatesAreSound};

/// Each state that a session stands for is sound: its live queries are such as were accepted, on bases of the right size.
pub fn states_are_sound()
    ensures { StatesAreSound }
{}

/// From states that keep the same, lines in which no RESUME line stands before a taken row come to the same answers, and the replies
/// are the same but for the number of the line in a refusal.
pub fn continues_alike()
    ensures { ContinuesAlike }
{}

/// A state that keeps the same as a sound one, to which lines lead from the first state on before a row is taken, goes on as that one
/// does, and that one as it does.
pub fn resumed_continues_alike()
    ensures { ResumedContinuesAlike }
{}

/// Each line of a checkpoint has at most 1,024 bytes, where the live queries keep integers of 64 bits.
pub fn checkpoint_lines_are_short()
    ensures { CheckpointLinesAreShort }
{}

/// The lines of a checkpoint that create the streams of a catalog lead from the first state, whatever its number of pages is, to one with these
/// streams and nothing else.
pub fn streams_are_restored()
    ensures { StreamsAreRestored }
{}

/// The lines that tell what is kept of a live query lead from a state in which it was just created to one in which it goes on from that.
pub fn kept_is_restored()
    ensures { KeptIsRestored }
{}

/// The lines that create live queries again lead from a state with none to one in which each was just created.
pub fn queries_are_restored()
    ensures { QueriesAreRestored }
{}

/// From the first state with as many pages on, the lines of a checkpoint lead to a state that keeps the same as the one that it tells of, where no
/// lock stands; and none of them is refused.
pub fn checkpoint_restores()
    ensures { CheckpointRestores }
{}

/// The state to which the lines of a checkpoint lead goes on as the one that they tell of, and that one as it does.
pub fn checkpoint_goes_on()
    ensures { CheckpointGoesOn }
{}

/// After each line, a session that stood for a state that lines lead to from the first one stands for such a state again.
pub fn sessions_stand_for_reached()
    ensures { SessionsStandForReached }
{}

/// Each state that lines lead to from the first one is sound, and its streams and live queries can be restored by lines.
pub fn reached_states_are_restorable()
    ensures { ReachedStatesAreRestorable }
{}

/// From the first state with as many pages on, the lines of the checkpoint of such a state without a lock lead to one that goes on as it does, and it
/// as that one does.
pub fn checkpoint_of_reached()
    ensures { CheckpointOfReached }
{}

/// Each line of the checkpoint of such a state has at most 1,024 bytes.
pub fn reached_checkpoints_are_short()
    ensures { ReachedCheckpointsAreShort }
{}

/// They are at most the cells and answers that the live queries announce, and 200.
pub fn reached_checkpoints_have_few_lines()
    ensures { ReachedCheckpointsHaveFewLines }
{}

/// A session that reads the reply to `CHECKPOINT` in such a state without a lock, and then the rest of a text, replies to the rest as that state does, but
/// for the numbers of refused lines.
pub fn checkpoint_continues_texts()
    ensures { CheckpointContinuesTexts }
{}
