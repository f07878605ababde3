//! Laws of the definitions, as public functions without a body: the clause is the law.
ghost use Rattle.cmd_session.specs.Laws.{HasOneText, AnswersPieceByPiece};
ghost use Rattle.cmd_session.specs.Restoring.{AlikeStatesHaveOneCheckpoint, CheckpointsHaveFewLines, StandsAlike};

/// The lines of a text determine its session text.
pub fn one_text()
    ensures { HasOneText }
{}

/// The session text of a text that is cut at a line end is the text of the first piece, and then the replies to the second
/// from the state that the first leads to.
pub fn text_of_pieces()
    ensures { AnswersPieceByPiece }
{}

/// States that keep the same have one checkpoint.
pub fn alike_states_have_one_checkpoint()
    ensures { AlikeStatesHaveOneCheckpoint }
{}

/// A session that stands for a state stands for each state that keeps the same, with its own number of lines and its own mark whether
/// a row line was taken.
pub fn stands_alike()
    ensures { StandsAlike }
{}

/// The lines of a checkpoint are at most the cells and answers that the live queries announce, and 200.
pub fn checkpoints_have_few_lines()
    ensures { CheckpointsHaveFewLines }
{}
