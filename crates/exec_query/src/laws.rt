//! The laws, as public functions without a body.
ghost use Rattle.exec_query.specs.Bases.{TakingKeepsOn, BasesAndHistories};
ghost use Rattle.exec_query.specs.Passing.{RefusedRowsPass};
ghost use Rattle.exec_query.specs.Runs.{RunsAnswerAll, RunsAgree, StandingIsReady};

/// Over a run of rows each tuple waits as often as it is an answer, with DISTINCT once.
pub fn runs_answer_all()
    ensures { RunsAnswerAll }
{}

/// Runs of the same rows per stream answer the same, whatever the order between streams.
pub fn runs_agree()
    ensures { RunsAgree }
{}

/// An executor that stands for a history can take one row more.
pub fn standing_is_ready()
    ensures { StandingIsReady }
{}

/// An executor that took a row goes on from each base that it stood for.
pub fn taking_keeps_on()
    ensures { TakingKeepsOn }
{}

/// A base that is that of a history, with rows since, is the whole history; a history is the first base with its rows; and what was kept
/// can be the base.
pub fn bases_and_histories()
    ensures { BasesAndHistories }
{}

/// Where no answer waits, a row that is refused is taken by counting it alone.
pub fn refused_rows_pass()
    ensures { RefusedRowsPass }
{}
