//! The laws, as public functions without a body.
ghost use Rattle.exec_registry.specs.Passed.{SparedRowsPass};
ghost use Rattle.exec_registry.specs.Sound.{LiveQueriesAreSound, LiveQueriesAreGiven};

/// Each live query that a sound registry stands for has an accepted plan, and cells and printed tuples that fit it.
pub fn live_queries_are_sound()
    ensures { LiveQueriesAreSound }
{}

/// To no live query were more rows given than to what the registry keeps of it.
pub fn live_queries_are_given()
    ensures { LiveQueriesAreGiven }
{}

/// Where no answer waits, a row of a stream of which each live query refuses each row is taken by counting it: none of them answers it, and
/// the registry stands for the live queries with the row.
pub fn spared_rows_pass()
    ensures { SparedRowsPass }
{}
