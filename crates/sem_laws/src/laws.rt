//! The laws, as public functions without a body.
ghost use Rattle.sem_laws.specs.Admitting.{AdmissionIsExact};
ghost use Rattle.sem_laws.specs.Places.{PlacesAreInverse, AdmittedRowsHavePlaces, BoxesAreApart, SynopsisHasCells, CellsAreRead};
ghost use Rattle.sem_laws.specs.Plans.{PartsAreCounted, HasOnePlan, HasOneVerdict, RangesAreExact, FreeDimsAreExact, SharesAreGreatest};
ghost use Rattle.sem_laws.specs.Probing.{PlansAreWalkable, ChoicesGoByValues, WalksFindAll};
ghost use Rattle.sem_laws.specs.Cases.{PremisesAreMet, ExtremesDecide, CountsMultiply, OneTableForAllParts, NumbersAreThese};
ghost use Rattle.sem_laws.specs.HotRooms.{HotRooms};
ghost use Rattle.sem_laws.specs.SoftCases.{SoftComparisons};
ghost use Rattle.sem_laws.specs.BothForms.{BothFormsAnswerAlike};
ghost use Rattle.sem_laws.specs.DomainCases.{DomainsBound, DomainsArePlanned, RowsMustKeep};
ghost use Rattle.sem_laws.specs.Sufficiency.{ReadingsSuffice, SynopsisIsRead, SynopsisSuffices, FutureIsDetermined, ExtremesAreExact, ExtremesAreAttained};
ghost use Rattle.sem_laws.specs.Growth.{InsertsRow, SynopsesMerge, RowsMerge, PrintedGrows, AnyInterleaving};
ghost use Rattle.sem_laws.specs.Sharing.{PlansHaveBoxes, SynopsesAreOfBoxes, BoxesAreRead, SharedCellsAgree, BoxesMerge, BasesGrow, RowsMergeIn, BoxesMeetWhole, BoxesFixCells, SharedSynopsisSuffices, HasOneSharedPlan, BoxesGrowByOne, SharedPlansExist};
ghost use Rattle.sem_laws.specs.SharedCases.{BoxesAreMovedTogether, CellsAreShared};
ghost use Rattle.sem_laws.specs.Bases.{BasesKeepOn, BasesStandForHistories};
ghost use Rattle.sem_laws.specs.Closed.{CellsStayOrTurn, SaturatedCellsAnswerNothingNew, CellsStaySaturated, TablesStayClosed};
ghost use Rattle.sem_laws.specs.ClosedCases.{LoadedCellsAreWalked};
ghost use Rattle.sem_laws.specs.Rooms.{TableHasRoom, WaitingFits, CountsFit, WaitingCountsFit, CellsFit, AnswersAreCounted};
ghost use Rattle.sem_laws.specs.ServingLaws.{ServingPlansSuffice, PlainPlansServe};

/// A combination is in a part exactly where the part admits each of its rows and the links hold.
pub fn admission_is_exact()
    ensures { AdmissionIsExact }
{}

/// Places in a box and combinations of dim values are one to one.
pub fn places_are_inverse()
    ensures { PlacesAreInverse }
{}

/// The dim values of a row that a part admits lie in its box.
pub fn admitted_rows_have_places()
    ensures { AdmittedRowsHavePlaces }
{}

/// Two boxes have no cell in common, and all lie within the cells of the plan.
pub fn boxes_are_apart()
    ensures { BoxesAreApart }
{}

/// A synopsis has as many cells as are announced.
pub fn synopsis_has_cells()
    ensures { SynopsisHasCells }
{}

/// As many cells as are announced are fixed by what stands at each place of each box.
pub fn cells_are_read()
    ensures { CellsAreRead }
{}

/// The cells of a history, however they are laid out, and the printed tuples tell the answers to every next row.
pub fn readings_suffice()
    ensures { ReadingsSuffice }
{}

/// The synopsis, read by the bases of the plan, gives the cells of the history.
pub fn synopsis_is_read()
    ensures { SynopsisIsRead }
{}

/// The synopsis and the printed tuples of a history tell the answers to every next row.
pub fn synopsis_suffices()
    ensures { SynopsisSuffices }
{}

/// Equal synopses and equal printed tuples are answered alike for good.
pub fn future_is_determined()
    ensures { FutureIsDetermined }
{}

/// The extreme that a cell keeps is the least, or the greatest, value of its rows.
pub fn extremes_are_exact()
    ensures { ExtremesAreExact }
{}

/// Some row of a cell has all the values that the cell gives it.
pub fn extremes_are_attained()
    ensures { ExtremesAreAttained }
{}

/// A row changes one cell of its box, and no other.
pub fn inserts_row()
    ensures { InsertsRow }
{}

/// The synopsis of one history after another is the merge of their synopses.
pub fn synopses_merge()
    ensures { SynopsesMerge }
{}

/// Merging one row into any cells changes one cell of each box that the row lies in, and no other.
pub fn rows_merge()
    ensures { RowsMerge }
{}

/// The printed tuples grow by the new answers.
pub fn printed_grows()
    ensures { PrintedGrows }
{}

/// Over a whole history the answers are those of the nested product, whatever the order between streams.
pub fn any_interleaving()
    ensures { AnyInterleaving }
{}

/// A table of as many entries as are announced has room for every answer.
pub fn table_has_room()
    ensures { TableHasRoom }
{}

/// The announced answers are the number of the tuples in the ranges of the parts.
pub fn answers_are_counted()
    ensures { AnswersAreCounted }
{}

/// Whatever the cells hold, what waits has room in the table.
pub fn waiting_fits()
    ensures { WaitingFits }
{}

/// A count of one answer fits 128 bits.
pub fn counts_fit()
    ensures { CountsFit }
{}

/// Without DISTINCT what waits for one tuple fits 128 bits.
pub fn waiting_counts_fit()
    ensures { WaitingCountsFit }
{}

/// A query has more than n parts exactly where the list of its parts is longer.
pub fn parts_are_counted()
    ensures { PartsAreCounted }
{}

/// A query of which no condition is violated has one plan.
pub fn one_plan()
    ensures { HasOnePlan }
{}

/// There is one verdict on a query.
pub fn one_verdict()
    ensures { HasOneVerdict }
{}

/// The range of a selected column goes from its least to its greatest value in the part.
pub fn ranges_are_exact()
    ensures { RangesAreExact }
{}

/// The links of a part tell which dims are fixed.
pub fn free_dims_are_exact()
    ensures { FreeDimsAreExact }
{}

/// The share of a part is the greatest over the arriving stream.
pub fn shares_are_greatest()
    ensures { SharesAreGreatest }
{}

/// Each part of a plan can be walked, within its share of the work.
pub fn plans_are_walkable()
    ensures { PlansAreWalkable }
{}

/// The cells to choose from can be listed by the values of the dims.
pub fn choices_go_by_values()
    ensures { ChoicesGoByValues }
{}

/// A walk by places of FROM finds what the cells answer, where the part admits the row, and else they answer nothing.
pub fn walks_find_all()
    ensures { WalksFindAll }
{}

/// Each cell is of its kind, with a count of at most 2^40.
pub fn cells_fit()
    ensures { CellsFit }
{}

/// A worked query and its plan meet all that the laws ask.
pub fn premises_are_met()
    ensures { PremisesAreMet }
{}

/// A worked query with DISTINCT that meets all that the laws ask, and whose answers the extremes decide.
pub fn extremes_decide()
    ensures { ExtremesDecide }
{}

/// A worked query over three streams, whose counts multiply.
pub fn counts_multiply()
    ensures { CountsMultiply }
{}

/// A worked query with a tuple that two parts give: it is answered once.
pub fn one_table_for_all_parts()
    ensures { OneTableForAllParts }
{}

/// Two worked queries, one with an equality and one without, and their numbers.
pub fn numbers_are_these()
    ensures { NumbersAreThese }
{}

/// A worked query of 25 parts: it is accepted with these numbers, and answers four rows so.
pub fn hot_rooms()
    ensures { HotRooms }
{}

/// Worked queries with soft comparisons, within one stream and between streams.
pub fn soft_comparisons()
    ensures { SoftComparisons }
{}

/// Worked queries over a stream whose column has a domain.
pub fn domains_bound()
    ensures { DomainsBound }
{}

/// A worked query that selects a column with a domain, and its plan, meet all that the laws ask.
pub fn domains_are_planned()
    ensures { DomainsArePlanned }
{}

/// To a row outside the domains the cells do not answer what the rows do: the worked rows say which keep to them.
pub fn rows_must_keep()
    ensures { RowsMustKeep }
{}

/// The boxes of a plan are laid out by its bases, and the different boxes by those of a plan with shared cells.
pub fn plans_have_boxes()
    ensures { PlansHaveBoxes }
{}

/// The synopsis of a plan is that of its boxes.
pub fn synopses_are_of_boxes()
    ensures { SynopsesAreOfBoxes }
{}

/// Cells that are laid out by boxes are read by the bases of the plan.
pub fn boxes_are_read()
    ensures { BoxesAreRead }
{}

/// Shared cells are those of the synopsis.
pub fn shared_cells_agree()
    ensures { SharedCellsAgree }
{}

/// The cells of one history after another are the merge of the cells of both, whichever boxes they are.
pub fn boxes_merge()
    ensures { BoxesMerge }
{}

/// A history is merged into any cells at once or one part after the other.
pub fn bases_grow()
    ensures { BasesGrow }
{}

/// Merging one row into any cells changes one cell of each box that the row lies in, and no other.
pub fn rows_merge_in()
    ensures { RowsMergeIn }
{}

/// Two boxes have a cell in common only where they are the same.
pub fn boxes_meet_whole()
    ensures { BoxesMeetWhole }
{}

/// Cells are fixed by what stands in each box.
pub fn boxes_fix_cells()
    ensures { BoxesFixCells }
{}

/// The shared synopsis and the printed tuples of a history tell the answers to every next row.
pub fn shared_synopsis_suffices()
    ensures { SharedSynopsisSuffices }
{}

/// A base is kept row by row, and going on from what was kept is going on.
pub fn bases_keep_on()
    ensures { BasesKeepOn }
{}

/// After creation what is kept is the base of the history, and a base answers what its history answers.
pub fn bases_stand_for_histories()
    ensures { BasesStandForHistories }
{}

/// A query of which no condition is violated has one plan with shared cells.
pub fn one_shared_plan()
    ensures { HasOneSharedPlan }
{}

/// A query whose parts have plans has a plan with shared cells.
pub fn shared_plans_exist()
    ensures { SharedPlansExist }
{}

/// The boxes of a worked query of twelve parts begin there, where cells are shared.
#[tactic(auto, unfolding(sem_query::specs::Parts::pairs))]
pub fn boxes_are_moved_together()
    ensures { BoxesAreMovedTogether }
{}

/// A worked query of twelve parts with shared cells: it is accepted with these numbers, and is answered as without them.
pub fn cells_are_shared()
    ensures { CellsAreShared }
{}

/// The different boxes of a plan are told one after the other.
pub fn boxes_grow_by_one()
    ensures { BoxesGrowByOne }
{}

/// A query gives the same answers to every history whether it is compact or not.
pub fn both_forms_answer_alike()
    ensures { BothFormsAnswerAlike }
{}

/// With DISTINCT a row leaves the cell that it falls into as it is, or the cell holds with it what it would hold of the row alone.
pub fn cells_stay_or_turn()
    ensures { CellsStayOrTurn }
{}

/// With DISTINCT a row that leaves a saturated cell as it is is answered nothing in its part that is not in the table.
pub fn saturated_cells_answer_nothing_new()
    ensures { SaturatedCellsAnswerNothingNew }
{}

/// With DISTINCT a row leaves saturated cells saturated, and saturates its own where that holds with it what it would hold of the row alone.
pub fn cells_stay_saturated()
    ensures { CellsStaySaturated }
{}

/// With DISTINCT a table is closed over the cells after creation, and stays so with every row.
pub fn tables_stay_closed()
    ensures { TablesStayClosed }
{}

/// A worked base whose table is not closed: a row that leaves all cells as they are is answered.
pub fn loaded_cells_are_walked()
    ensures { LoadedCellsAreWalked }
{}

/// Where the parts of a plan serve and take each combination once, the cells of a history and the printed tuples tell the answers to the next row.
pub fn serving_plans_suffice()
    ensures { ServingPlansSuffice }
{}

/// The plan of a query that violates no condition is such a plan.
pub fn plain_plans_serve()
    ensures { PlainPlansServe }
{}
