//! What is found for the query of a script.
ghost use Rattle.std.specs.Prelude.{◌≡◌, ◌≤◌, false, IsTrue, IsFalse, Some, length};
ghost use Rattle.sem_query.specs.declared.decision.Decision.TheVariants as decisions;
ghost use Rattle.sem_query.specs.Query.{IsWithinLimits};
ghost use Rattle.sem_query.specs.Parts.{AreParts, sign_lists};
ghost use Rattle.sem_query.specs.Verdict.{IsDecision};
ghost use Rattle.sem_forms.specs.Forms.{HasWholeForm};
ghost use Rattle.sem_forms.specs.Parts.{HasTooManyParts, IsFormViolation};
ghost use Rattle.sql_parser.specs.Resolution.{HasNamed};
ghost use Rattle.cmd_lower.specs.Formed as formed;
ghost use Rattle.cmd_lower.specs.declared.form.Families.TheVariants as families;
ghost use Rattle.cmd_lower.specs.declared.finding.LowerFinding.TheVariants.{Nothing};
ghost use Rattle.cmd_lower.specs.Finding.{NeedsManyWithDistinct, IsFinding};
ghost use Rattle.cmd_lower.specs.Formed.{BreaksOne, IsTooLarge, FewAreEnough};
ghost use Rattle.cmd_lower.specs.Found as found;
ghost use Rattle.cmd_lower.specs.Found.{FindsFor};

use crate::form::{Families, LowerForm};
use fam_fooling_sets::{Family, FoundFamily, LowerError};
use fam_text::{family, found_family};
use plan_conditions::decide;
use plan_forms::{PartsRefusal, parts_plan, whole_form};
use plan_motion::has_motion;
use plan_parts::{SplitError, split};
use sem_query::{Attr, Condition, Decision, Part, Query};
use sql_replies::Refusal;
use sql_script::{Script, ScriptEnd};
use std::alloc::Global;

/// Why a query has no family.
#[derive(Clone, Copy, Debug, PartialEq, Eq)]
pub enum NoFamily {
    /// It breaks no condition.
    Bounded,
    /// It breaks a condition, and yet few states are enough.
    Few,
    /// It is compact, breaks a condition by its form and needs many states, and no family was found.
    Form,
    /// The first condition that it breaks is the second, a pair lies between streams, and no family was found, or families are made for the first two
    /// conditions alone.
    C2,
    /// The first condition that it breaks is the third, and no family is made for that; or it is not compact, a column has a domain or a pair lies
    /// between streams, and no family was found.
    C3,
}

/// What is found for a query.
#[derive(Drop)]
pub enum LowerFinding {
    /// There is no family.
    Nothing(NoFamily),
    /// A family for the condition that this part breaks at a column.
    Rows {
        part: u32,
        condition: Condition,
        attr: Attr,
        family: Family,
    },
}

// Whether a query is compact and no filter. It is judged by its form then.
fn goes_by_form(query: &Query) -> bool
    ensures { result ≡ formed.goes_by_form query.now }
{
    query.compact() && !query.is_filter()
}

// What the decision by the plain parts and the answer to the call for a family come to.
fn finding_of(
    decision: Decision,
    answer: Result<Family, LowerError>,
) -> Result<LowerFinding, ScriptEnd>
    ensures { result ≡ found.finding_of decision answer }
{
    match decision {
        Decision::Bounded => Ok(LowerFinding::Nothing(NoFamily::Bounded)),
        Decision::Violation {
            part,
            condition,
            attr,
        } => match answer {
            Ok(family) => Ok(LowerFinding::Rows {
                part,
                condition,
                attr,
                family,
            }),
            Err(LowerError::Bounded) => Ok(LowerFinding::Nothing(NoFamily::Bounded)),
            Err(LowerError::C2) => Ok(LowerFinding::Nothing(NoFamily::C2)),
            Err(LowerError::C3) => Ok(LowerFinding::Nothing(NoFamily::C3)),
            Err(LowerError::Memory) => Err(ScriptEnd::Memory),
        },
    }
}

// Whether the first condition that is broken is one for which no families are made.
fn is_left_out(families: Families, decision: Decision) -> bool
    ensures { result ≡ found.is_left_out families decision }
{
    match families {
        Families::All => false,
        Families::FirstTwo => match decision {
            Decision::Bounded => false,
            Decision::Violation {
                part: _,
                condition,
                attr: _,
            } => match condition {
                Condition::C1 => false,
                Condition::C2 => false,
                Condition::C3 => true,
            },
        },
    }
}

// How a script ends whose query has too many parts.
fn refused(script: &Script) -> ScriptEnd
    ensures { result ≡ found.refused script.now }
{
    ScriptEnd::Refused {
        line: script.line,
        word: Refusal::Limit,
    }
}

// Whether with DISTINCT no values of a query move that breaks a condition. Few states are enough then, and many are needed else.
fn is_still(query: &Query) -> bool
    requires { BreaksOne query.now }
    ensures few { IsTrue result → FewAreEnough query.now }
    ensures many { IsFalse result → NeedsManyWithDistinct query.now }
    ensures limits { IsWithinLimits query.now }
{
    // No effect at run time. The proof reads from this call that the query is within the limits.
    let _atoms = query.atoms();
    if has_motion(query) {
        return false;
    }
    query.distinct()
}

// A family whose rows move in equal steps, for what the plain parts break, or why there is none: few states are enough, or this reason.
fn find_moved(
    alloc: Global,
    script: &Script,
    form: LowerForm,
    part: u32,
    condition: Condition,
    attr: Attr,
    reason: NoFamily,
) -> Result<LowerFinding, ScriptEnd>
    requires named { HasNamed script.now.catalog script.now.query }
    requires plain { IsFalse (formed.goes_by_form script.now.query) }
    requires few { ¬ IsTooLarge script.now.query }
    requires all { form.families ≡ families.All }
    requires broken { IsDecision script.now.query (decisions.Violation part condition attr) }
    requires reason { NeedsManyWithDistinct script.now.query → IsFinding script.now.catalog script.now.query form (Nothing reason) }
    ensures { FindsFor result script.now form }
{
    if is_still(&script.query) {
        return Ok(LowerFinding::Nothing(NoFamily::Few));
    }
    match found_family(
        alloc,
        &script.query,
        condition,
        attr,
        &script.catalog,
        form.rows,
    ) {
        Ok(Some(FoundFamily { attr, family })) => Ok(LowerFinding::Rows {
            part,
            condition,
            attr,
            family,
        }),
        Ok(None) => Ok(LowerFinding::Nothing(reason)),
        Err(_) => Err(ScriptEnd::Memory),
    }
}

// The same for what a decision says, where families are made for all three conditions; else this reason.
fn find_decided(
    alloc: Global,
    script: &Script,
    form: LowerForm,
    decision: Decision,
    reason: NoFamily,
) -> Result<LowerFinding, ScriptEnd>
    requires named { HasNamed script.now.catalog script.now.query }
    requires plain { IsFalse (formed.goes_by_form script.now.query) }
    requires few { ¬ IsTooLarge script.now.query }
    requires decision { IsDecision script.now.query decision }
    requires reason { (form.families ≡ families.All → NeedsManyWithDistinct script.now.query) → IsFinding script.now.catalog script.now.query form (Nothing reason) }
    ensures { FindsFor result script.now form }
{
    match (form.families, decision) {
        (Families::FirstTwo, _) => Ok(LowerFinding::Nothing(reason)),
        (Families::All, Decision::Bounded) => Ok(LowerFinding::Nothing(NoFamily::Bounded)),
        (
            Families::All,
            Decision::Violation {
                part,
                condition,
                attr,
            },
        ) => find_moved(alloc, script, form, part, condition, attr, reason),
    }
}

// The family of the query of a script, or why there is none, by these plain parts of the query.
fn find_in(
    alloc: Global,
    script: &Script,
    parts: &[Part],
    form: LowerForm,
) -> Result<LowerFinding, ScriptEnd>
    requires named { HasNamed script.now.catalog script.now.query }
    requires plain { IsFalse (formed.goes_by_form script.now.query) }
    requires parts { AreParts script.now.query (sign_lists parts.now) }
    requires few { length parts.now ≤ 4096 }
    ensures { FindsFor result script.now form }
{
    let decision = decide(&script.query, parts);
    if is_left_out(form.families, decision) {
        return Ok(LowerFinding::Nothing(NoFamily::C3));
    }
    match family(
        alloc,
        &script.query,
        parts,
        &decision,
        &script.catalog,
        form.rows,
    ) {
        Ok(rows) => finding_of(decision, Ok(rows)),
        Err(LowerError::C2) => find_decided(alloc, script, form, decision, NoFamily::C2),
        Err(LowerError::C3) => find_decided(alloc, script, form, decision, NoFamily::C3),
        Err(LowerError::Bounded) => Ok(LowerFinding::Nothing(NoFamily::Bounded)),
        Err(LowerError::Memory) => Err(ScriptEnd::Memory),
    }
}

// The same by the plain parts.
fn find_by_parts(alloc: Global, script: &Script, form: LowerForm) -> Result<LowerFinding, ScriptEnd>
    requires named { HasNamed script.now.catalog script.now.query }
    requires plain { IsFalse (formed.goes_by_form script.now.query) }
    ensures { FindsFor result script.now form }
{
    match split(alloc, &script.query) {
        Ok(parts) => find_in(alloc, script, &parts, form),
        Err(SplitError::TooManyParts) => Err(refused(script)),
        Err(SplitError::Memory) => Err(ScriptEnd::Memory),
    }
}

// The family of a query that breaks a condition by its split form.
fn find_for(
    alloc: Global,
    script: &Script,
    form: LowerForm,
    part: u32,
    condition: Condition,
    attr: Attr,
) -> Result<LowerFinding, ScriptEnd>
    requires named { HasNamed script.now.catalog script.now.query }
    requires formed { IsTrue (formed.goes_by_form script.now.query) }
    requires few { ¬ HasTooManyParts script.now.query }
    requires broken { IsFormViolation script.now.query (Some (record { part = part; condition = condition; attr = attr })) }
    ensures { FindsFor result script.now form }
{
    let decision = Decision::Violation {
        part,
        condition,
        attr,
    };
    if is_left_out(form.families, decision) {
        return Ok(LowerFinding::Nothing(NoFamily::C3));
    }
    if is_still(&script.query) {
        return Ok(LowerFinding::Nothing(NoFamily::Few));
    }
    match found_family(
        alloc,
        &script.query,
        condition,
        attr,
        &script.catalog,
        form.rows,
    ) {
        Ok(Some(FoundFamily { attr, family })) => Ok(LowerFinding::Rows {
            part,
            condition,
            attr,
            family,
        }),
        Ok(None) => Ok(LowerFinding::Nothing(NoFamily::Form)),
        Err(_) => Err(ScriptEnd::Memory),
    }
}

// The same for a compact query, by its split form.
fn find_by_split(alloc: Global, script: &Script, form: LowerForm) -> Result<LowerFinding, ScriptEnd>
    requires named { HasNamed script.now.catalog script.now.query }
    requires formed { IsTrue (formed.goes_by_form script.now.query) }
    requires unfit { ¬ HasWholeForm script.now.query }
    ensures { FindsFor result script.now form }
{
    match parts_plan(alloc, &script.query, false) {
        Ok(_plan) => Ok(LowerFinding::Nothing(NoFamily::Bounded)),
        Err(
            PartsRefusal::Limit {
                which: _which,
                value: _value,
            },
        ) => Ok(LowerFinding::Nothing(NoFamily::Bounded)),
        Err(
            PartsRefusal::Violation {
                part,
                condition,
                attr,
            },
        ) => find_for(alloc, script, form, part, condition, attr),
        Err(PartsRefusal::TooManyParts) => Err(refused(script)),
        Err(PartsRefusal::Memory) => Err(ScriptEnd::Memory),
    }
}

// The same for a query that is judged by its form: it breaks no condition where its whole form fits.
fn find_by_form(alloc: Global, script: &Script, form: LowerForm) -> Result<LowerFinding, ScriptEnd>
    requires named { HasNamed script.now.catalog script.now.query }
    requires formed { IsTrue (formed.goes_by_form script.now.query) }
    ensures { FindsFor result script.now form }
{
    match whole_form(alloc, &script.query) {
        Ok(Some(_plan)) => Ok(LowerFinding::Nothing(NoFamily::Bounded)),
        Ok(None) => find_by_split(alloc, script, form),
        Err(_) => Err(ScriptEnd::Memory),
    }
}

/// Returns the family that is asked for of the query of a script, or why there is none. A query of more than 4,096 parts is refused at its line, as is a
/// compact one whose whole form does not fit, with more split pairs or split parts than a query may have; or no memory is found.
pub fn find(alloc: Global, script: &Script, form: LowerForm) -> Result<LowerFinding, ScriptEnd>
    requires { HasNamed script.now.catalog script.now.query }
    ensures { FindsFor result script.now form }
{
    if goes_by_form(&script.query) {
        find_by_form(alloc, script, form)
    } else {
        find_by_parts(alloc, script, form)
    }
}
