//! The states in which a statement is read, and the transition that each token makes.
ghost use Rattle.std.specs.Prelude.{◌≡◌, Some, None, IsTrue, if◌then◌else◌};
ghost use Rattle.sql_parser.specs.declared.transitions.State.TheVariants as states;
ghost use Rattle.sql_parser.specs.declared.transitions.Action.TheVariants as actions;
ghost use Rattle.sql_parser.specs.Grammar as grammar;
ghost use Rattle.sql_parser.specs.Steps.{step, word_step, step_of};
ghost use Rattle.sql_parser.specs.Sections.{is_of_query, is_begun, is_in_columns, is_in_domain, is_in_query, is_in_select, is_on_left, is_on_right, is_in_resume, is_in_lock, is_at_end};

use sem_query::Op;
use sql_lexer::TokenKind;
use sql_text::Key;

/// How far a statement is read: what stands before the next token.
#[derive(Clone, Copy, Debug, PartialEq, Eq)]
pub enum State {
    Start,
    AfterCreate,
    AfterShared,
    AfterCompact,
    StreamName,
    OpenColumns,
    ColumnName,
    AfterColumn,
    DomainLow,
    FirstPoint,
    SecondPoint,
    DomainHigh,
    AfterDomain,
    QueryName,
    QueryAs,
    QuerySelect,
    FirstSelected,
    SelectedStream,
    SelectedPoint,
    SelectedColumn,
    AfterSelected,
    FromName,
    AfterFrom,
    AtomLeft,
    LeftPoint,
    LeftColumn,
    ColumnOp,
    RightAny,
    IntegerOp,
    RightStream,
    RightPoint,
    RightColumn,
    AfterAtom,
    ExplainName,
    AfterDrop,
    DropName,
    AfterResume,
    ResumeWhat,
    GivenRows,
    CellIndex,
    CellContent,
    TupleValue,
    AfterValue,
    AfterLock,
    AfterLockKey,
    LockStream,
    AfterLockStream,
    UnlockKey,
    Complete,
    Ended,
}

/// What a token adds to the statement.
#[derive(Clone, Copy, Debug, PartialEq, Eq)]
pub enum Action {
    Nothing,
    BeginExplain,
    BeginDrop,
    BeginStream,
    BeginQuery,
    BeginShared,
    BeginCompact,
    BeginSharedCompact,
    Named,
    BeginColumns,
    ColumnIs,
    AddColumn,
    LowIs,
    AddBounded,
    BeginSelect,
    SetDistinct,
    StreamIs,
    AddSelected,
    BeginFrom,
    AddFrom,
    LeftInteger,
    LeftColumnIs,
    OpIs(Op),
    AddIntegerAtom,
    AddColumnAtom,
    BeginCheckpoint,
    RowsAre,
    BeginGiven,
    BeginCell,
    IndexIs,
    CountIs,
    BeginTuple,
    AddValue,
    BeginLock,
    LockKeyIs,
    BeginTo,
    AddLockStream,
    BeginUnlock,
}

// What a token does by its kind at the beginning of a statement; nothing in any other state.
fn transition_begun(state: State, kind: TokenKind) -> Option<(State, Action)>
    ensures { IsTrue (is_begun state) → result ≡ step state kind }
{
    match state {
        State::Start => match kind {
            TokenKind::Reserved(Key::CreateKey) => Some((State::AfterCreate, Action::Nothing)),
            TokenKind::Reserved(Key::ExplainKey) => Some((
                State::ExplainName,
                Action::BeginExplain,
            )),
            TokenKind::Reserved(Key::DropKey) => Some((State::AfterDrop, Action::BeginDrop)),
            TokenKind::Reserved(Key::CheckpointKey) => Some((
                State::Complete,
                Action::BeginCheckpoint,
            )),
            TokenKind::Reserved(Key::ResumeKey) => Some((State::AfterResume, Action::Nothing)),
            _ => None,
        },
        State::AfterCreate => match kind {
            TokenKind::Reserved(Key::StreamKey) => Some((State::StreamName, Action::BeginStream)),
            TokenKind::Reserved(Key::QueryKey) => Some((State::QueryName, Action::BeginQuery)),
            TokenKind::Reserved(Key::SharedKey) => Some((State::AfterShared, Action::Nothing)),
            _ => None,
        },
        State::AfterShared => match kind {
            TokenKind::Reserved(Key::QueryKey) => Some((State::QueryName, Action::BeginShared)),
            _ => None,
        },
        State::AfterCompact => match kind {
            TokenKind::Reserved(Key::QueryKey) => Some((State::QueryName, Action::Nothing)),
            _ => None,
        },
        _ => None,
    }
}

// What a token does by its kind among the columns of a stream; nothing in any other state.
fn transition_in_columns(state: State, kind: TokenKind) -> Option<(State, Action)>
    ensures { IsTrue (is_in_columns state) → result ≡ step state kind }
{
    match state {
        State::StreamName => match kind {
            TokenKind::Word => Some((State::OpenColumns, Action::Named)),
            _ => None,
        },
        State::OpenColumns => match kind {
            TokenKind::Open => Some((State::ColumnName, Action::BeginColumns)),
            _ => None,
        },
        State::ColumnName => match kind {
            TokenKind::Word => Some((State::AfterColumn, Action::ColumnIs)),
            _ => None,
        },
        State::AfterColumn => match kind {
            TokenKind::Comma => Some((State::ColumnName, Action::AddColumn)),
            TokenKind::Close => Some((State::Complete, Action::AddColumn)),
            TokenKind::Reserved(Key::InKey) => Some((State::DomainLow, Action::Nothing)),
            _ => None,
        },
        _ => None,
    }
}

// What a token does by its kind in the domain of a column; nothing in any other state.
fn transition_in_domain(state: State, kind: TokenKind) -> Option<(State, Action)>
    ensures { IsTrue (is_in_domain state) → result ≡ step state kind }
{
    match state {
        State::DomainLow => match kind {
            TokenKind::Integer => Some((State::FirstPoint, Action::LowIs)),
            _ => None,
        },
        State::FirstPoint => match kind {
            TokenKind::Point => Some((State::SecondPoint, Action::Nothing)),
            _ => None,
        },
        State::SecondPoint => match kind {
            TokenKind::Point => Some((State::DomainHigh, Action::Nothing)),
            _ => None,
        },
        State::DomainHigh => match kind {
            TokenKind::Integer => Some((State::AfterDomain, Action::AddBounded)),
            _ => None,
        },
        State::AfterDomain => match kind {
            TokenKind::Comma => Some((State::ColumnName, Action::Nothing)),
            TokenKind::Close => Some((State::Complete, Action::Nothing)),
            _ => None,
        },
        _ => None,
    }
}

// What a token does by its kind between the name of a query and what it selects; nothing in any other state.
fn transition_in_query(state: State, kind: TokenKind) -> Option<(State, Action)>
    ensures { IsTrue (is_in_query state) → result ≡ step state kind }
{
    match state {
        State::QueryName => match kind {
            TokenKind::Word => Some((State::QueryAs, Action::Named)),
            _ => None,
        },
        State::QueryAs => match kind {
            TokenKind::Reserved(Key::AsKey) => Some((State::QuerySelect, Action::Nothing)),
            _ => None,
        },
        State::QuerySelect => match kind {
            TokenKind::Reserved(Key::SelectKey) => Some((
                State::FirstSelected,
                Action::BeginSelect,
            )),
            _ => None,
        },
        State::FirstSelected => match kind {
            TokenKind::Reserved(Key::DistinctKey) => Some((
                State::SelectedStream,
                Action::SetDistinct,
            )),
            TokenKind::Word => Some((State::SelectedPoint, Action::StreamIs)),
            _ => None,
        },
        _ => None,
    }
}

// What a token does by its kind among the selected columns and the streams of a query; nothing in any other state.
fn transition_in_select(state: State, kind: TokenKind) -> Option<(State, Action)>
    ensures { IsTrue (is_in_select state) → result ≡ step state kind }
{
    match state {
        State::SelectedStream => match kind {
            TokenKind::Word => Some((State::SelectedPoint, Action::StreamIs)),
            _ => None,
        },
        State::SelectedPoint => match kind {
            TokenKind::Point => Some((State::SelectedColumn, Action::Nothing)),
            _ => None,
        },
        State::SelectedColumn => match kind {
            TokenKind::Word => Some((State::AfterSelected, Action::AddSelected)),
            _ => None,
        },
        State::AfterSelected => match kind {
            TokenKind::Comma => Some((State::SelectedStream, Action::Nothing)),
            TokenKind::Reserved(Key::FromKey) => Some((State::FromName, Action::BeginFrom)),
            _ => None,
        },
        State::FromName => match kind {
            TokenKind::Word => Some((State::AfterFrom, Action::AddFrom)),
            _ => None,
        },
        State::AfterFrom => match kind {
            TokenKind::Comma => Some((State::FromName, Action::Nothing)),
            TokenKind::Reserved(Key::WhereKey) => Some((State::AtomLeft, Action::Nothing)),
            TokenKind::Semi => Some((State::Ended, Action::Nothing)),
            _ => None,
        },
        _ => None,
    }
}

// What a token does by its kind on the left of a comparison, or at its operator; nothing in any other state.
fn transition_on_left(state: State, kind: TokenKind) -> Option<(State, Action)>
    ensures { IsTrue (is_on_left state) → result ≡ step state kind }
{
    match state {
        State::AtomLeft => match kind {
            TokenKind::Word => Some((State::LeftPoint, Action::StreamIs)),
            TokenKind::Integer => Some((State::IntegerOp, Action::LeftInteger)),
            _ => None,
        },
        State::LeftPoint => match kind {
            TokenKind::Point => Some((State::LeftColumn, Action::Nothing)),
            _ => None,
        },
        State::LeftColumn => match kind {
            TokenKind::Word => Some((State::ColumnOp, Action::LeftColumnIs)),
            _ => None,
        },
        State::ColumnOp => match kind {
            TokenKind::Less => Some((State::RightAny, Action::OpIs(Op::Lt))),
            TokenKind::Equal => Some((State::RightAny, Action::OpIs(Op::Eq))),
            TokenKind::Greater => Some((State::RightAny, Action::OpIs(Op::Gt))),
            TokenKind::LessEqual => Some((State::RightAny, Action::OpIs(Op::Le))),
            TokenKind::GreaterEqual => Some((State::RightAny, Action::OpIs(Op::Ge))),
            TokenKind::Unequal => Some((State::RightAny, Action::OpIs(Op::Ne))),
            _ => None,
        },
        State::IntegerOp => match kind {
            TokenKind::Less => Some((State::RightStream, Action::OpIs(Op::Lt))),
            TokenKind::Equal => Some((State::RightStream, Action::OpIs(Op::Eq))),
            TokenKind::Greater => Some((State::RightStream, Action::OpIs(Op::Gt))),
            TokenKind::LessEqual => Some((State::RightStream, Action::OpIs(Op::Le))),
            TokenKind::GreaterEqual => Some((State::RightStream, Action::OpIs(Op::Ge))),
            TokenKind::Unequal => Some((State::RightStream, Action::OpIs(Op::Ne))),
            _ => None,
        },
        _ => None,
    }
}

// What a token does by its kind on the right of a comparison, or behind it; nothing in any other state.
fn transition_on_right(state: State, kind: TokenKind) -> Option<(State, Action)>
    ensures { IsTrue (is_on_right state) → result ≡ step state kind }
{
    match state {
        State::RightAny => match kind {
            TokenKind::Word => Some((State::RightPoint, Action::StreamIs)),
            TokenKind::Integer => Some((State::AfterAtom, Action::AddIntegerAtom)),
            _ => None,
        },
        State::RightStream => match kind {
            TokenKind::Word => Some((State::RightPoint, Action::StreamIs)),
            _ => None,
        },
        State::RightPoint => match kind {
            TokenKind::Point => Some((State::RightColumn, Action::Nothing)),
            _ => None,
        },
        State::RightColumn => match kind {
            TokenKind::Word => Some((State::AfterAtom, Action::AddColumnAtom)),
            _ => None,
        },
        State::AfterAtom => match kind {
            TokenKind::Reserved(Key::AndKey) => Some((State::AtomLeft, Action::Nothing)),
            TokenKind::Semi => Some((State::Ended, Action::Nothing)),
            _ => None,
        },
        _ => None,
    }
}

// What a token does by its kind in a line that sets what is gone on from; nothing in any other state.
fn transition_in_resume(state: State, kind: TokenKind) -> Option<(State, Action)>
    ensures { IsTrue (is_in_resume state) → result ≡ step state kind }
{
    match state {
        State::AfterResume => match kind {
            TokenKind::Integer => Some((State::Complete, Action::RowsAre)),
            TokenKind::Word => Some((State::ResumeWhat, Action::Named)),
            _ => None,
        },
        State::ResumeWhat => match kind {
            TokenKind::Reserved(Key::AsKey) => Some((State::GivenRows, Action::BeginGiven)),
            TokenKind::Reserved(Key::FromKey) => Some((State::CellIndex, Action::BeginCell)),
            TokenKind::Reserved(Key::SelectKey) => Some((State::TupleValue, Action::BeginTuple)),
            _ => None,
        },
        State::GivenRows => match kind {
            TokenKind::Integer => Some((State::Complete, Action::CountIs)),
            _ => None,
        },
        State::CellIndex => match kind {
            TokenKind::Integer => Some((State::CellContent, Action::IndexIs)),
            _ => None,
        },
        State::CellContent => match kind {
            TokenKind::Integer => Some((State::Complete, Action::CountIs)),
            _ => None,
        },
        State::TupleValue => match kind {
            TokenKind::Integer => Some((State::AfterValue, Action::AddValue)),
            _ => None,
        },
        State::AfterValue => match kind {
            TokenKind::Integer => Some((State::AfterValue, Action::AddValue)),
            TokenKind::Semi => Some((State::Ended, Action::Nothing)),
            _ => None,
        },
        _ => None,
    }
}

// What a token does by its kind in LOCK and UNLOCK; nothing in any other state.
fn transition_in_lock(state: State, kind: TokenKind) -> Option<(State, Action)>
    ensures { IsTrue (is_in_lock state) → result ≡ step state kind }
{
    match state {
        State::AfterLock => match kind {
            TokenKind::Integer => Some((State::AfterLockKey, Action::LockKeyIs)),
            TokenKind::Semi => Some((State::Ended, Action::Nothing)),
            _ => None,
        },
        State::AfterLockKey => match kind {
            TokenKind::Semi => Some((State::Ended, Action::Nothing)),
            _ => None,
        },
        State::LockStream => match kind {
            TokenKind::Word => Some((State::AfterLockStream, Action::AddLockStream)),
            _ => None,
        },
        State::AfterLockStream => match kind {
            TokenKind::Comma => Some((State::LockStream, Action::Nothing)),
            TokenKind::Semi => Some((State::Ended, Action::Nothing)),
            _ => None,
        },
        State::UnlockKey => match kind {
            TokenKind::Integer => Some((State::Complete, Action::CountIs)),
            _ => None,
        },
        _ => None,
    }
}

// What a token does by its kind in EXPLAIN and DROP, or at the end of a statement; nothing in any other state.
fn transition_at_end(state: State, kind: TokenKind) -> Option<(State, Action)>
    ensures { IsTrue (is_at_end state) → result ≡ step state kind }
{
    match state {
        State::ExplainName => match kind {
            TokenKind::Word => Some((State::Complete, Action::Named)),
            _ => None,
        },
        State::AfterDrop => match kind {
            TokenKind::Reserved(Key::QueryKey) => Some((State::DropName, Action::Nothing)),
            _ => None,
        },
        State::DropName => match kind {
            TokenKind::Word => Some((State::Complete, Action::Named)),
            _ => None,
        },
        State::Complete => match kind {
            TokenKind::Semi => Some((State::Ended, Action::Nothing)),
            _ => None,
        },
        _ => None,
    }
}

// What a token does by its kind in a query; nothing in any other state.
fn transition_of_query(state: State, kind: TokenKind) -> Option<(State, Action)>
    ensures { IsTrue (is_of_query state) → result ≡ step state kind }
{
    match state {
        State::QueryName | State::QueryAs | State::QuerySelect | State::FirstSelected =>
            transition_in_query(state, kind),
        State::SelectedStream
        | State::SelectedPoint
        | State::SelectedColumn
        | State::AfterSelected
        | State::FromName
        | State::AfterFrom => transition_in_select(state, kind),
        State::AtomLeft
        | State::LeftPoint
        | State::LeftColumn
        | State::ColumnOp
        | State::IntegerOp => transition_on_left(state, kind),
        State::RightAny
        | State::RightStream
        | State::RightPoint
        | State::RightColumn
        | State::AfterAtom => transition_on_right(state, kind),
        _ => None,
    }
}

// What a token does in a state by its kind, or `None` where it begins no statement.
fn transition(state: State, kind: TokenKind) -> Option<(State, Action)>
    ensures { result ≡ step state kind }
{
    match state {
        State::Start | State::AfterCreate | State::AfterShared | State::AfterCompact =>
            transition_begun(state, kind),
        State::StreamName | State::OpenColumns | State::ColumnName | State::AfterColumn =>
            transition_in_columns(state, kind),
        State::DomainLow
        | State::FirstPoint
        | State::SecondPoint
        | State::DomainHigh
        | State::AfterDomain => transition_in_domain(state, kind),
        State::AfterResume
        | State::ResumeWhat
        | State::GivenRows
        | State::CellIndex
        | State::CellContent
        | State::TupleValue
        | State::AfterValue => transition_in_resume(state, kind),
        State::AfterLock
        | State::AfterLockKey
        | State::LockStream
        | State::AfterLockStream
        | State::UnlockKey => transition_in_lock(state, kind),
        State::ExplainName | State::AfterDrop | State::DropName | State::Complete | State::Ended =>
            transition_at_end(state, kind),
        _ => transition_of_query(state, kind),
    }
}

// Whether a word is COMPACT, in any case of letters.
#[tactic(auto, unfolding(crate::specs::Grammar::is_compact))]
fn is_compact(word: &[u8]) -> bool
    ensures { result ≡ grammar.is_compact word.now }
{
    word.eq_ignore_ascii_case(b"COMPACT")
}

// What a word does where it may be COMPACT and nothing else.
fn transition_by_compact(word: &[u8], action: Action) -> Option<(State, Action)>
    ensures { result ≡ (if grammar.is_compact word.now then Some (states.AfterCompact, action) else None) }
{
    if is_compact(word) {
        Some((State::AfterCompact, action))
    } else {
        None
    }
}

// Whether a word is LOCK, in any case of letters.
#[tactic(auto, unfolding(crate::specs::Grammar::is_lock))]
fn is_lock(word: &[u8]) -> bool
    ensures { result ≡ grammar.is_lock word.now }
{
    word.eq_ignore_ascii_case(b"LOCK")
}

/// Returns whether a word is UNLOCK, in any case of letters.
#[tactic(auto, unfolding(crate::specs::Grammar::is_unlock))]
pub fn is_unlock(word: &[u8]) -> bool
    ensures { result ≡ grammar.is_unlock word.now }
{
    word.eq_ignore_ascii_case(b"UNLOCK")
}

// Whether a word is TO, in any case of letters.
#[tactic(auto, unfolding(crate::specs::Grammar::is_to))]
fn is_to(word: &[u8]) -> bool
    ensures { result ≡ grammar.is_to word.now }
{
    word.eq_ignore_ascii_case(b"TO")
}

// What a word does at the beginning, where it may be LOCK or UNLOCK and nothing else.
fn transition_by_lock(word: &[u8]) -> Option<(State, Action)>
    ensures { result ≡ (if grammar.is_lock word.now then Some (states.AfterLock, actions.BeginLock) else (if grammar.is_unlock word.now then Some (states.UnlockKey, actions.BeginUnlock) else None)) }
{
    if is_lock(word) {
        Some((State::AfterLock, Action::BeginLock))
    } else if is_unlock(word) {
        Some((State::UnlockKey, Action::BeginUnlock))
    } else {
        None
    }
}

// What a word does where it may be TO and nothing else.
fn transition_by_to(word: &[u8]) -> Option<(State, Action)>
    ensures { result ≡ (if grammar.is_to word.now then Some (states.LockStream, actions.BeginTo) else None) }
{
    if is_to(word) {
        Some((State::LockStream, Action::BeginTo))
    } else {
        None
    }
}

// What a word does in a state.
fn transition_by_word(state: State, word: &[u8]) -> Option<(State, Action)>
    ensures { result ≡ word_step state word.now }
{
    match state {
        State::Start => transition_by_lock(word),
        State::AfterLock | State::AfterLockKey => transition_by_to(word),
        State::AfterCreate => transition_by_compact(word, Action::BeginCompact),
        State::AfterShared => transition_by_compact(word, Action::BeginSharedCompact),
        _ => transition(state, TokenKind::Word),
    }
}

/// Returns what a token of a kind and text does in a state, or `None` where it begins no statement.
pub fn transition_of(state: State, kind: TokenKind, text: &[u8]) -> Option<(State, Action)>
    ensures { result ≡ step_of state kind text.now }
{
    match kind {
        TokenKind::Word => transition_by_word(state, text),
        _ => transition(state, kind),
    }
}
