//! A statement so far, within its limits.
//!
//! A draft goes on where a limit is passed, since the whole text is read before a limit is answered: a list keeps as many as it may
//! have, and says whether there were more; a name that is too long is kept as `_`, and an integer of more than 64 bits as the
//! greatest one.
ghost use Rattle.std.specs.Prelude.{◌≡◌, ◌∷◌, [], false, None};
ghost use Rattle.sql_text.specs.Value.{value_of};
ghost use Rattle.sql_parser.specs.Reading.{no_parts};
ghost use Rattle.sql_parser.specs.Keeping.{kept_parts};
ghost use Rattle.sql_parser.specs.declared.draft.Form.TheVariants as forms;
ghost use Rattle.sql_parser.specs.DraftSteps.{drafted, no_items, put, kept, or_far, statement_of, column_with, atom_with};

use crate::transitions::Action;
use crate::tree::{AtomAst, ColumnAst, OperandAst, SelectAst, Statement};
use arrayvec::ArrayVec;
use sem_query::Op;
use sql_catalog::ColumnDef;
use sql_text::Name;

/// Which statement is begun.
#[derive(Clone, Copy, Debug, PartialEq, Eq)]
pub enum Form {
    Stream,
    Query,
    Explain,
    Drop,
    Checkpoint,
    Rows,
    Given,
    Cell,
    Tuple,
    Lock,
    Unlock,
}

/// A list so far: as many as it may have, and whether there were more.
#[derive(Drop)]
pub struct DraftList<T, const N: usize> {
    pub list: ArrayVec<T, N>,
    pub over: bool,
}

/// A statement so far.
#[derive(Drop)]
pub struct Draft {
    pub form: Form,
    pub name: Name,
    pub columns: DraftList<ColumnDef, 8>,
    pub column: Name,
    pub low: i64,
    pub shared: bool,
    pub compact: bool,
    pub distinct: bool,
    pub select: DraftList<ColumnAst, 8>,
    pub from: DraftList<Name, 4>,
    pub atoms: DraftList<AtomAst, 16>,
    pub stream: Name,
    pub left: OperandAst,
    pub op: Op,
    pub index: i64,
    pub count: i64,
    pub values: DraftList<i64, 8>,
    pub lock_key: Option<i64>,
    pub lock_streams: DraftList<Name, 16>,
}

impl<T: Default + Drop, const N: usize> DraftList<T, N> {
    // An empty list.
    fn none() -> Self
        ensures { result ≡ no_items }
    {
        DraftList {
            list: ArrayVec::new(),
            over: false,
        }
    }

    // Keeps one more, where there is room.
    fn put(&mut self, item: T)
        ensures { self.new ≡ put N item self.old }
    {
        if self.list.is_full() {
            self.over = true;
        } else {
            self.list.push(item);
        }
    }
}

/// Returns the name `_`.
#[tactic(auto, unfolding(sql_text::specs::Name::is_name, sql_text::specs::Key::key_of))]
pub fn underscore() -> Name
    ensures { result ≡ 95 ∷ [] }
{
    match Name::read(b"_") {
        Some(name) => name,
        None => unreachable!(),
    }
}

/// Returns the name that a word is, or `_` where it is too long for one.
pub fn kept_name(text: &[u8]) -> Name
    ensures { result ≡ kept text.now }
{
    match Name::read(text) {
        Some(name) => name,
        None => underscore(),
    }
}

/// Returns the integer that a text is, or the greatest one where it has more than 64 bits.
pub fn kept_integer(text: &[u8]) -> i64
    ensures { result ≡ or_far (value_of text.now) }
{
    match sql_text::read_i64(text) {
        Some(value) => value,
        None => i64::MAX,
    }
}

impl Draft {
    /// Takes what a token adds.
    pub fn take(&mut self, action: Action, text: &[u8])
        ensures { self.new ≡ drafted action text.now self.old }
    {
        match action {
            Action::Nothing => {}
            Action::BeginExplain => self.form = Form::Explain,
            Action::BeginDrop => self.form = Form::Drop,
            Action::BeginStream => self.form = Form::Stream,
            Action::BeginQuery => self.begin_query(false, false),
            Action::BeginShared => self.begin_query(true, false),
            Action::BeginCompact => self.begin_query(false, true),
            Action::BeginSharedCompact => self.begin_query(true, true),
            Action::Named => self.name = kept_name(text),
            Action::BeginColumns => self.columns = DraftList::none(),
            Action::ColumnIs => self.column = kept_name(text),
            Action::AddColumn => self.put_column(None),
            Action::LowIs => self.low = kept_integer(text),
            Action::AddBounded => self.put_column(Some((self.low, kept_integer(text)))),
            Action::BeginSelect => self.begin_select(),
            Action::SetDistinct => self.distinct = true,
            Action::StreamIs => self.stream = kept_name(text),
            Action::AddSelected => self.put_selected(text),
            Action::BeginFrom => self.begin_from(),
            Action::AddFrom => self.from.put(kept_name(text)),
            Action::LeftInteger => self.left = OperandAst::Integer(kept_integer(text)),
            Action::LeftColumnIs => self.left = OperandAst::Column(self.column_of(text)),
            Action::OpIs(op) => self.op = op,
            Action::AddIntegerAtom => self.put_atom(OperandAst::Integer(kept_integer(text))),
            Action::AddColumnAtom => self.put_atom(OperandAst::Column(self.column_of(text))),
            Action::BeginCheckpoint => self.form = Form::Checkpoint,
            Action::RowsAre => self.begin_rows(kept_integer(text)),
            Action::BeginGiven => self.form = Form::Given,
            Action::BeginCell => self.form = Form::Cell,
            Action::IndexIs => self.index = kept_integer(text),
            Action::CountIs => self.count = kept_integer(text),
            Action::BeginTuple => self.begin_tuple(),
            Action::AddValue => self.values.put(kept_integer(text)),
            Action::BeginLock => self.begin_lock(),
            Action::LockKeyIs => self.lock_key = Some(kept_integer(text)),
            Action::BeginTo => {}
            Action::AddLockStream => self.lock_streams.put(kept_name(text)),
            Action::BeginUnlock => self.form = Form::Unlock,
        }
    }

    // Begins a query that is shared or not, and compact or not.
    fn begin_query(&mut self, shared: bool, compact: bool)
        ensures { self.new ≡ record self.old { form = forms.Query; shared = shared; compact = compact } }
    {
        self.form = Form::Query;
        self.shared = shared;
        self.compact = compact;
    }

    // Adds the column that was named last, with this domain.
    fn put_column(&mut self, domain: Option<(i64, i64)>)
        ensures { self.new ≡ record self.old { columns = put 8 (record { name = self.old.column; domain = domain }) self.old.columns } }
    {
        let name = self.column;
        self.columns.put(ColumnDef { name, domain });
    }

    // The column of this name in the stream that was named last.
    fn column_of(&self, text: &[u8]) -> ColumnAst
        ensures { result ≡ column_with self.now text.now }
    {
        ColumnAst {
            stream: self.stream,
            column: kept_name(text),
        }
    }

    // Begins to select.
    fn begin_select(&mut self)
        ensures { self.new ≡ record self.old { distinct = false; select = no_items } }
    {
        self.distinct = false;
        self.select = DraftList::none();
    }

    // Adds a selected column of this name.
    fn put_selected(&mut self, text: &[u8])
        ensures { self.new ≡ record self.old { select = put 8 (column_with self.old text.now) self.old.select } }
    {
        let column = self.column_of(text);
        self.select.put(column);
    }

    // Begins the streams of a query, behind which its atoms stand.
    fn begin_from(&mut self)
        ensures { self.new ≡ record self.old { from = no_items; atoms = no_items } }
    {
        self.from = DraftList::none();
        self.atoms = DraftList::none();
    }

    // Adds the atom that this side ends.
    fn put_atom(&mut self, right: OperandAst)
        ensures { self.new ≡ record self.old { atoms = put 16 (atom_with self.old right) self.old.atoms } }
    {
        self.atoms.put(AtomAst {
            left: self.left,
            op: self.op,
            right,
        });
    }

    // Begins a line that says how many rows were taken.
    fn begin_rows(&mut self, rows: i64)
        ensures { self.new ≡ record self.old { form = forms.Rows; count = rows } }
    {
        self.form = Form::Rows;
        self.count = rows;
    }

    // Begins a line that sets a tuple.
    fn begin_tuple(&mut self)
        ensures { self.new ≡ record self.old { form = forms.Tuple; values = no_items } }
    {
        self.form = Form::Tuple;
        self.values = DraftList::none();
    }

    // Begins a lock that has no key so far and lets the rows of all streams.
    fn begin_lock(&mut self)
        ensures { self.new ≡ record self.old { form = forms.Lock; lock_key = None; lock_streams = no_items } }
    {
        self.form = Form::Lock;
        self.lock_key = None;
        self.lock_streams = DraftList::none();
    }

    /// Returns the statement, once it is whole and within its limits.
    pub fn finish(self) -> Statement
        ensures { result ≡ statement_of self }
    {
        match self.form {
            Form::Stream => Statement::CreateStream {
                name: self.name,
                columns: self.columns.list,
            },
            Form::Query => Statement::CreateQuery {
                name: self.name,
                select: SelectAst {
                    compact: self.compact,
                    distinct: self.distinct,
                    select: self.select.list,
                    from: self.from.list,
                    atoms: self.atoms.list,
                },
                shared: self.shared,
            },
            Form::Explain => Statement::Explain { name: self.name },
            Form::Drop => Statement::DropQuery { name: self.name },
            Form::Checkpoint => Statement::Checkpoint,
            Form::Rows => Statement::ResumeRows { rows: self.count },
            Form::Given => Statement::ResumeGiven {
                name: self.name,
                rows: self.count,
            },
            Form::Cell => Statement::ResumeCell {
                name: self.name,
                index: self.index,
                content: self.count,
            },
            Form::Tuple => Statement::ResumeTuple {
                name: self.name,
                values: self.values.list,
            },
            Form::Lock => Statement::Lock {
                key: self.lock_key,
                streams: self.lock_streams.list,
            },
            Form::Unlock => Statement::Unlock { key: self.count },
        }
    }
}

/// Begins where nothing is read.
#[tactic(auto, unfolding(sql_text::specs::Name::is_name, sql_text::specs::Key::key_of))]
pub fn start() -> Draft
    ensures { result ≡ kept_parts no_parts }
{
    Draft {
        form: Form::Explain,
        name: underscore(),
        columns: DraftList::none(),
        column: underscore(),
        low: 0,
        shared: false,
        compact: false,
        distinct: false,
        select: DraftList::none(),
        from: DraftList::none(),
        atoms: DraftList::none(),
        stream: underscore(),
        left: OperandAst::Integer(0),
        op: Op::Lt,
        index: 0,
        count: 0,
        values: DraftList::none(),
        lock_key: None,
        lock_streams: DraftList::none(),
    }
}
