//! Statements as trees.
use arrayvec::ArrayVec;
use sem_query::Op;
use sql_catalog::ColumnDef;
use sql_text::Name;

/// A column, by the names of its stream and of its own.
#[derive(Clone, Copy, Default)]
pub struct ColumnAst {
    pub stream: Name,
    pub column: Name,
}

/// A side of an atom.
#[derive(Clone, Copy)]
pub enum OperandAst {
    Column(ColumnAst),
    Integer(i64),
}

/// The operand that fills places of an array that no clause speaks of.
impl Default for OperandAst {
    fn default() -> OperandAst {
        OperandAst::Integer(0)
    }
}

/// A comparison of two operands, of which at least one is a column.
#[derive(Clone, Copy, Default)]
pub struct AtomAst {
    pub left: OperandAst,
    pub op: Op,
    pub right: OperandAst,
}

/// A query as it is written: whether it is planned by its forms, whether an answer counts once, the selected
/// columns, the streams and the atoms.
#[derive(Drop)]
pub struct SelectAst {
    pub compact: bool,
    pub distinct: bool,
    pub select: ArrayVec<ColumnAst, 8>,
    pub from: ArrayVec<Name, 4>,
    pub atoms: ArrayVec<AtomAst, 16>,
}

/// A statement; a query is shared where its parts keep their equal boxes of cells once.
///
/// The lines of a checkpoint say how many rows were taken, how many were given to a query, what one of its cells holds, and one
/// of the tuples that it has answered. A lock names its key, where it has one, and the streams whose rows are let, or none where
/// those of all streams are.
#[derive(Drop)]
pub enum Statement {
    CreateStream {
        name: Name,
        columns: ArrayVec<ColumnDef, 8>,
    },
    CreateQuery {
        name: Name,
        select: SelectAst,
        shared: bool,
    },
    Explain {
        name: Name,
    },
    DropQuery {
        name: Name,
    },
    Checkpoint,
    ResumeRows {
        rows: i64,
    },
    ResumeGiven {
        name: Name,
        rows: i64,
    },
    ResumeCell {
        name: Name,
        index: i64,
        content: i64,
    },
    ResumeTuple {
        name: Name,
        values: ArrayVec<i64, 8>,
    },
    Lock {
        key: Option<i64>,
        streams: ArrayVec<Name, 16>,
    },
    Unlock {
        key: i64,
    },
}
