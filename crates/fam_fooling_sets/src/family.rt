//! Families.
use arrayvec::ArrayVec;
use sem_query::Row;
use std::marker::Model;

/// Rows with the numbers of their streams, at most one for each stream of FROM.
pub type Asked = ArrayVec<(u8, Row), 4>;

/// Rows of one stream, and for each of them the rows that ask for it. A clause sees the number of the stream, and lists.
#[derive(Drop)]
pub struct Family {
    pub stream: u8,
    pub m: Vec<Row>,
    pub g: Vec<Asked>,
}

impl Model for Family {
    ghost use Rattle.fam_fooling_sets.specs.Family.{FamilyValue};
    ghost use Rattle.fam_fooling_sets.specs.Shown.{rows_in, asking_in};

    ghost Value = { FamilyValue };

    ghost view = { λ f. record { stream = f.stream; rows = rows_in f.m.items; asking = asking_in f.g.items } };
}
