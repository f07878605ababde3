//! Names of streams, columns and queries.
ghost use Rattle.std.specs.Prelude.{◌≡◌, ◌≤◌, Some, None, IsTrue, if◌then◌else◌, length};
ghost use Rattle.sql_text.specs.Name.{is_name};

use crate::key::key_of;
use crate::word::is_word;
use std::hash::{Hash, Hasher};
use std::marker::Model;

/// The name of a stream, a column or a query: a word of at most 24 bytes that is not reserved. A clause sees its bytes.
#[derive(Clone, Copy)]
pub struct Name {
    bytes: [u8; 24],
    len: usize,
}

impl Model for Name {
    ghost use Rattle.std.specs.Prelude.{List, ℕ};

    ghost Value = { List ℕ };

    ghost use Rattle.sql_text.specs.Stored.{shown, IsStored, stored, stored_back};

    ghost view = { shown };

    ghost invariant = { IsStored };

    ghost inverse = { stored };

    ghost inverse_ok = { stored_back };
}

impl Name {
    /// The most bytes of a name.
    pub const MOST_BYTES: usize = 24;

    /// Returns the name that the text is, where it is one.
    #[tactic(auto, unfolding(crate::specs::Name::is_name))]
    pub fn read(text: &[u8]) -> Option<Name>
        ensures { result ≡ (if is_name text.now then Some text.now else None) }
    {
        if !is_word(text) || key_of(text).is_some() || Name::MOST_BYTES < text.len() {
            return None;
        }
        let mut bytes = [0; 24];
        for (i, byte) in text.iter().enumerate() {
            bytes[i] = *byte;
        }
        Some(Name {
            bytes,
            len: text.len(),
        })
    }

    /// Returns the bytes of the name.
    pub fn bytes(&self) -> &[u8]
        ensures bytes { result.now ≡ self.now }
        ensures name { IsTrue (is_name self.now) }
        ensures short { length self.now ≤ 24 }
    {
        self.bytes.split_at(self.len).0
    }
}

/// Names are compared byte by byte.
impl PartialEq for Name {
    ghost use Rattle.std.specs.Prelude.{nat_eq};
    ghost use Rattle.std.specs.Cmp.Lexicographic.{pointwise};
    ghost use Rattle.std.specs.Cmp.{partial_equiv_from_equiv};
    ghost use Rattle.std.proofs.lemmas.Cmp.{nat_list_eq_equiv};

    ghost eq = { pointwise nat_eq };

    ghost laws = { partial_equiv_from_equiv nat_list_eq_equiv };

    fn eq(&self, other: &Name) -> bool {
        self.bytes() == other.bytes()
    }
}

impl Eq for Name {
    ghost use Rattle.std.proofs.lemmas.Cmp.{nat_list_eq_equiv};

    ghost laws = { nat_list_eq_equiv };
}

/// The hash of a name is that of its bytes.
impl Hash for Name {
    ghost use Rattle.std.specs.Hash as fed;
    ghost use Rattle.std.proofs.Common.{ap};
    ghost use Rattle.std.proofs.lemmas.Slice.Eq.{bytes_eq-Decides};

    ghost hash_input = { fed.slice fed.u8 };

    ghost respects_eq = { λ x y same. ap (fed.slice fed.u8) ((bytes_eq-Decides x y).0 same) };

    fn hash<H: Hasher>(&self, state: &mut H) {
        self.bytes().hash(state);
    }
}

/// The name `_`, which fills places of an array that no clause speaks of.
impl Default for Name {
    fn default() -> Name {
        Name {
            bytes: [
                b'_', 0, 0, 0, 0, 0, 0, 0, 0, 0, 0, 0, 0, 0, 0, 0, 0, 0, 0, 0, 0, 0, 0, 0,
            ],
            len: 1,
        }
    }
}
