//! What a statement says apart from its lists.
ghost use Rattle.std.specs.Prelude.{◌≡◌, false};
ghost use Rattle.sql_parser.specs.Reading.{no_parts};
ghost use Rattle.sql_parser.specs.Keeping.{kept_parts};
ghost use Rattle.sql_parser.specs.Outlines.{head_in, headed};

use crate::draft::{Form, kept_integer, kept_name, underscore};
use crate::transitions::Action;
use sql_text::Name;

/// What a statement says so far apart from its lists: which one it is, the name and the integers.
#[derive(Clone, Copy)]
pub struct Head {
    pub form: Form,
    pub name: Name,
    pub index: i64,
    pub count: i64,
}

impl Head {
    /// Returns the head where nothing is read.
    #[tactic(auto, unfolding(sql_text::specs::Name::is_name, sql_text::specs::Key::key_of))]
    pub fn start() -> Head
        ensures { result ≡ head_in (kept_parts no_parts) }
    {
        Head {
            form: Form::Explain,
            name: underscore(),
            index: 0,
            count: 0,
        }
    }

    /// Takes what a token adds.
    pub fn take(&mut self, action: Action, text: &[u8])
        ensures { self.new ≡ headed action text.now self.old }
    {
        match action {
            Action::BeginExplain => self.form = Form::Explain,
            Action::BeginDrop => self.form = Form::Drop,
            Action::BeginStream => self.form = Form::Stream,
            Action::BeginQuery => self.form = Form::Query,
            Action::BeginShared => self.form = Form::Query,
            Action::BeginCompact => self.form = Form::Query,
            Action::BeginSharedCompact => self.form = Form::Query,
            Action::Named => self.name = kept_name(text),
            Action::BeginCheckpoint => self.form = Form::Checkpoint,
            Action::RowsAre => {
                self.form = Form::Rows;
                self.count = kept_integer(text);
            }
            Action::BeginGiven => self.form = Form::Given,
            Action::BeginCell => self.form = Form::Cell,
            Action::IndexIs => self.index = kept_integer(text),
            Action::CountIs => self.count = kept_integer(text),
            Action::BeginTuple => self.form = Form::Tuple,
            Action::BeginLock => self.form = Form::Lock,
            Action::BeginUnlock => self.form = Form::Unlock,
            _ => {}
        }
    }
}
