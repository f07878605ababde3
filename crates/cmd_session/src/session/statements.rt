//! Texts that are read as statements. What a statement without lists asks for is answered without room for lists.
ghost use Rattle.std.specs.Prelude.{◌+◌, ◌≤◌, length};
ghost use Rattle.sql_parser.specs.Outlines.{whole_of};
ghost use Rattle.exec_registry.specs.Registry.{most_cells};
ghost use Rattle.cmd_session.specs.Requests.{statement_request};
ghost use Rattle.cmd_session.specs.ResumeLines.{statement_in};
ghost use Rattle.cmd_session.specs.State.{State, one_line_more};

use super::Session;
use crate::outcome::LineOutcome;
use crate::resume_line::{ResumeLine, read_resume_line};
use exec_pool::Steps;
use io_streams::Sink;
use sql_parser::{PlainReading, PlainStatement, parse, parse_plain};
use sql_replies::parse_refusal;
use std::sync::ledger::Ledger;

impl Session {
    ghost use Rattle.cmd_session.specs.Session.{StandsFor, Does, StatementDoes};

    /// Answers a text that is read as a statement, in a line that was counted. Room for lists is taken only by a statement that has lists.
    pub(super) fn answer_text<O: Sink, L: Ledger>(
        &mut self,
        text: &[u8],
        out: &mut O,
        steps: &mut Steps<L>,
    ) -> LineOutcome
        requires { length text.now ≤ 1024 }
        ensures reply { (s : State) → StandsFor self.old (one_line_more s) → StatementDoes result s text.now self.new (O.seen out.old) (O.seen out.new) }
        ensures reads { steps.new.reads ≤ steps.old.reads + most_cells self.old.registry.live }
        ensures writes { steps.new.writes ≤ steps.old.writes + most_cells self.old.registry.live }
    {
        match read_resume_line(text) {
            Some(line) => self.resume(&line, out, steps),
            None => match parse_plain(text) {
                PlainReading::Plain(statement) => self.answer_plain(&statement, out, steps),
                PlainReading::Listed => self.answer_parsed(text, out, steps),
                PlainReading::Refused(error) => self.refuse(parse_refusal(error), out),
            },
        }
    }

    // Answers a statement without lists, in a line that was counted.
    fn answer_plain<O: Sink, L: Ledger>(
        &mut self,
        statement: &PlainStatement,
        out: &mut O,
        steps: &mut Steps<L>,
    ) -> LineOutcome
        ensures reply { (s : State) → StandsFor self.old (one_line_more s) → Does result s (statement_request s (whole_of statement.now)) self.new (O.seen out.old) (O.seen out.new) }
        ensures reads { steps.new.reads ≤ steps.old.reads + most_cells self.old.registry.live }
        ensures writes { steps.new.writes ≤ steps.old.writes + most_cells self.old.registry.live }
    {
        match statement {
            PlainStatement::Explain { name } => self.explain(name, out),
            PlainStatement::DropQuery { name } => self.drop_query(name, out),
            PlainStatement::Checkpoint => self.write_checkpoint(out, steps),
            PlainStatement::ResumeRows { rows } => self.resume_rows(*rows, out),
            PlainStatement::ResumeGiven { name, rows } => self.resume_given(name, *rows, out),
            PlainStatement::ResumeCell {
                name,
                index,
                content,
            } => self.resume_cell(name, *index, *content, out, steps),
            PlainStatement::Unlock { key: _ } => self.unlock(out),
        }
    }

    // Sets what a live query goes on from, as a line says, in a line that was counted.
    fn resume<O: Sink, L: Ledger>(
        &mut self,
        line: &ResumeLine,
        out: &mut O,
        steps: &mut Steps<L>,
    ) -> LineOutcome
        ensures reply { (s : State) → StandsFor self.old (one_line_more s) → Does result s (statement_request s (statement_in line.now)) self.new (O.seen out.old) (O.seen out.new) }
        ensures reads { steps.new.reads ≤ steps.old.reads + most_cells self.old.registry.live }
        ensures writes { steps.new.writes ≤ steps.old.writes + most_cells self.old.registry.live }
    {
        match line {
            ResumeLine::Cell {
                name,
                index,
                content,
            } => self.resume_cell(name, *index, *content, out, steps),
            ResumeLine::Tuple { name, values } => self.resume_tuple(name, values, out),
        }
    }

    // Answers a text of any form that is read as a statement, in a line that was counted. It is not inlined, since the room for the
    // lists of a statement would then be cleared for each text.
    #[inline(never)]
    fn answer_parsed<O: Sink, L: Ledger>(
        &mut self,
        text: &[u8],
        out: &mut O,
        steps: &mut Steps<L>,
    ) -> LineOutcome
        requires { length text.now ≤ 1024 }
        ensures reply { (s : State) → StandsFor self.old (one_line_more s) → StatementDoes result s text.now self.new (O.seen out.old) (O.seen out.new) }
        ensures reads { steps.new.reads ≤ steps.old.reads + most_cells self.old.registry.live }
        ensures writes { steps.new.writes ≤ steps.old.writes + most_cells self.old.registry.live }
    {
        match parse(text) {
            Err(error) => self.refuse(parse_refusal(error), out),
            Ok(statement) => self.answer_statement(statement, out, steps),
        }
    }
}
