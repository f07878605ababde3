//! A certificate, line by line.
ghost use Rattle.std.specs.Prelude.{◌≡◌, []};
ghost use Rattle.io_streams.specs.Sink.{Writes};
ghost use Rattle.cert_format.specs.Text.{certificate_text};
ghost use Rattle.cert_format.specs.Certificate.{AreLines, AddsLine, Adds};

use crate::error::CertError;
use crate::following::count_with;
use crate::line::Line;
use crate::printing::put_line;
use crate::reading::read_line;
use io_streams::{Sink, WriteFault};
use std::alloc::Global;
use std::marker::Model;

/// The lines of a certificate in order, and the number of its nodes. A clause sees the lines.
#[derive(Drop)]
pub struct Certificate {
    lines: Vec<Line>,
    nodes: u32,
}

impl Model for Certificate {
    ghost use Rattle.std.specs.Prelude.{◌≡◌, List, length};
    ghost use Rattle.cert_format.specs.declared.line.Line.{Line};
    ghost use Rattle.cert_format.specs.Nodes.{nodes_of};
    ghost use Rattle.cert_format.specs.Certificate.{AreLines};

    ghost Value = { List Line };

    ghost view = { λ c. c.lines.items };

    ghost invariant = { λ c. AreLines c.lines.items × (c.nodes ≡ length (nodes_of c.lines.items)) };
}

impl Certificate {
    /// Returns a certificate without lines. It takes no memory.
    pub fn new(alloc: Global) -> Certificate
        ensures { result ≡ [] }
    {
        Certificate {
            lines: Vec::new(alloc),
            nodes: 0,
        }
    }

    /// Returns the lines.
    pub fn lines(&self) -> &[Line]
        ensures lines { result.now ≡ self.now }
        ensures are_lines { AreLines self.now }
    {
        self.lines.as_slice()
    }

    /// Adds a line behind the others. An error leaves the certificate as it was.
    pub fn add(&mut self, line: Line) -> Result<(), CertError>
        ensures { AddsLine result line self.old self.new }
    {
        let nodes = count_with(self.nodes, self.lines.last(), &line)?;
        match self.lines.push(line) {
            Ok(()) => {
                self.nodes = nodes;
                Ok(())
            }
            Err(_) => Err(CertError::Memory),
        }
    }

    /// Adds the line that a text is behind the others. An error leaves the certificate as it was.
    pub fn add_line(&mut self, text: &[u8]) -> Result<(), CertError>
        ensures { Adds result text.now self.old self.new }
    {
        match read_line(text) {
            Some(line) => self.add(line),
            None => Err(CertError::Syntax),
        }
    }

    /// Writes the lines in their printed forms, each ended by LF.
    pub fn print<O: Sink>(&self, out: &mut O) -> Result<(), WriteFault>
        ensures { Writes result (O.seen out.old) (O.seen out.new) (certificate_text self.now) }
    {
        for line in &self.lines {
            put_line(out, line)?;
        }
        Ok(())
    }
}
