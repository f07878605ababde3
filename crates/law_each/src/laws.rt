//! A line in which a reply is joined comes apart again.
ghost use Rattle.law_each.specs.ComesApart.{RepliesAreLines, EachComesApart};

/// Each reply, in each state that lines lead to from the first one, is lines that end in LF. No line is empty, and none has a `;`.
pub fn replies_are_lines()
    ensures { RepliesAreLines }
{}

/// Where each reply is joined to one line, LF in place of each `;` and no empty line give the session text back.
pub fn each_comes_apart()
    ensures { EachComesApart }
{}
