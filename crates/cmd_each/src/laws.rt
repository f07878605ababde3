//! Laws of the definitions, as public functions without a body: the clause is the law.
ghost use Rattle.cmd_each.specs.Laws.{IsOneLine};

/// A reply without a `;` is joined to exactly one line, which is as long as the reply, or one byte longer where the reply does not end in LF.
pub fn one_line()
    ensures { IsOneLine }
{}
