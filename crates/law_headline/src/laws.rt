//! Laws of the definitions, as public functions without a body: the clause is the law.
ghost use Rattle.law_headline.specs.Headline.{Headline};
ghost use Rattle.law_headline.specs.Plain.{PlainHeadline};
ghost use Rattle.law_headline.specs.Strict.{AdviseIsStrict};

/// Where the words run a session and `run` ends with Done, all bytes of the file that they name and of the input were read, and what was written is the session
/// text of them; with `--each` it is the replies, each as one line.
pub fn headline()
    ensures { Headline }
{}

/// The same of the input alone and a text without EXPLAIN, CHECKPOINT and RESUME: what is written is told by the definitions of the other lines alone.
pub fn plain_headline()
    ensures { PlainHeadline }
{}

/// Where the words advise on a script and `run` ends with Done or Invalid, all of the script was read; over lines of which none is a RESUME line, and no more
/// rows than a session may take, it is Done exactly where no line is answered by a refusal in that session.
pub fn advise_is_strict()
    ensures { AdviseIsStrict }
{}
