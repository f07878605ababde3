//! Laws of the definitions, as public functions without a body: the clause is the law.
ghost use Rattle.cmd_certify.specs.Agreement.{RootIsAlike, CertifiedAreChecked, WholeDecision, CertificatesAgree};
ghost use Rattle.cmd_certify.specs.Certifying.{Certifies};
ghost use Rattle.cmd_certify.specs.Checking.{Checks};
ghost use Rattle.cmd_certify.specs.Laws.{HasOneAnswer, CertifiesOnce, StaysWhenMoreFollows};

/// The lines of a script with a certificate have one answer at most.
pub fn one_answer()
    ensures { HasOneAnswer }
{}

/// The lines of a script determine what `certify` comes to; which certificate it writes is free.
pub fn certifies_once()
    ensures { CertifiesOnce }
{}

/// What `certify` comes to where a number of lines is enough stays when more lines follow.
pub fn certifying_stays()
    ensures { StaysWhenMoreFollows Certifies }
{}

/// What `check` comes to where a number of lines is enough stays when more lines follow.
pub fn checking_stays()
    ensures { StaysWhenMoreFollows Checks }
{}

/// A good certificate of the split form whose first node shows the whole form is a good one of the whole form.
pub fn root_is_alike()
    ensures { RootIsAlike }
{}

/// A good certificate of the form by which a query is judged is a good one of the form that it shows.
pub fn certified_are_checked()
    ensures { CertifiedAreChecked }
{}

/// What shows the whole form of a query that is judged by it decides that no condition is broken.
pub fn whole_decision()
    ensures { WholeDecision }
{}

/// What shows the split form of a query without open dims decides as the parts by which the query is judged.
pub fn certificates_agree()
    ensures { CertificatesAgree }
{}
