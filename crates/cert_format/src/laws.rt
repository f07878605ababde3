//! Laws of the definitions, as public functions without a body: the clause is the law.
ghost use Rattle.cert_format.specs.Laws.{OneLine, LinesAreWhole, PrintsBack, CertificatesPrintBack, CertificatesAreTaken};

/// No text is two lines.
pub fn one_line()
    ensures { OneLine }
{}

/// The numbers of a line that a text is are at most 65,535, and there are no fewer and no more than it may have.
pub fn lines_are_whole()
    ensures { LinesAreWhole }
{}

/// What is printed for a line is read as this line.
pub fn prints_back()
    ensures { PrintsBack }
{}

/// What is printed for the lines of a certificate is read, line by line, as these lines.
pub fn certificates_print_back()
    ensures { CertificatesPrintBack }
{}

/// What is printed for the lines of a certificate is added, line by line, as these lines, where memory is found.
pub fn certificates_are_taken()
    ensures { CertificatesAreTaken }
{}
