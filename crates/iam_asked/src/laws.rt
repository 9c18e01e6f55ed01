// That a line is at most one request, or says one thing at most of texts, and has no fault then; and that a file is read or has one first
// faulty line.
ghost use Rattle.iam_asked.specs.Laws.{NoFaultOfRead, NoFaultOfRequest, NoFaultOfTextLine, OneAsked, OneFirstFaulty, OneSize, OneTextLine};

/// A line is at most one request.
pub fn one_asked()
    ensures { OneAsked }
{}

/// A line that is a request has no fault but those that hang on the lines before it.
pub fn no_fault_of_request()
    ensures { NoFaultOfRequest }
{}

/// The keys of requests have one size at most, so they are not both small and too large.
pub fn one_size()
    ensures { OneSize }
{}

/// Lines that are read have no first faulty one.
pub fn no_fault_of_read()
    ensures { NoFaultOfRead }
{
    one_asked();
}

/// There is one first faulty line at most, with one fault.
pub fn one_first_faulty()
    ensures { OneFirstFaulty }
{
    one_asked();
}

/// A line says one thing at most of texts.
pub fn one_text_line()
    ensures { OneTextLine }
{}

/// A line that says something of texts has no fault but that it is one too many.
pub fn no_fault_of_text_line()
    ensures { NoFaultOfTextLine }
{}
