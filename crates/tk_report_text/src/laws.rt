//! What holds of reports alone.
ghost use Rattle.tk_report_text.specs.Laws.{ReportIsOfTails, TextHasTails};

/// Two records whose events all have tails, as in each record that has a text, and with the same
/// tails for each id have one report, whoever emitted the events, under whatever keys and when. So
/// the records of two runs can be compared by their reports.
pub fn report_is_of_tails()
    ensures report { ReportIsOfTails }
    ensures text { TextHasTails }
{}
