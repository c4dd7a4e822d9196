//! That the text of a report shows the report, as a law.

ghost use Rattle.std.specs.Prelude.{◌≡◌};
ghost use Rattle.status_report.specs.declared.reports.Report.{Report};
ghost use Rattle.status_report.specs.declared.Reply.TheVariants.{Report as Reporting};
ghost use Rattle.status_report.specs.Replies.{reply_text};
ghost use Rattle.status_report.specs.Reports.{IsReport, HasWidths};

/// Reports that have the same text are the same: each field can be read back.
pub fn reports_are_told_apart()
    ensures { (r other : Report) → IsReport r → HasWidths r → IsReport other → HasWidths other → reply_text (Reporting r) ≡ reply_text (Reporting other) → r ≡ other }
{}
