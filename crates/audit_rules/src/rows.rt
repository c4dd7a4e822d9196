//! Worked texts.

ghost use Rattle.audit_rules.specs.Rows.{NothingFits, OneStepFits, CompactFits, OtherStep, NoEnd, MoreBehindEnd, OtherAnswer, HomingIsForeign};

/// An empty job and one step fit, the step in both forms. The step the other way, a missing end and what follows the end
/// break a rule, each at its byte. An error in place of the answer is a bad reply. A job that asks for homing is not
/// audited.
pub fn worked_findings()
    ensures nothing { NothingFits }
    ensures one_step { OneStepFits }
    ensures compact { CompactFits }
    ensures other_step { OtherStep }
    ensures no_end { NoEnd }
    ensures more { MoreBehindEnd }
    ensures other_answer { OtherAnswer }
    ensures homing { HomingIsForeign }
{}
