//! Laws of causes.

ghost use Rattle.record_causes.specs.Laws.{NamesDifferences, FirstIsNamed, CauseIsTrue};

/// What a cause means.
///
/// There is one if and only if the products of two records differ (`exact`). No command before it made other files than the other record's
/// (`first`). Its command did, and what is named differs where it says, with all the same that is looked at before (`differs`).
pub fn causes()
    ensures exact { NamesDifferences }
    ensures first { FirstIsNamed }
    ensures differs { CauseIsTrue }
{}
