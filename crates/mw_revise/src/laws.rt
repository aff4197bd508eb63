// Laws of twin starts, and of when two programs agree.
ghost use Rattle.mw_revise.specs.Laws.{AgreeWhereNoneDiffers, AgreeWithoutWaits, NoneDiffersAlike, SameShowNothing};
ghost use Rattle.mw_revise.specs.Laws.{OneTwinCaseIsFirst, TwinCasesHaveOneEnd};
ghost use Rattle.mw_revise.specs.Laws.{ThinnedAreTwinStarts, TwinCasesAreThinned, TwinDifferencesAreThinned};

/// The law of twin starts: one shows no difference exactly where both first segments keep the bound, end at the same
/// boundary with states that stand together there, and have the same events.
pub fn same_show_nothing()
    ensures { SameShowNothing }
{}

/// The law of revisions: two programs agree, over all runs, exactly where no twin start differs over its two first
/// segments.
pub fn agree_where_none_differs()
    ensures { AgreeWhereNoneDiffers }
{}

/// The law of twin starts with waits: without its waits a twin start is again a twin start.
pub fn thinned_are_twin_starts()
    ensures { ThinnedAreTwinStarts }
{}

/// The law of what twins show: they show the difference, if any, that they show without their waits.
pub fn twin_differences_are_thinned()
    ensures { TwinDifferencesAreThinned }
{}

/// The law of differences with waits: no twin start differs exactly where none without waits does.
pub fn none_differs_alike()
    ensures { NoneDiffersAlike }
{}

/// The law of revisions with waits: two programs agree, over all environments, exactly where no twin start without
/// waits differs. So whether they agree can be decided over environments without waits.
pub fn agree_without_waits()
    ensures { AgreeWithoutWaits }
{}

/// The law of cases with waits: twins have as many cycles on each side, are late there, and decide the same bits as
/// without their waits.
pub fn twin_cases_are_thinned()
    ensures { TwinCasesAreThinned }
{}

/// The law of order: of two feasible cases of a block that aren't one, one comes before the other.
pub fn one_twin_case_is_first()
    ensures { OneTwinCaseIsFirst }
{}

/// The law of ends: twin starts at a block with one case have segments of as many cycles on each side, late or not
/// alike; where the old segment is late the new one isn't asked about.
pub fn twin_cases_have_one_end()
    ensures { TwinCasesHaveOneEnd }
{}
