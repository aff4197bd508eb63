// Laws of starts with waits, and of what is certified over all environments.
ghost use Rattle.mw_ready.specs.StartLaws.{CasesAreAlike, CasesAreThinned, CertifiedAlike, DifferencesAreThinned};
ghost use Rattle.mw_ready.specs.StartLaws.{CertifiedWhereNoneDiffers, StartsDifferAsThinned, StartsFollow};
ghost use Rattle.mw_ready.specs.StartLaws.{StartsWithoutWaitsAreStarts, StepsDifferAsThinned, ThinnedAreStarts};

/// The law of starts with waits: without its waits a start of a job is one of its starts without waits.
pub fn thinned_are_starts()
    ensures { ThinnedAreStarts }
{}

/// The law of starts without waits: each start without waits is a start, and what it is without its waits.
pub fn starts_without_waits_are_starts()
    ensures { StartsWithoutWaitsAreStarts }
{}

/// The law of differences: a start shows the difference, if any, that it shows without its waits.
pub fn differences_are_thinned()
    ensures { DifferencesAreThinned }
{}

/// The law of starts that differ: a start differs exactly where it does without its waits, by the same difference.
pub fn starts_differ_as_thinned()
    ensures { StartsDifferAsThinned }
{}

/// The law of steps that differ: a start differs at a step exactly where it does without its waits, by the same
/// difference.
pub fn steps_differ_as_thinned()
    ensures { StepsDifferAsThinned }
{}

/// The law of the next segment: where a start shows no difference, the boundary reached, both states there and what is
/// left of the environment are again a start of the job.
pub fn starts_follow()
    ensures { StartsFollow }
{}

/// The law of cases with waits: a start has as many cycles, is late, and decides what it decides, as without its waits.
pub fn cases_are_thinned()
    ensures { CasesAreThinned }
{}

/// The law of all cases: the cases of a boundary over all environments are those over the ones without waits.
pub fn cases_are_alike()
    ensures { CasesAreAlike }
{}

/// The law of certification: a job is certified over all environments exactly where none of its starts differs.
pub fn certified_where_none_differs()
    ensures { CertifiedWhereNoneDiffers }
{}

/// The law of certification with waits: a job is certified over all environments exactly where it is over those without
/// waits.
pub fn certified_alike()
    ensures { CertifiedAlike }
{}
