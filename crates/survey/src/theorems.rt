// What the survey means, each theorem the contract of a function.
ghost use Rattle.survey.specs.Theorems.{SurveyExact, RingWalkExact, SpotsMean};
ghost use Rattle.survey.specs.Cases.{SurveyCases};

// No fault exactly if the lists are within the limits and closed.
pub fn survey_exact()
    ensures { SurveyExact }
{}

// The walk round a vertex decides whether it has one ring.
pub fn ring_walk_exact()
    ensures { RingWalkExact }
{}

// A refusal's spot is the lowest that has the fault.
pub fn spots_mean()
    ensures { SpotsMean }
{}

// Worked cases.
pub fn survey_cases()
    ensures { SurveyCases }
{}
