//! The worked cases: what the definitions come to on the sample matrix, proved together.
#![tactic(auto)]

ghost use Rattle.worked.specs.Cases.{Cases};

/// All worked cases hold, of the definitions that the contracts cite.
#[tactic(auto, unfolding(search::specs::Digits::digits, search::specs::Digits::digits_in, search::specs::Halving::halves, search::specs::Halving::halving_asks, search::specs::Halving::halving_row, search::specs::Halving::last_granted, search::specs::Play::advanced, search::specs::Play::plays, search::specs::Play::step, search::specs::Play::tried, search::specs::Trial::trial_to))]
pub fn worked_cases()
    ensures { Cases }
{}
