//! Laws of the rounds in which bytes are asked for: functions whose contract is the law.
ghost use Rattle.wanted_ranges.specs.Rounds.{ThreeAreEnough, TwoAreEnough};

/// A law: of a file of a known size nothing more is wanted after three rounds, in each of which as
/// many bytes are given as were wanted; whatever was given at first. Of one whose size is known
/// only once it has ended, as a pipe, nothing more is wanted after two rounds, in each of which as
/// many are read as were wanted, or all. There is no need to run this.
pub fn rounds_end()
    ensures known { ThreeAreEnough }
    ensures pipes { TwoAreEnough }
{}
