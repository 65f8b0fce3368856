// Positions worked through by hand.
ghost use Rattle.rules.specs.Worked.{WorkedLaw};

// Does nothing. Its contract is that plain sweeps come to the outcome of each position worked through by hand.
pub fn worked_positions()
    ensures { WorkedLaw }
{}
