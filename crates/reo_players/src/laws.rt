//! Laws of components. Each function is empty: its contract is a law.
ghost use Rattle.reo_players.specs.Players.{StuckIsNotDone};
ghost use Rattle.reo_players.specs.Offers.{OffersAgree};

/// The offers that are found are those that the words say.
pub fn offers_agree()
    ensures { OffersAgree }
{}

/// Where nobody counts and nothing flows, nobody becomes done.
pub fn stuck_is_not_done()
    ensures { StuckIsNotDone }
{}
