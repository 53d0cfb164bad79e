//! Laws of what listing boundary tables answers.
ghost use Rattle.reo_listing.specs.answers.Laws.{ListingExists, ListingIsOne};

/// Each circuit is listed, or it is refused: where its joints have an order, some answer beside
/// want of memory is right.
pub fn listing_exists()
    ensures { ListingExists }
{}

/// A circuit is listed in one way, where memory does not run out.
pub fn one_listing()
    ensures { ListingIsOne }
{}
