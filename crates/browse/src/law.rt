//! The law of browsing.

ghost use Rattle.browse.specs.Law.{BrowsingIsLawful, NextTellsTheNearest};

/// Of every book that the check accepts, every lawful measure, every query and every list of turns by two hands: the
/// answers of a browse keep the law. And each `next` tells the nearest pick not yet told, if it is within the limit.
pub fn browsing_is_lawful()
    ensures lawful { BrowsingIsLawful }
    ensures nearest { NextTellsTheNearest }
{}
