// The law of the two readings, as the contract of a call that does nothing when it runs.
ghost use Rattle.geo_text.specs.Reading.{OneReadingLaw};

/// A record of which all fields are numbers is read as the record in these numbers.
pub fn one_reading()
    ensures { OneReadingLaw }
{}
