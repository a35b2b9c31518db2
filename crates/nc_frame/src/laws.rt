//! Laws of frames. Each function does nothing; its contract is the law.

ghost use Rattle.nc_frame.specs.Frames.{ProperPrefixesAreTorn, PrefixesOfTornAreTorn};

/// A write of a whole frame that is cut off leaves no whole frame, and nor does any further cut.
pub fn proper_prefixes_are_torn()
    ensures { ProperPrefixesAreTorn }
{}

/// What is left of torn bytes is torn.
pub fn prefixes_of_torn_are_torn()
    ensures { PrefixesOfTornAreTorn }
{}
