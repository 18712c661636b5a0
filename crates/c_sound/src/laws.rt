//! Laws of the definitions. Each function computes nothing: its contract is the law.

ghost use Rattle.c_sound.specs.Laws.{InitialisersConvert, JumpsStayInside, OperationsHaveTypes, PlacesHaveTypes, ReturnsFit};

/// No `break` or `continue` of an accepted program leaves a function (6.8.6.2p1, 6.8.6.3p1).
pub fn jumps_stay_inside()
    ensures { JumpsStayInside }
{}

/// What an accepted program returns converts to the type of its function's result (6.8.6.4p3).
pub fn returns_fit()
    ensures { ReturnsFit }
{}

/// Each expression that an accepted program evaluates has the type that its operator gives (6.5). Constants, enumeration
/// constants and calls are left out, but for calls of known functions that aren't declared.
pub fn operations_have_types()
    ensures { OperationsHaveTypes }
{}

/// Each place that an accepted program comes to is of the type that its operator gives. Members are left out (6.3.2.1p1).
pub fn places_have_types()
    ensures { PlacesHaveTypes }
{}

/// What an accepted program gives for a part of an object that isn't static converts to the part's type (6.7.9p11).
pub fn initialisers_convert()
    ensures { InitialisersConvert }
{}
