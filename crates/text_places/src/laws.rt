//! The law of places.
ghost use Rattle.text_places.specs.Places.{PlacesAreDetermined};

/// Of the offsets of a text at which a character begins or the text ends, the line and the column determine one.
pub fn places_are_determined()
    ensures { PlacesAreDetermined }
{}
