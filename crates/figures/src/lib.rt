// The worked figures of the formats, together as one promise.
#![tactic(auto)]

ghost use Rattle.figures.specs.Figures.{Figures};

// A fact of its own: the documents name it by this function.
/// The worked figures hold of the formats.
pub fn figures_hold()
    ensures { Figures }
{}
