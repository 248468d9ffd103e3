//! Laws of places and belongings. The functions do nothing; what they ensure is for contracts and proofs.

ghost use Rattle.mako_shape.specs.Places.{WordsAddUp, IndexesAreBelow, AreasAreDisjoint, AreasCover, WriteIsRead};
ghost use Rattle.mako_shape.specs.Places.{WriteLeavesOthers};
ghost use Rattle.mako_shape.specs.Belongings.{BelongingsAreInRange, PartsBelong, AddressesBelong, OpeningHomesAreGood};

/// The areas are disjoint and cover all words.
pub fn areas()
    ensures sum { WordsAddUp }
    ensures below { IndexesAreBelow }
    ensures disjoint { AreasAreDisjoint }
    ensures cover { AreasCover }
{}

/// A write at a place changes the word there, and no word at another place.
pub fn writes()
    ensures read { WriteIsRead }
    ensures others { WriteLeavesOthers }
{}

/// What belongs to what, and that this stays in range.
pub fn belongings()
    ensures in_range { BelongingsAreInRange }
    ensures parts { PartsBelong }
    ensures addresses { AddressesBelong }
    ensures homes { OpeningHomesAreGood }
{}
