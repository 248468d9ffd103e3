//! Laws of acts. The functions do nothing; what they ensure is for contracts and proofs.

ghost use Rattle.mako_step.specs.Acts.{SumsAreExact, ChangesOneWord};

/// An add and a subtraction that stay within 64 bits are those of numbers.
pub fn sums()
    ensures { SumsAreExact }
{}

/// An act changes the word that it names as its operation says, and no other.
pub fn acts()
    ensures { ChangesOneWord }
{}
