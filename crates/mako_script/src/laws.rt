//! Laws and worked examples of the grammar: a text with its script, texts of none, and the first fault of a text.

ghost use Rattle.std.specs.Prelude.{◌≡◌, ◌∷◌, [], ℕ, List, codes};
ghost use Rattle.mako_script.specs.declared.fault.Kind.{Kind};
ghost use Rattle.mako_script.specs.declared.fault.Kind.TheVariants.{NotAscii, Unclosed, Word, Number, Range, Undefined};
ghost use Rattle.mako_script.specs.declared.fault.Kind.TheVariants.{Names, NoMutator, Many, Entries, Words, Header};
ghost use Rattle.mako_text.specs.Scripts.{ScriptView};
ghost use Rattle.mako_text.specs.Texts.{IsScript};
ghost use Rattle.mako_script.specs.Faults.{HasFault, IsFirstFault};
ghost use Rattle.mako_reader.specs.Words.{lines_of};
ghost use Rattle.mako_script.specs.Examples.{header, many_entries_text, many_sections_text, many_words_text, storing};
ghost use Rattle.mako_script.specs.Examples.{storing_text, spaced_text, with_line};

/// The text that makes an object, stores a number in it and gets it back is that of its script.
pub fn a_text_has_its_script()
    ensures text { IsScript storing_text storing }
{}

/// The same text with a second space before a number is that of no script.
pub fn words_stand_one_space_apart()
    ensures { (s : ScriptView) → ¬ IsScript spaced_text s }
{}

/// A text is that of one script at most.
pub fn a_text_is_of_one_script()
    ensures { (text : List ℕ) → (s t : ScriptView) → IsScript text s → IsScript text t → s ≡ t }
{}

/// A text has one first fault at most, and one line that is told for it.
pub fn one_fault_is_the_first()
    ensures { (text : List ℕ) → (kind other : Kind) → (line told : ℕ) → IsFirstFault text kind line
        → IsFirstFault text other told → (kind ≡ other) × (line ≡ told) }
{}

/// The empty text is not closed at line 1.
pub fn an_empty_text_is_unclosed()
    ensures { IsFirstFault [] Unclosed 1 }
{}

/// That with a second space between two words has a wrong word at line 13.
pub fn a_second_space_is_a_wrong_word()
    ensures { IsFirstFault spaced_text Word 13 }
{}

/// The text of a script has no fault.
pub fn a_script_has_no_fault()
    ensures { (text : List ℕ) → (s : ScriptView) → IsScript text s → (at : ℕ) → (kind : Kind)
        → ¬ HasFault (lines_of text) at kind }
{}

/// Worked texts: line 13 behind the settings and the line that opens a section, the settings alone, 17 sections,
/// settings with too many entries and with too many words, and another key than the first.
pub fn worked_texts_have_their_faults()
    ensures undefined { IsFirstFault (with_line (codes "show x\n")) Undefined 13 }
    ensures range { IsFirstFault (with_line (codes "num n 4294967296\n")) Range 13 }
    ensures number { IsFirstFault (with_line (codes "num n 07\n")) Number 13 }
    ensures word { IsFirstFault (with_line (codes "make a 1\n")) Word 13 }
    ensures unended { IsFirstFault (with_line (codes "end")) Unclosed 13 }
    ensures unclosed { IsFirstFault (with_line []) Unclosed 13 }
    ensures ascii { IsFirstFault (with_line (128 ∷ [])) NotAscii 13 }
    ensures names { IsFirstFault (with_line (codes "num a 1\nnum b 1\nnum c 1\nnum d 1\n")) Names 16 }
    ensures mutators { IsFirstFault header NoMutator 12 }
    ensures many { IsFirstFault many_sections_text Many 44 }
    ensures entries { IsFirstFault many_entries_text Entries 11 }
    ensures words { IsFirstFault many_words_text Words 11 }
    ensures header { IsFirstFault (codes "servers 1\n") Header 1 }
{}
