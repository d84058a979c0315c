//! While the module of an accepted run is made item by item, in order, what is declared so far tells, by name, every symbol that the next kept
//! item mentions, and the next declaration may follow.
//!
//! There is no code: what is shown beyond lemmas is a function that does nothing, whose contract is the law.
//!
//! | File | Laws of |
//! |---|---|
//! | `Told` | what a module tells of a sequent and of an item |
//! | `Making` | a module made item by item: what is declared so far, the next item, the next step, and the statements about them |
//! | `Positions` | the first place at which a test passes; what stands at a place of a list |
//! | `ItemNames` | the names of a module's items: no other item could have that of a symbol's |
//! | `DeclaredNumbers` | which number a name has among what is declared so far |
//! | `MadeInOrder` | the items of a run in the order in which they were made, and those of them that its module has |
//! | `ToldKeys` | each operator and each constant among the items so far is told |
//! | `NextTells` | what asks for nothing but the items so far is told |
//! | `NextSteps` | what the next step is in the module, and that its premises are kept with it |
//! | `NextItems` | what the next step and the next symbol add to the module |
//! | `NextDefinitions` | what the next type definition adds, and that its premise is kept with it |
#![tactic(auto)]

ghost use Rattle.image_items_laws.specs.Making.{NextTells, NextFollows, NextMade, NextPremises, ItemsGrow, ItemsStay, KeptStays, OthersGo, NextStepKept, NextStepGone, NextSymbolKept, NextSymbolGone, NextDefinitionKept, NextDefinitionGone, NextDefinition, SoundCarried};

/// What is declared so far of the module of a run that is sound and has names tells the symbol of each operator and each
/// constant that the next item mentions, and declares each such constant at its generic type, of which the constant's type
/// is an instance.
pub fn next_tells()
    ensures { NextTells }
{}

/// The declaration of the next item may follow: its name is new, and its trees are over what is declared so far.
pub fn next_follows()
    ensures { NextFollows }
{}

/// The next item has the next number, is new, and asks for nothing but the items so far.
pub fn next_made()
    ensures { NextMade }
{}

/// In the module the premises of a step have the symbols of what earlier steps say; and where a step with a proof is kept,
/// each premise that its proof needs is.
pub fn next_premises()
    ensures { NextPremises }
{}

/// The items of one thing more stand after those of what was made before it.
pub fn items_grow()
    ensures { ItemsGrow }
{}

/// What was made keeps its items, whatever is made later.
pub fn items_stay()
    ensures { ItemsStay }
{}

/// A kept item stands in the module after what is kept of the items before it.
pub fn kept_stays()
    ensures { KeptStays }
{}

/// An item that isn't kept adds nothing to the module.
pub fn others_go()
    ensures { OthersGo }
{}

/// A step that is kept adds to the module its item, the next one.
pub fn next_step_kept()
    ensures { NextStepKept }
{}

/// Another step adds nothing.
pub fn next_step_gone()
    ensures { NextStepGone }
{}

/// A content of a symbol that is kept adds to the module its item, the next one.
pub fn next_symbol_kept()
    ensures { NextSymbolKept }
{}

/// Another content of a symbol adds nothing.
pub fn next_symbol_gone()
    ensures { NextSymbolGone }
{}

/// A content of a type definition that is kept adds to the module its item, the next one.
pub fn next_definition_kept()
    ensures { NextDefinitionKept }
{}

/// Another content of a type definition adds nothing.
pub fn next_definition_gone()
    ensures { NextDefinitionGone }
{}

/// The premise of a type definition is what an earlier step says, and is kept where a content of the definition is.
pub fn next_definition()
    ensures { NextDefinition }
{}

/// The module of a run that is sound is shaped, well typed and priced, and each export is what an item says.
pub fn sound_carried()
    ensures { SoundCarried }
{}
