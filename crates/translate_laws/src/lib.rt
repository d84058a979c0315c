//! Laws of the translation and of modules, over the definitions of `translate_spec`: what translation does to substitution, and that what is
//! translated is shaped and so well typed.
//!
//! There is no code: what is shown beyond lemmas is a function that does nothing, whose contract is the law.
//!
//! | File | Laws of |
//! |---|---|
//! | `ScopeLaws`, `TermScopeLaws`, `DeepScopes`, `PuttingLaws`, `SimultaneousArguments`, `SubstitutionTranslated` | translation under lifting, putting and substitution |
//! | `ListedScopes`, `ToldParameters` | scopes that lists tell: those of the parameters of a sequent |
//! | `MeaningLaws`, `SequentEncoding` | what symbols and types stand for |
//! | `ScopeTyping`, `TheoremTyping`, `SequentScope`, `Bodies`, `BodyTyping` | what a scope and a premise must be |
//! | `ShapeLaws`, `ShapedScopes`, `ShapedTheorems`, `ShapedSequents` | translated terms, theorems and sequents are shaped |
//! | `ShapedRows`, `AbstractionBody`, `AbstractionRow`, `SubstitutionBody`, `SubstitutionRow`, `ComputingBodies`, `ComputingRows`, `RuleShapes` | every rule's proof is shaped |
//! | `PartTrees`, `PartRows` | the definitions of a type definition and its two laws are shaped |
//! | `ItemConditions`, `HeldItems`, `NeededSteps`, `MadeModules`, `KeptModules`, `WantedItems`, `ModuleTyping`, `ItemShapes` | what each item asks of those before it; what is reached is kept and renumbered; each declaration is shaped |
//! | `ShapesTyped`, `OrderedModules`, `PricedModules` | what is shaped is typed, over what stands before it, and checked at its price |
//! | `SymbolsHeld`, `DefinitionsHeld`, `SaidItems`, `AcceptedItems` | what a proof made is, as items, made in order; what items say |
//! | `NumeralLaws`, `ExportNames` | how names write numbers: differently, and so that tests tell the names of exports and short names |
//! | `TranslationStatements`, `TranslationShown`, `ShapeStatements`, `NameStatements` | the statements of the functions below |
#![tactic(auto)]

ghost use Rattle.translate_laws.specs.NameStatements.{ExportNamesTold, NumeralsDiffer, ShortNamesTold};
ghost use Rattle.translate_laws.specs.TranslationStatements.{SequentSubstitutionTranslated, SequentsEncoded, TermSubstitutionTranslated, TypeSubstitutionTranslated};
ghost use Rattle.translate_laws.specs.ShapeStatements.{ModulesPriced, ModulesShaped, ModulesTyped, RulesShaped, SequentsShaped, TermsShaped, TheoremsShaped};

/// The law of translation of substitution, for types: the tree of a type with types put is its tree in the scope of the images.
pub fn type_substitution_translated()
    ensures { TypeSubstitutionTranslated }
{}

/// The same for terms: types are put first, and no binder captures.
pub fn term_substitution_translated()
    ensures { TermSubstitutionTranslated }
{}

/// The same for sequents: what follows the products over type variables and free variables, with the translated images put in,
/// is the product over the substituted hypotheses, one for each, which ends in the substituted conclusion.
pub fn sequent_substitution_translated()
    ensures { SequentSubstitutionTranslated }
{}

/// The law of encodings: the tree of a sequent stands for its closed form.
pub fn sequents_encoded()
    ensures { SequentsEncoded }
{}

/// Numbers are written differently in names, however large they are.
pub fn numerals_differ()
    ensures { NumeralsDiffer }
{}

/// The test of the names of exports tells them exactly: `E` and a number without leading zeros.
pub fn export_names_told()
    ensures { ExportNamesTold }
{}

/// The test of short names tells them exactly: `X` and a number without leading zeros.
pub fn short_names_told()
    ensures { ShortNamesTold }
{}

/// The law of terms: the tree of a term is a term of the tree of its type.
pub fn terms_shaped()
    ensures { TermsShaped }
{}

/// The law of sequents: the telescope is declared, and the scope under it is shaped.
pub fn sequents_shaped()
    ensures { SequentsShaped }
{}

/// The law of theorems: one in a scope that fits its sequent is a shaped proof of its conclusion there.
pub fn theorems_shaped()
    ensures { TheoremsShaped }
{}

/// The law of rows: the proof of a step is shaped, and its found type is near its conclusion; so are the two laws of a type definition.
pub fn rules_shaped()
    ensures { RulesShaped }
{}

/// The law of modules: each declaration of what the roots reach, of what was made, is shaped.
pub fn modules_shaped()
    ensures { ModulesShaped }
{}

/// So the module is well typed.
pub fn modules_typed()
    ensures { ModulesTyped }
{}

/// And its check says yes, each declaration at a price of at most 64 times the square of its weight.
pub fn modules_priced()
    ensures { ModulesPriced }
{}
