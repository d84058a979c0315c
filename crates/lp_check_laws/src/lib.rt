//! Which declarations come from higher-order logic, how they are checked, and why a check that says yes may be believed.
//!
//! There is no code. The directed rules of typing with the price of each answer, and the shapes of the declarations that translation makes,
//! are defined in `lp_spec` (`HeadSteps`, `Check`, `Shaped`); here are laws of them. What is shown beyond lemmas is a function that does nothing, whose
//! contract is the law.
//!
//! | File | What it has |
//! |---|---|
//! | `ShapedParts` | the shapes of what a type definition defines |
//! | `HeadStepLaws`, `ConvertLaws` | a head step is a chain of steps, and what is found convertible is |
//! | `CheckLaws`, `PlanLaws`, `CheckerLaw` | a check has one answer and one price; what passes is typed |
//! | `Sizes`, `Found`, `SizedTerms`, `TermPrice`, `DeclaredPrice`, `ProofPrice`, `LawSpreads`, `LawPrice` | what the rules find of shaped trees, and at which price |
//! | `ShapedCalls`, `ShapedRows`, `ShapedPasses`, `PricedModules` | a shaped declaration passes within 64 times the square of its weight, and a shaped module is well typed |
//! | `FastCheck`, `ClosedTrees`, `EarlierDeclarations` | a check without rechecks of sorts; what is found of closed trees owes nothing to the context, and nothing to later declarations |
//! | `ShapeStatements` | the statements of the functions below |
#![tactic(auto)]

ghost use Rattle.lp_check_laws.specs.CheckerLaw.{CheckerLaw};
ghost use Rattle.lp_check_laws.specs.ShapeStatements.{EarlierAlone, ShapedPass, ShapedTyped};

/// The checker's law: a module whose declarations pass, each over those before it, is well typed.
pub fn checker_law()
    ensures { CheckerLaw }
{}

/// The check of a shaped declaration says yes at a price of at most 64 times the square of its weight.
pub fn shaped_pass()
    ensures { ShapedPass }
{}

/// A module of shaped declarations is well typed.
pub fn shaped_typed()
    ensures { ShapedTyped }
{}

/// The check of a declaration of a module, over those before it, is its check over the whole module.
pub fn earlier_alone()
    ensures { EarlierAlone }
{}
