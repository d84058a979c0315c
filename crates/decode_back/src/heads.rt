//! The terms of heads: of variables, and of constants at the types of their first arguments; and the types of binders.
ghost use Rattle.std.specs.Prelude.{◌≡◌, ◌<◌, ◌≤◌, ◌+◌, ℕ, length, IfOk, IfSome, OnOk, MatchOption};
ghost use Rattle.hol_spec.specs.Limits.{greatest_depth, greatest_size};
ghost use Rattle.hol_spec.specs.Substitution.{substitute};
ghost use Rattle.hol_spec.specs.Terms as term;
ghost use Rattle.lp_spec.specs.Trees.{Sym, Var};
ghost use Rattle.lp_term.specs.Tables as lp;
ghost use Rattle.hol_term.specs.Tables.{type_at, Holds, Keeps};
ghost use Rattle.hol_type.specs.Tables as type;
ghost use Rattle.decode_spec.specs.Options.{bind};
ghost use Rattle.decode_spec.specs.Decode.{constant_at as constant_meant, term_part};
ghost use Rattle.decode_back.specs.Walks.{greatest_number, IsConstant, IsTypeFound};
ghost use Rattle.decode_back.specs.Sources.{declared, place_of, told, told_type, tree_of, trees_of, IsDecoded, IsHeadDecoded, IsReadable, IsSource};
ghost use Rattle.decode_back.specs.TermWalks.{AreTypeArguments, IsConstantMade};

use crate::budgets::spend;
use crate::constants::{Constant, constant_at, symbol_argument};
use crate::names::parameter_name;
use crate::sources::Source;
use crate::types::decode_type;
use common::{Fault, Memory, Stack};
use hol_name::Name;
use hol_term::{TermId, TermTable};
use hol_type::TypeId;
use holide_sig::SIGNATURE;
use holide_sig::symbols::TERM;
use lp_term::LpId;

// The type over which the domain of a binder tells terms.
pub(crate) fn binder(
    source: Source<'_>,
    table: &mut TermTable,
    level: usize,
    domain: LpId,
) -> Result<Option<TypeId>, Memory>
    requires source { IsReadable source }
    requires level { level ≤ greatest_depth }
    requires known { domain.0 < length source.base.now.table }
    ensures decoded { IfOk result (IsTypeFound level (bind (term_part (tree_of source.entry domain)) (told_type source.entry)) table.new) }
    ensures known { IfOk result (λ found. IfSome found (λ t. t.0 < length table.new.types)) }
    ensures keeps { Keeps table.old table.new }
{
    let Some(tree) = symbol_argument(&source.base.table, TERM, domain) else {
        return Ok(None);
    };
    decode_type(source.alloc, source.base, source.place, table, level, tree)
}

// The term of a variable: of a binder of its own, or of a free variable of the sequent.
pub(crate) fn variable(
    source: Source<'_>,
    table: &mut TermTable,
    budget: &mut u64,
    number: u128,
) -> Result<Option<TermId>, Memory>
    requires source { IsSource table.old source }
    requires budget { budget.old ≤ greatest_size }
    ensures decoded { IfOk result (λ found. (level : ℕ)
        → IsDecoded source.entry level (told source.entry (Var number)) table.old budget.old table.new budget.new found) }
    ensures known { IfOk result (λ found. IfSome found (λ t. t.0 < length table.new.terms)) }
    ensures budget { budget.new ≤ budget.old }
    ensures keeps { Keeps table.old table.new }
{
    let place = source.place;
    if number < place.binders as u128 {
        return bound(source.innermost, table, budget, number);
    }
    let depth = place.depth();
    if number >= depth {
        return Ok(None);
    }
    let outer = depth - 1 - number;
    if outer < place.type_variables as u128 {
        return Ok(None);
    }
    let free = outer - place.type_variables as u128;
    if free >= place.free_variables as u128 {
        return Ok(None);
    }
    let made = source.variables[free as usize];
    if !spend(budget, table.size(made)) {
        return Ok(None);
    }
    Ok(Some(made))
}

// The term of a variable that a binder of its own binds.
fn bound(
    innermost: TermId,
    table: &mut TermTable,
    budget: &mut u64,
    number: u128,
) -> Result<Option<TermId>, Memory>
    requires innermost { Holds table.old innermost.0 (term.bound 0) }
    ensures found { IfOk result (λ found. MatchOption found (budget.old ≡ 0) (λ id. Holds table.new id.0 (term.bound number))) }
    ensures spent { IfOk result (λ found. IfSome found (λ id. budget.new + 1 ≡ budget.old)) }
    ensures known { IfOk result (λ found. IfSome found (λ t. t.0 < length table.new.terms)) }
    ensures budget { budget.new ≤ budget.old }
    ensures keeps { Keeps table.old table.new }
{
    if !spend(budget, 1) {
        return Ok(None);
    }
    match table.lift(number, innermost) {
        Ok(made) => Ok(Some(made)),
        Err(_) => Err(Memory),
    }
}

// The constant that a symbol stands for at the types of its first arguments, which it takes off the spine.
pub(crate) fn constant(
    source: Source<'_>,
    table: &mut TermTable,
    budget: &mut u64,
    level: usize,
    symbol: usize,
    args: &mut Stack<LpId>,
) -> Result<Option<TermId>, Memory>
    requires source { IsReadable source }
    requires budget { budget.old ≤ greatest_size }
    requires level { level ≤ greatest_depth }
    requires args { lp.AreKnown source.base.now.table args.old }
    ensures decoded { IfOk result (IsHeadDecoded source.entry level (Sym symbol) args.old args.new budget.old budget.new table.new) }
    ensures known { IfOk result (λ found. IfSome found (λ t. t.0 < length table.new.terms)) }
    ensures args { OnOk result (lp.AreKnown source.entry.base.now.table args.new) }
    ensures budget { budget.new ≤ budget.old }
    ensures keeps { Keeps table.old table.new }
{
    if symbol >= SIGNATURE + source.base.decls.len() {
        return Ok(None);
    }
    let Some(constant) = constant_at(source.alloc, source.base, table, symbol, *budget)? else {
        return Ok(None);
    };
    let found = at_arguments(source, table, budget, level, &constant, args);
    drop(constant);
    found
}

// A constant at the types of its first arguments, which it takes off the spine.
fn at_arguments(
    source: Source<'_>,
    table: &mut TermTable,
    budget: &mut u64,
    level: usize,
    constant: &Constant,
    args: &mut Stack<LpId>,
) -> Result<Option<TermId>, Memory>
    requires source { IsReadable source }
    requires budget { budget.old ≤ greatest_size }
    requires level { level ≤ greatest_depth }
    requires count { constant.now.variables ≤ greatest_number }
    requires generic { constant.now.generic.0 < length table.old.types }
    requires args { lp.AreKnown source.base.now.table args.old }
    ensures decoded { IfOk result (λ found. (symbol : ℕ) → IsConstant (constant_meant (declared source.entry) symbol) table.old constant.now
        → IsHeadDecoded source.entry level (Sym symbol) args.old args.new budget.old budget.new table.new found) }
    ensures known { IfOk result (λ found. IfSome found (λ t. t.0 < length table.new.terms)) }
    ensures args { OnOk result (lp.AreKnown source.entry.base.now.table args.new) }
    ensures budget { budget.new ≤ budget.old }
    ensures keeps { Keeps table.old table.new }
{
    let Some(pairs) = type_arguments(source, table, level, constant.variables, args)? else {
        return Ok(None);
    };
    let found = instance(table, budget, constant, &pairs);
    drop(pairs);
    found
}

// A constant at these types of its variables.
fn instance(
    table: &mut TermTable,
    budget: &mut u64,
    constant: &Constant,
    pairs: &[(Name, TypeId)],
) -> Result<Option<TermId>, Memory>
    requires pairs { type.ArePairsKnown table.old.types pairs.now }
    requires generic { constant.now.generic.0 < length table.old.types }
    requires budget { budget.old ≤ greatest_size }
    ensures made { IfOk result (IsConstantMade constant.now.name
        (substitute (type.pairs_at table.old.types pairs.now) (type_at table.old constant.now.generic.0)) budget.old budget.new table.new) }
    ensures known { IfOk result (λ found. IfSome found (λ t. t.0 < length table.new.terms)) }
    ensures budget { budget.new ≤ budget.old }
    ensures keeps { Keeps table.old table.new }
{
    let instance = match table.ty_subst(pairs, constant.generic) {
        Ok(instance) => instance,
        Err(Fault::Memory) => return Err(Memory),
        Err(Fault::Refused(_)) => return Ok(None),
    };
    let made = match table.constant(&constant.name, instance) {
        Ok(made) => made,
        Err(Fault::Memory) => return Err(Memory),
        Err(Fault::Refused(_)) => return Ok(None),
    };
    if !spend(budget, table.size(made)) {
        return Ok(None);
    }
    Ok(Some(made))
}

// The types of so many arguments, each with the name of the variable for which it stands. They are taken off the spine.
fn type_arguments(
    source: Source<'_>,
    table: &mut TermTable,
    level: usize,
    count: usize,
    args: &mut Stack<LpId>,
) -> Result<Option<Vec<(Name, TypeId)>>, Memory>
    requires source { IsReadable source }
    requires count { count ≤ greatest_number }
    requires level { level ≤ greatest_depth }
    requires args { lp.AreKnown source.base.now.table args.old }
    ensures types { IfOk result (AreTypeArguments level (declared source.entry) (place_of source.entry) count
        (trees_of source.entry args.old) (trees_of source.entry args.new) table.new) }
    ensures known { IfOk result (λ found. IfSome found (λ pairs. type.ArePairsKnown table.new.types pairs.items)) }
    ensures args { OnOk result (lp.AreKnown source.entry.base.now.table args.new) }
    ensures keeps { Keeps table.old table.new }
{
    let mut pairs = Vec::new(source.alloc);
    for number in 0..count {
        let Some(arg) = args.pop() else {
            return Ok(None);
        };
        let Some(ty) = decode_type(source.alloc, source.base, source.place, table, level, arg)?
        else {
            return Ok(None);
        };
        pairs.push((parameter_name(source.alloc, number)?, ty))?;
    }
    Ok(Some(pairs))
}
