//! Lists, from the front.

ghost use Rattle.std.specs.Prelude.{◌≡◌, ◌∷◌, [], List, true};
ghost use Rattle.hc_cbuild.specs.Names.{is_name};
ghost use Rattle.hc_cmach.specs.State.{Word};
ghost use Rattle.hc_cast.specs.declared.expr.CExpr.{CExpr};
ghost use Rattle.hc_cast.specs.declared.stmt.CStmt.{CStmt};
ghost use Rattle.hc_cast.specs.declared.program.CFunction.{CFunction};
ghost use Rattle.hc_cbuild.specs.Makes.{Makes};

use hc_cast::{CExpr, CFunction, CStmt};
use hc_cbuild::word;
use hc_frac::Name;
use hc_list::List;
use std::alloc::{AllocError, Global};

/// No names.
pub fn no_names(alloc: Global) -> Result<List<Name>, AllocError>
    ensures { Makes result [] }
{
    Ok(List::new(alloc))
}

/// A name in front of others.
pub fn name_then(
    alloc: Global,
    name: &[u8],
    rest: Result<List<Name>, AllocError>,
) -> Result<List<Name>, AllocError>
    requires { is_name name.now ≡ true }
    ensures { (ws : List Word) → Makes rest ws → Makes result (name.now ∷ ws) }
{
    let rest = rest?;
    let mut found = List::new(alloc);
    found.push(word(name))?;
    found.append(rest)?;
    Ok(found)
}

/// No expressions.
pub fn no_exprs(alloc: Global) -> Result<List<CExpr>, AllocError>
    ensures { Makes result [] }
{
    Ok(List::new(alloc))
}

/// An expression in front of others.
pub fn expr_then(
    alloc: Global,
    first: Result<CExpr, AllocError>,
    rest: Result<List<CExpr>, AllocError>,
) -> Result<List<CExpr>, AllocError>
    ensures { (e : CExpr) (es : List CExpr) → Makes first e → Makes rest es → Makes result (e ∷ es) }
{
    let first = first?;
    let rest = rest?;
    let mut found = List::new(alloc);
    found.push(first)?;
    found.append(rest)?;
    Ok(found)
}

/// No statements.
pub fn no_stmts(alloc: Global) -> Result<List<CStmt>, AllocError>
    ensures { Makes result [] }
{
    Ok(List::new(alloc))
}

/// A statement in front of others.
pub fn stmt_then(
    alloc: Global,
    first: Result<CStmt, AllocError>,
    rest: Result<List<CStmt>, AllocError>,
) -> Result<List<CStmt>, AllocError>
    ensures { (s : CStmt) (ss : List CStmt) → Makes first s → Makes rest ss → Makes result (s ∷ ss) }
{
    let first = first?;
    let rest = rest?;
    let mut found = List::new(alloc);
    found.push(first)?;
    found.append(rest)?;
    Ok(found)
}

/// No functions.
pub fn no_functions(alloc: Global) -> Result<List<CFunction>, AllocError>
    ensures { Makes result [] }
{
    Ok(List::new(alloc))
}

/// A function in front of others.
pub fn function_then(
    alloc: Global,
    first: Result<CFunction, AllocError>,
    rest: Result<List<CFunction>, AllocError>,
) -> Result<List<CFunction>, AllocError>
    ensures { (f : CFunction) (fs : List CFunction) → Makes first f → Makes rest fs → Makes result (f ∷ fs) }
{
    let first = first?;
    let rest = rest?;
    let mut found = List::new(alloc);
    found.push(first)?;
    found.append(rest)?;
    Ok(found)
}
