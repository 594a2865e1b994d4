//! Whether the processes are small enough, told without expanding them.

ghost use Rattle.std.specs.Prelude.{◌≡◌, [], map, fold, sum_by, IfOk, OnOk, IfErr};
ghost use Rattle.hc_modules.specs.Calls.{bindings};
ghost use Rattle.hc_modules.specs.Counted.{add};
ghost use Rattle.hc_modules.specs.declared.flat.ModuleStop.TheVariants.{TooManyNodes};
ghost use Rattle.hc_modules.specs.declared.nodes.NodeCount.TheVariants.{Within};
ghost use Rattle.hc_modules.specs.Expansion.{statements_of, flat_process};
ghost use Rattle.hc_modules.specs.Finds.{statements_too_many, nodes_too_many};
ghost use Rattle.hc_modules.specs.Found.{count_of, IsFirst, told};
ghost use Rattle.hc_modules.specs.Outermost.{all_outermost};
ghost use Rattle.hc_modules.specs.Replaced.{stmt_in};
ghost use Rattle.hc_modules.specs.Sizes.{all_statements, statements};

use crate::arguments::module_of;
use crate::call::Call;
use crate::counts::statements_of_all;
use crate::flat::ModuleStop;
use crate::nodes::NodeCount;
use hc_ast::{Body, ModuleDef, ProcessDef, StmtTree};
use hc_frac::Place;
use hc_limits::MOST_STATEMENTS;
use std::alloc::{AllocError, Global};

/// The statements that a process has, with the call in which they stand; those of its own stand in a call without parameters.
#[derive(Drop)]
pub(crate) struct Work<'a> {
    pub(crate) call: Call<'a>,
    pub(crate) statements: &'a [StmtTree],
}

/// What a process does.
pub(crate) fn work_of<'a>(
    alloc: Global,
    modules: &'a [ModuleDef],
    body: &'a Body,
) -> Result<Work<'a>, AllocError>
    ensures { IfOk result (λ w. map (stmt_in (bindings w.call)) w.statements.now ≡ statements_of modules.now body.now) }
{
    match body {
        Body::Inline(statements) => own_work(alloc, statements.as_slice()),
        Body::Call {
            place: _,
            module,
            arguments,
        } => match module_of(modules, module) {
            Some(module) => Ok(Work {
                call: Call::new(alloc, module.params.as_slice(), arguments.as_slice())?,
                statements: module.body.as_slice(),
            }),
            None => own_work(alloc, &[]),
        },
    }
}

#[tactic(auto, using(crate::proofs::Unbound::stmts_unbound))]
fn own_work<'a>(alloc: Global, statements: &'a [StmtTree]) -> Result<Work<'a>, AllocError>
    ensures { IfOk result (λ w. map (stmt_in (bindings w.call)) w.statements.now ≡ statements.now) }
{
    Ok(Work {
        call: Call::new(alloc, &[], &[])?,
        statements,
    })
}

/// The statements of a process, or of the module that it calls: as many as it has after expansion.
fn uncalled<'a>(modules: &'a [ModuleDef], body: &'a Body) -> &'a [StmtTree]
    ensures { sum_by statements result.now ≡ sum_by statements (statements_of modules.now body.now) }
{
    match body {
        Body::Inline(statements) => statements.as_slice(),
        Body::Call { module, .. } => match module_of(modules, module) {
            Some(module) => module.body.as_slice(),
            None => &[],
        },
    }
}

/// How many statements there are. An error is the process with the 10,001st.
pub(crate) fn count_statements(
    modules: &[ModuleDef],
    processes: &[ProcessDef],
) -> Result<u32, Place>
    ensures { result ≡ count_of (statements_too_many (map (flat_process modules.now) processes.now)) (all_statements (map (flat_process modules.now) processes.now)) }
{
    let mut counted: u32 = 0;
    for process in processes {
        let here = statements_of_all(uncalled(modules, &process.body));
        counted = counted.saturating_add(here);
        if counted > MOST_STATEMENTS {
            return Err(process.place);
        }
    }
    Ok(counted)
}

fn count_nodes(
    alloc: Global,
    modules: &[ModuleDef],
    processes: &[ProcessDef],
) -> Result<NodeCount, AllocError>
    ensures { IfOk result (λ count. count ≡ fold add (Within 0) (all_outermost (map (flat_process modules.now) processes.now))) }
{
    let mut count = NodeCount::Within(0);
    for process in processes {
        let here = work_of(alloc, modules, &process.body)?;
        count = count.stmts(&here.call, here.statements);
    }
    Ok(count)
}

/// The expression or condition with the 50,001st node is refused.
pub(crate) fn no_node_too_many(
    alloc: Global,
    modules: &[ModuleDef],
    processes: &[ProcessDef],
) -> Result<(), ModuleStop>
    ensures ok { OnOk result (nodes_too_many (all_outermost (map (flat_process modules.now) processes.now)) ≡ []) }
    ensures stop { IfErr result (IsFirst told (map TooManyNodes (nodes_too_many (all_outermost (map (flat_process modules.now) processes.now))))) }
{
    match count_nodes(alloc, modules, processes)? {
        NodeCount::Within(_) => Ok(()),
        NodeCount::Beyond(place) => Err(ModuleStop::TooManyNodes { place }),
    }
}
