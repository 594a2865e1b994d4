//! What is counted along a source.

ghost use Rattle.std.specs.Prelude.{◌≡◌, ◌≤◌, OnOk, IfErr};
ghost use Rattle.hc_limits.specs.Limits.{most_open_items, most_nodes};
ghost use Rattle.hc_ast.specs.Counts as spec;

use hc_ast::{Flaw, Mark, Role};
use hc_limits::{MOST_NODES, MOST_OPEN_ITEMS};

/// Open items, and the nodes of the outermost expression or condition so far.
#[derive(Clone, Copy, Debug)]
pub(crate) struct Counts {
    open_items: u32,
    nodes: u32,
    ghost few_items: { open_items ≤ most_open_items },
    ghost few_nodes: { nodes ≤ most_nodes },
}

impl Counts {
    ghost use Rattle.hc_parse.specs.Counted.{counted};

    /// Before the first token.
    pub(crate) fn new() -> Self
        ensures { counted result ≡ spec.opening }
    {
        Counts {
            open_items: 0,
            nodes: 0,
        }
    }

    /// Counts a token in its role, if it goes beyond no limit.
    pub(crate) fn token(&mut self, role: Role) -> Result<(), Flaw>
        ensures ok { OnOk result (counted self.new ≡ spec.after_token role (counted self.old)) }
        ensures within { OnOk result (spec.beyond role (counted self.old) ≡ None) }
        ensures err { IfErr result (λ flaw. spec.beyond role (counted self.old) ≡ Some flaw) }
    {
        let opens = matches!(role, Role::Prefix | Role::Begin | Role::Open);
        let is_node = matches!(role, Role::Leaf | Role::Operator | Role::Prefix);
        if opens && self.open_items >= MOST_OPEN_ITEMS {
            return Err(Flaw::TooDeep);
        }
        if is_node && self.nodes >= MOST_NODES {
            return Err(Flaw::TooManyNodes);
        }
        if opens {
            self.open_items += 1;
        }
        if is_node {
            self.nodes += 1;
        }
        if role == Role::Close {
            self.open_items = self.open_items.saturating_sub(1);
        }
        Ok(())
    }

    /// Counts a mark.
    pub(crate) fn mark(&mut self, mark: Mark)
        ensures { counted self.new ≡ spec.after_mark mark (counted self.old) }
    {
        match mark {
            Mark::Negate | Mark::Not => self.open_items = self.open_items.saturating_sub(1),
            Mark::Fresh => self.nodes = 0,
            _ => {}
        }
    }
}
