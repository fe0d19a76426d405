use crate::name::Name;
use sqlite_items::Items;
use std::cmp::Ordering;

/// One step of a path: a field, and the class that declares it.
#[derive(Debug, Drop, PartialEq, Eq, PartialOrd, Ord)]
pub struct PathStep {
    pub class: Name,
    pub field: Name,
}

/// A root followed by fields. Root 0 is the receiver, and root `i` is parameter `i`.
#[derive(Debug, Drop)]
pub struct Path {
    pub root: u8,
    pub steps: Items<PathStep>,
}

impl PartialEq for Path {
    ghost use Rattle.std.specs.Cmp.{partial_equiv_from_equiv};
    ghost use Rattle.std.specs.Cmp.Rules.{comparing};
    ghost use Rattle.std.proofs.Common.{rules};
    ghost use Rattle.jp_pred.specs.Paths.{same_path};

    ghost eq = { same_path };

    ghost laws = { partial_equiv_from_equiv (Prim.search (comparing, rules) depth 9) };

    fn eq(&self, other: &Path) -> bool {
        self.root == other.root && self.steps.as_slice() == other.steps.as_slice()
    }
}

impl Eq for Path {
    ghost use Rattle.std.specs.Cmp.Rules.{comparing};
    ghost use Rattle.std.proofs.Common.{rules};

    ghost laws = { Prim.search (comparing, rules) depth 9 };
}

impl PartialOrd for Path {
    ghost use Rattle.std.specs.Ordering.{as_partial_cmp};
    ghost use Rattle.std.specs.Cmp.{partial_order_from_own_ties};
    ghost use Rattle.std.specs.Cmp.Rules.{comparing};
    ghost use Rattle.std.proofs.Common.{rules};
    ghost use Rattle.jp_pred.specs.Paths.{path_cmp, path_ties};

    ghost partial_cmp = { as_partial_cmp path_cmp };

    ghost laws = { partial_order_from_own_ties (Prim.search (comparing, rules) depth 9) path_ties };

    fn partial_cmp(&self, other: &Path) -> Option<Ordering> {
        Some(self.cmp(other))
    }
}

impl Ord for Path {
    ghost use Rattle.std.specs.Cmp.Rules.{comparing};
    ghost use Rattle.std.proofs.Common.{rules};
    ghost use Rattle.jp_pred.specs.Paths.{path_cmp, path_ties};

    ghost cmp = { path_cmp };

    ghost total = { Prim.search (comparing, rules) depth 9 };

    ghost matches_partial_cmp = { Prim.search (comparing, rules) depth 9 };

    ghost matches_eq = { path_ties };

    fn cmp(&self, other: &Path) -> Ordering {
        self.root
            .cmp(&other.root)
            .then(self.steps.as_slice().cmp(other.steps.as_slice()))
    }
}
