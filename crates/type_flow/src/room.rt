ghost use Rattle.std.specs.Prelude.{◌≡◌, ◌+◌, map, Option};
ghost use Rattle.std.specs.Option.{option_map};
ghost use Rattle.type_rules.specs.declared.scope.Scope.{Scope};
ghost use Rattle.type_rules.specs.Statements.{count, flow_most, after_init, most_along, flow};
ghost use Rattle.type_flow.specs.Room.{up_to, IsMost};

use jp_ast::{Stmt, StmtKind};
use sqlite_items::Boxed;

/// As many variables as have no slots any more; more of them count as so many.
const MANY: u16 = 256;

/// The most variables that are in scope at once in statements one after another, where so many are in scope before these;
/// none where that is more than 255.
pub fn most(block: &[Stmt], begin: u8) -> Option<u8>
    ensures { (c : Scope) → count c ≡ begin → IsMost (most_along (count c) (map flow block.now) c) result }
{
    let most = most_of_all(block, begin as u16);
    if most < MANY { Some(most as u8) } else { None }
}

/// The most variables that are in scope at once in a statement, where so many are in scope before it.
#[cycle(most)]
fn most_of(stmt: &Stmt, begin: u16) -> u16
    ensures { (c : Scope) → up_to (count c) ≡ begin → up_to (flow stmt.now c).most ≡ result }
{
    match &stmt.kind {
        StmtKind::Block(all) => most_of_all(all.as_slice(), begin),
        StmtKind::Local { .. } => one_more(begin),
        StmtKind::If { yes, no, .. } => {
            let first = most_of(yes.get(), begin);
            first.max(most_of_option(no, begin))
        }
        StmtKind::While { body, .. } => most_of(body.get(), begin),
        StmtKind::For {
            init,
            change,
            body,
            ..
        } => {
            let before = most_of_option(init, begin);
            let inside = behind_option(init, begin);
            let changing = most_of_option(change, inside);
            before.max(changing.max(most_of(body.get(), inside)))
        }
        StmtKind::Empty
        | StmtKind::Break
        | StmtKind::Continue
        | StmtKind::Return(_)
        | StmtKind::Assign { .. }
        | StmtKind::Bump { .. }
        | StmtKind::Run(_) => begin,
    }
}

#[cycle(most)]
fn most_of_option(stmt: &Option<Boxed<Stmt>>, begin: u16) -> u16
    ensures { (c : Scope) → up_to (count c) ≡ begin → up_to (flow_most (option_map flow stmt.now) c) ≡ result }
{
    match stmt {
        Some(stmt) => most_of(stmt.get(), begin),
        None => begin,
    }
}

#[cycle(most)]
fn most_of_all(block: &[Stmt], begin: u16) -> u16
    ensures { (c : Scope) → up_to (count c) ≡ begin → up_to (most_along (count c) (map flow block.now) c) ≡ result }
{
    let mut most = begin;
    let mut now = begin;
    for stmt in block {
        most = most.max(most_of(stmt, now));
        now = behind(stmt, now);
    }
    most
}

/// How many variables are in scope behind a statement, where so many are before it.
fn behind(stmt: &Stmt, begin: u16) -> u16
    ensures { (c : Scope) → up_to (count c) ≡ begin → up_to (count (flow stmt.now c).after) ≡ result }
{
    match &stmt.kind {
        StmtKind::Local { .. } => one_more(begin),
        StmtKind::Block(_)
        | StmtKind::Empty
        | StmtKind::If { .. }
        | StmtKind::While { .. }
        | StmtKind::For { .. }
        | StmtKind::Break
        | StmtKind::Continue
        | StmtKind::Return(_)
        | StmtKind::Assign { .. }
        | StmtKind::Bump { .. }
        | StmtKind::Run(_) => begin,
    }
}

fn behind_option(stmt: &Option<Boxed<Stmt>>, begin: u16) -> u16
    ensures { (c : Scope) → up_to (count c) ≡ begin → up_to (count (after_init (option_map flow stmt.now) c)) ≡ result }
{
    match stmt {
        Some(stmt) => behind(stmt.get(), begin),
        None => begin,
    }
}

fn one_more(begin: u16) -> u16
    ensures { result ≡ up_to (begin + 1) }
{
    if begin < MANY { begin + 1 } else { MANY }
}
