//! Tokens, and the syntax tree of a unit as it is written, with the place of each part.
#![tactic(auto)]

mod counts;
mod decl;
mod expr;
mod guard;
pub mod sign;
mod stmt;
mod token;

pub use counts::{guard_nodes, nodes, nodes_of_expr};
pub use decl::{Decl, Member, MemberPart, Param, SourceUnit};
pub use expr::{Expr, ExprKind};
pub use guard::{GuardExpr, GuardKind, PathText, Summand};
pub use stmt::{Stmt, StmtKind};
pub use token::{Lexeme, Place, Token};
