ghost use Rattle.std.specs.Prelude.{◌≡◌};
ghost use Rattle.std.specs.List.{flat_map};
ghost use Rattle.type_rules.specs.ClassNames.{known_names};
ghost use Rattle.own_names.specs.Naming.{type_names, first_unknown, in_option};
ghost use Rattle.own_names.specs.Trees.{expr_names, guard_names};
ghost use Rattle.own_names.specs.Units.{param_names, head_names, member_names};

use crate::classes::outside_in_type;
use crate::trees::{outside_in_exprs, outside_in_guard, outside_in_stmts};
use jp_ast::{Expr, GuardExpr, Member, MemberPart, Param, Place, SourceUnit};
use jp_pred::Ty;
use sqlite_items::Items;

/// The first place in a member that names a class from outside the unit. Its types are named at its own place.
pub(crate) fn outside_in_member(member: &Member, unit: &SourceUnit) -> Option<Place>
    ensures { result ≡ first_unknown (known_names unit.now) (member_names member.now) }
{
    match &member.part {
        MemberPart::Field { ty, is_static: _ } => outside_in_type(ty, member.place, unit),
        MemberPart::Static { result, block } => {
            outside_in_head(result, member, unit).or(outside_in_stmts(block.as_slice(), unit))
        }
        MemberPart::Abstract { result } => outside_in_head(result, member, unit),
        MemberPart::Body {
            result,
            guard,
            block,
        } => outside_in_head(result, member, unit)
            .or(outside_in_condition(guard, unit))
            .or(outside_in_stmts(block.as_slice(), unit)),
        MemberPart::Constructor { super_args, block } => {
            outside_in_params(member.params.as_slice(), member.place, unit)
                .or(outside_in_super(super_args, unit))
                .or(outside_in_stmts(block.as_slice(), unit))
        }
    }
}

#[tactic(auto, using(crate::proofs::Firsts::first_append))]
fn outside_in_head(ty: &Ty, member: &Member, unit: &SourceUnit) -> Option<Place>
    ensures { result ≡ first_unknown (known_names unit.now) (head_names member.now ty.now) }
{
    outside_in_type(ty, member.place, unit).or(outside_in_params(
        member.params.as_slice(),
        member.place,
        unit,
    ))
}

#[tactic(auto, using(crate::proofs::Firsts::found, crate::proofs::Firsts::passed, crate::proofs::Firsts::none_left))]
fn outside_in_params(params: &[Param], place: Place, unit: &SourceUnit) -> Option<Place>
    ensures { result ≡ first_unknown (known_names unit.now) (param_names place params.now) }
{
    for param in params {
        if let Some(first) = outside_in_type(&param.ty, place, unit) {
            return Some(first);
        }
    }
    None
}

fn outside_in_condition(guard: &Option<GuardExpr>, unit: &SourceUnit) -> Option<Place>
    ensures { result ≡ first_unknown (known_names unit.now) (in_option guard_names guard.now) }
{
    match guard {
        Some(guard) => outside_in_guard(guard, unit),
        None => None,
    }
}

fn outside_in_super(args: &Option<Items<Expr>>, unit: &SourceUnit) -> Option<Place>
    ensures { result ≡ first_unknown (known_names unit.now) (in_option (flat_map expr_names) args.now) }
{
    match args {
        Some(args) => outside_in_exprs(args.as_slice(), unit),
        None => None,
    }
}
