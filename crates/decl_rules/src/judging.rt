ghost use Rattle.std.specs.Prelude.{◌≡◌};
ghost use Rattle.std.specs.Option.{option_copied};
ghost use Rattle.type_rules.specs.Nodes.{AtDecl, AtMember};
ghost use Rattle.type_rules.specs.Table.{own_faults};
ghost use Rattle.type_rules.specs.Typing.{earlier};
ghost use Rattle.decl_rules.specs.Standing.{IsAbove};

use crate::clashes::{has_other_types, inherits_other_types, inherits_static, meets_static};
use crate::constructing::{cant_be_made, cant_call_super};
use crate::members::{
    has_refused_type, is_odd_constructor, is_wrongly_abstract, is_wrongly_private, lacks_result,
    repeats_field,
};
use crate::naming::{
    extends_closed, extends_reserved, has_taken_name, is_above_itself, misnames_interfaces,
};
use crate::standing::{Above, DeclAt, MemberAt};
use iface_codec::Iface;
use jp_ast::{Decl, Member};
use type_heads::First;
use type_rules::Seen;

/// Takes the faults of a declaration's own node into the first fault so far. `above` is what stands above the
/// declaration, and `before` what is declared before it.
pub fn judge_decl(above: &Above, heads: &[Iface], before: &[Decl], decl: &Decl, first: &mut First)
    requires { IsAbove heads.now decl.now above.now }
    ensures { first.new.fault ≡ earlier first.old.fault (own_faults decl.now.place (AtDecl (record { heads = heads.now; earlier = before.now; decl = decl.now }))) }
{
    let at = DeclAt {
        heads,
        before,
        decl,
    };
    let place = decl.place;
    first.add_if(place, 1, has_taken_name(&at));
    first.add_if(place, 2, extends_reserved(&at));
    first.add_if(place, 3, extends_closed(&at));
    first.add_if(place, 4, misnames_interfaces(&at));
    first.add_if(place, 5, is_above_itself(&at));
    first.add_if(place, 7, inherits_other_types(above));
    first.add_if(place, 8, inherits_static(above));
    first.add_if(place, 35, cant_be_made(&at));
}

/// Takes the faults of a member's own node into the first fault so far. `above` is what stands above its declaration,
/// and `before` are the members before it; of the arguments of `super(..)`, where it is written, there is what is seen of
/// them.
pub fn judge_member(
    above: &Above,
    heads: &[Iface],
    decl: &Decl,
    before: &[Member],
    member: &Member,
    super_args: Option<&[Seen]>,
    completes: bool,
    first: &mut First,
)
    requires { IsAbove heads.now decl.now above.now }
    ensures { first.new.fault ≡ earlier first.old.fault (own_faults member.now.place (AtMember (record { heads = heads.now; decl = decl.now; earlier = before.now; member = member.now; super_args = option_copied super_args.entry; completes = completes }))) }
{
    let at = MemberAt {
        heads,
        decl,
        before,
        member,
        super_args,
        completes,
    };
    let place = member.place;
    first.add_if(place, 2, has_refused_type(&at));
    first.add_if(place, 6, repeats_field(above, &at));
    first.add_if(place, 7, has_other_types(above, &at));
    first.add_if(place, 8, meets_static(above, &at));
    first.add_if(place, 9, is_odd_constructor(&at));
    first.add_if(place, 10, is_wrongly_private(&at));
    first.add_if(place, 11, is_wrongly_abstract(&at));
    first.add_if(place, 35, cant_call_super(&at));
    first.add_if(place, 38, lacks_result(&at));
}
