ghost use Rattle.std.specs.Prelude.{◌≡◌, ◌∷◌, Some, option_and_then};
ghost use Rattle.std.specs.Option.{option_copied};
ghost use Rattle.type_rules.specs.Heads.{head_of};
ghost use Rattle.type_rules.specs.Lookups.{superclasses, field_named, field_among, field_of, field_that};
ghost use Rattle.type_heads.specs.Members.{own_field, field_at};

use crate::heads::head_of;
use iface_codec::{Iface, IfaceField};
use jp_pred::Name;

/// The first field of that name.
pub fn field_named<'a>(name: &Name, fields: &'a [IfaceField]) -> Option<&'a IfaceField>
    ensures { option_copied result ≡ field_named name.now fields.now }
{
    fields.iter().find(|field| field.name == *name)
}

/// The superclass that a class names, where it is among the heads.
pub(crate) fn super_head<'a>(heads: &'a [Iface], class: &Iface) -> Option<&'a Iface>
    ensures { option_copied result ≡ option_and_then (head_of heads.now) class.now.superclass }
{
    match &class.superclass {
        Some(name) => head_of(heads, name),
        None => None,
    }
}

/// The first field of that name of the class, with the class.
fn own_field<'a>(name: &Name, class: &'a Iface) -> Option<(&'a Name, &'a IfaceField)>
    ensures { field_at result ≡ own_field name.now class.now }
{
    let field = field_named(name, class.fields.as_slice())?;
    Some((&class.name, field))
}

/// The first field of that name of a class and its superclasses upwards, with the class that declares it.
fn field_upwards<'a>(
    heads: &'a [Iface],
    class: &'a Iface,
    name: &Name,
) -> Option<(&'a Name, &'a IfaceField)>
    requires { head_of heads.now class.now.name ≡ Some class.now }
    ensures { field_at result ≡ field_among name.now (class.now ∷ superclasses heads.now class.now) }
{
    let mut class = class;
    for _i in 0..heads.len() {
        let found = own_field(name, class);
        if found.is_some() {
            return found;
        }
        let Some(up) = super_head(heads, class) else {
            return None;
        };
        class = up;
    }
    own_field(name, class)
}

/// The field of that name of a class, its own or a superclass's, where code of the class `own` sees it; with the class
/// that declares it.
#[tactic(auto, using(crate::proofs::Upwards::head_again))]
pub fn field_of<'a>(
    heads: &'a [Iface],
    own: &Name,
    class: &Name,
    name: &Name,
) -> Option<(&'a Name, &'a IfaceField)>
    ensures { field_at result ≡ field_of heads.now own.now class.now name.now }
{
    let (declaring, field) = field_upwards(heads, head_of(heads, class)?, name)?;
    if !field.is_private || declaring == own {
        Some((declaring, field))
    } else {
        None
    }
}

/// The same, where the field is static or isn't, as asked for.
pub fn field_that<'a>(
    is_static: bool,
    heads: &'a [Iface],
    own: &Name,
    class: &Name,
    name: &Name,
) -> Option<(&'a Name, &'a IfaceField)>
    ensures { field_at result ≡ field_that is_static heads.now own.now class.now name.now }
{
    let (declaring, field) = field_of(heads, own, class, name)?;
    if field.is_static == is_static {
        Some((declaring, field))
    } else {
        None
    }
}
