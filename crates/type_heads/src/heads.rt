ghost use Rattle.std.specs.Prelude.{◌≡◌};
ghost use Rattle.std.specs.Option.{option_copied};
ghost use Rattle.type_rules.specs.Heads.{head_of, is_class, is_concrete, names_class, names_interface};

use iface_codec::Iface;
use jp_pred::Name;

/// The first class of that name.
pub fn head_of<'a>(heads: &'a [Iface], name: &Name) -> Option<&'a Iface>
    ensures { option_copied result ≡ head_of heads.now name.now }
{
    heads.iter().find(|head| head.name == *name)
}

/// Whether it is a class, and no interface.
pub fn is_class(head: &Iface) -> bool
    ensures { result ≡ is_class head.now }
{
    !head.is_interface
}

/// Whether there are objects of the class.
pub fn is_concrete(head: &Iface) -> bool
    ensures { result ≡ is_concrete head.now }
{
    !head.is_interface && !head.is_abstract
}

pub fn names_class(heads: &[Iface], name: &Name) -> bool
    ensures { result ≡ names_class heads.now name.now }
{
    head_of(heads, name).is_some_and(is_class)
}

pub fn names_interface(heads: &[Iface], name: &Name) -> bool
    ensures { result ≡ names_interface heads.now name.now }
{
    match head_of(heads, name) {
        Some(head) => head.is_interface,
        None => false,
    }
}
