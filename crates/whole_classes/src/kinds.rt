ghost use Rattle.std.specs.Prelude.{◌≡◌};
ghost use Rattle.jp_meaning.specs.Classes.{is_body, is_virtual};

use iface_codec::MethodKind;

pub(crate) fn is_body(kind: MethodKind) -> bool
    ensures { result ≡ is_body kind }
{
    matches!(kind, MethodKind::Body)
}

/// Whether it is a method of a family.
pub(crate) fn is_virtual(kind: MethodKind) -> bool
    ensures { result ≡ is_virtual kind }
{
    matches!(kind, MethodKind::Body | MethodKind::Abstract)
}
