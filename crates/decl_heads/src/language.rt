ghost use Rattle.std.specs.Prelude.{◌≡◌, [], ◌∷◌, ◌++◌, IfOk, OnOk};
ghost use Rattle.std.specs.Option.{option_to_list};
ghost use Rattle.type_rules.specs.Heads.{object_head, io_head, own_heads, method};

use iface_codec::{Iface, IfaceMethod, MethodKind};
use jp_pred::{Guard, Name, Ty};
use sqlite_items::Items;
use std::alloc::{AllocError, Global};

/// The heads of the language's own classes: Object, and Io, which is the class of input and output.
pub(crate) fn own_heads(alloc: Global) -> Result<Items<Iface>, AllocError>
    ensures { IfOk result (λ heads. heads ≡ own_heads) }
{
    let mut heads = Items::new(alloc);
    heads.push(object_head(alloc)?)?;
    heads.push(io_head(alloc)?)?;
    Ok(heads)
}

fn object_head(alloc: Global) -> Result<Iface, AllocError>
    ensures { IfOk result (λ head. head ≡ object_head) }
{
    let name = Name::from_bytes(alloc, b"Object".as_slice())?;
    let mut constructors = Items::new(alloc);
    constructors.push(Items::new(alloc))?;
    Ok(Iface {
        name,
        is_abstract: false,
        is_final: false,
        is_interface: false,
        superclass: None,
        interfaces: Items::new(alloc),
        fields: Items::new(alloc),
        constructors,
        methods: Items::new(alloc),
    })
}

fn io_head(alloc: Global) -> Result<Iface, AllocError>
    ensures { IfOk result (λ head. head ≡ io_head) }
{
    let name = Name::from_bytes(alloc, b"Io".as_slice())?;
    let above = Name::from_bytes(alloc, b"Object".as_slice())?;
    let methods = io_methods(alloc)?;
    Ok(Iface {
        name,
        is_abstract: false,
        is_final: true,
        is_interface: false,
        superclass: Some(above),
        interfaces: Items::new(alloc),
        fields: Items::new(alloc),
        constructors: Items::new(alloc),
        methods,
    })
}

/// `print`, `text`, whose argument is no value, and `read`.
fn io_methods(alloc: Global) -> Result<Items<IfaceMethod>, AllocError>
    ensures { IfOk result (λ methods. methods ≡ io_head.methods) }
{
    let mut methods = Items::new(alloc);
    add_io_method(
        alloc,
        &mut methods,
        b"print".as_slice(),
        Some(Ty::Int),
        Ty::Void,
    )?;
    add_io_method(
        alloc,
        &mut methods,
        b"text".as_slice(),
        Some(Ty::Void),
        Ty::Void,
    )?;
    add_io_method(alloc, &mut methods, b"read".as_slice(), None, Ty::Int)?;
    Ok(methods)
}

fn add_io_method(
    alloc: Global,
    methods: &mut Items<IfaceMethod>,
    name: &[u8],
    param: Option<Ty>,
    gives: Ty,
) -> Result<(), AllocError>
    ensures { OnOk result (methods.new ≡ methods.old ++ method name.now MethodKind.Static (option_to_list param) gives [] ∷ []) }
{
    let name = Name::from_bytes(alloc, name)?;
    let params = params_of(alloc, param)?;
    methods.push(method(alloc, name, MethodKind::Static, params, gives))
}

fn params_of(alloc: Global, param: Option<Ty>) -> Result<Items<Ty>, AllocError>
    ensures { IfOk result (λ params. params ≡ option_to_list param) }
{
    let mut params = Items::new(alloc);
    match param {
        Some(ty) => params.push(ty)?,
        None => return Ok(params),
    }
    Ok(params)
}

/// A method as the members of its unit see it: without its guard, and without what it reads on entry.
pub(crate) fn method(
    alloc: Global,
    name: Name,
    kind: MethodKind,
    params: Items<Ty>,
    gives: Ty,
) -> IfaceMethod
    ensures { result ≡ method name kind params gives [] }
{
    IfaceMethod {
        name,
        kind,
        params,
        result: gives,
        guard: Guard::True,
        aliases: Items::new(alloc),
    }
}
