ghost use Rattle.std.specs.Prelude.{◌≡◌, ◌≤◌, ◌&&◌, length, false, Some, IfOk};
ghost use Rattle.std.specs.Option.{option_copied};
ghost use Rattle.jp_pred.specs.Paths.{root_path};
ghost use Rattle.type_rules.specs.GuardPaths.{alias_of, root_of, step_of, steps_of, isnt_path};
ghost use Rattle.type_rules.specs.Types.{is_int};
ghost use Rattle.type_heads.specs.Members.{field_at};
ghost use Rattle.type_guards.specs.Finding.{FindsPath, instance_field, stepped};

use crate::copies::copy_path;
use crate::narrowing::path_at;
use iface_codec::IfaceField;
use jp_ast::{PathText, Place};
use jp_meaning::TypedPath;
use jp_pred::{Name, Path, PathStep, Ty};
use sqlite_items::Items;
use std::alloc::{AllocError, Global};
use type_heads::{First, copy_ty, field_that, is_int, is_unknown, variable_from};
use type_rules::{Alias, GuardScope};

/// A path with its names resolved, where it has no fault. It is known whether it stands in a comparison.
pub(crate) fn path(
    alloc: Global,
    scope: &GuardScope,
    compared: bool,
    path: &PathText,
    first: &mut First,
) -> Result<Option<TypedPath>, AllocError>
    requires { length scope.now.params ≤ 255 }
    ensures { IfOk result (λ found. FindsPath scope.now compared path.now first.old.fault first.new.fault found) }
{
    let Some(root) = root_of(alloc, scope, path.place, &path.root)? else {
        first.add(path.place, 13);
        return Ok(None);
    };
    let Some(found) = steps_of(alloc, scope, root, path.steps.as_slice())? else {
        first.add(path.place, 14);
        return Ok(None);
    };
    if !first.add_if(path.place, 18, breaks_18(compared, &found)) {
        return Ok(None);
    }
    Ok(Some(found))
}

/// Whether it stands in a comparison, and isn't an int.
fn breaks_18(compared: bool, path: &TypedPath) -> bool
    ensures { result ≡ (compared && isnt_path is_int (Some path.now)) }
{
    compared && isnt_int(path)
}

/// Whether the type of the path is known, and it isn't int.
fn isnt_int(path: &TypedPath) -> bool
    ensures { result ≡ isnt_path is_int (Some path.now) }
{
    !is_unknown(&path.ty) && !is_int(&path.ty)
}

/// What a path begins with: `this`, a parameter, or an alias, which stands for its path.
fn root_of(
    alloc: Global,
    scope: &GuardScope,
    place: Place,
    name: &Name,
) -> Result<Option<TypedPath>, AllocError>
    requires { length scope.now.params ≤ 255 }
    ensures { IfOk result (λ found. found ≡ root_of scope.now place name.now) }
{
    if name.bytes() == b"this".as_slice() {
        let declared = Ty::Class(scope.class.copy(alloc)?);
        let path = root_path(alloc, 0);
        return Ok(Some(path_at(alloc, scope, place, path, declared)?));
    }
    if let Some((root, ty)) = variable_from(1, name, scope.params.as_slice()) {
        let declared = copy_ty(alloc, ty)?;
        let path = root_path(alloc, root);
        return Ok(Some(path_at(alloc, scope, place, path, declared)?));
    }
    let Some(alias) = alias_of(scope, name) else {
        return Ok(None);
    };
    let path = copy_path(alloc, &alias.path)?;
    let declared = copy_ty(alloc, &alias.declared)?;
    Ok(Some(path_at(alloc, scope, place, path, declared)?))
}

/// The path without steps.
fn root_path(alloc: Global, root: u8) -> Path
    ensures { result ≡ root_path root }
{
    Path {
        root,
        steps: Items::new(alloc),
    }
}

/// The alias of that name.
fn alias_of<'a>(scope: &'a GuardScope, name: &Name) -> Option<&'a Alias>
    ensures { option_copied result ≡ alias_of scope.now name.now }
{
    scope
        .aliases
        .as_slice()
        .iter()
        .find(|alias| alias.name == *name)
}

/// The path that these steps lead to.
fn steps_of(
    alloc: Global,
    scope: &GuardScope,
    root: TypedPath,
    steps: &[Name],
) -> Result<Option<TypedPath>, AllocError>
    ensures { IfOk result (λ found. found ≡ steps_of scope.now (Some root) steps.now) }
{
    let mut before = root;
    for name in steps {
        let Some(next) = step_of(alloc, scope, before, name)? else {
            return Ok(None);
        };
        before = next;
    }
    Ok(Some(before))
}

/// A field behind a path; behind one whose type isn't known nothing is known either.
fn step_of(
    alloc: Global,
    scope: &GuardScope,
    before: TypedPath,
    name: &Name,
) -> Result<Option<TypedPath>, AllocError>
    ensures { IfOk result (λ found. found ≡ step_of scope.now before name.now) }
{
    if is_unknown(&before.ty) {
        let class = Name::from_bytes(alloc, b"")?;
        return Ok(Some(stepped(alloc, scope, before, class, name, Ty::Void)?));
    }
    let Some((class, field)) = instance_field(scope, &before.ty, name) else {
        return Ok(None);
    };
    let class = class.copy(alloc)?;
    let declared = copy_ty(alloc, &field.ty)?;
    Ok(Some(stepped(alloc, scope, before, class, name, declared)?))
}

/// The instance field of that name of a type, where the guard's class sees it; with the class that declares it.
fn instance_field<'a>(
    scope: &'a GuardScope,
    ty: &Ty,
    name: &Name,
) -> Option<(&'a Name, &'a IfaceField)>
    ensures { field_at result ≡ instance_field scope.now ty.now name.now }
{
    match ty {
        Ty::Class(class) => field_that(false, scope.heads.as_slice(), &scope.class, class, name),
        _ => None,
    }
}

/// One field further.
fn stepped(
    alloc: Global,
    scope: &GuardScope,
    before: TypedPath,
    class: Name,
    name: &Name,
    declared: Ty,
) -> Result<TypedPath, AllocError>
    ensures { IfOk result (λ path. path ≡ stepped scope.now before class name.now declared) }
{
    let place = before.place;
    let mut path = before.path;
    let field = name.copy(alloc)?;
    path.steps.push(PathStep { class, field })?;
    path_at(alloc, scope, place, path, declared)
}
