ghost use Rattle.std.specs.Prelude.{◌≡◌, ◌≤◌, ◌&&◌, ◌||◌, not, length, false, None, Some, IfOk, OnOk};
ghost use Rattle.std.specs.Option.{option_map_or, is_some};
ghost use Rattle.jp_meaning.specs.declared.guard.TypedGuardKind.TheVariants as kind;
ghost use Rattle.type_rules.specs.Types.{is_named, is_boolean, is_among};
ghost use Rattle.jp_pred.specs.Kinds.{is_reference};
ghost use Rattle.jp_pred.specs.Paths.{same_path, root_path};
ghost use Rattle.type_rules.specs.Names.{names_of};
ghost use Rattle.type_rules.specs.GuardPaths.{isnt_path, guard_names, no_path};
ghost use Rattle.type_rules.specs.RulesOfGuards.{is_this, excludes};
ghost use Rattle.type_rules.specs.Guards.{alias_at, aliased, tested, test_alias, guard_at};
ghost use Rattle.type_rules.specs.Nodes.{TestsClass, NamesPath, TestsNull, Stands};
ghost use Rattle.type_guards.specs.Finding.{LooksAt};
ghost use Rattle.type_guards.specs.Atoms.{IsAtom, found_in, resolved_if, narrowed_if, named_if, scope_behind_test, alias_names};

use crate::copies::copy_path;
use crate::paths::path;
use jp_ast::{PathText, Place};
use jp_meaning::{TypedGuard, TypedGuardKind, TypedPath};
use jp_pred::{Name, Path, PathStep, Ty};
use sqlite_items::{Boxed, Items};
use std::alloc::{AllocError, Global};
use type_heads::{
    First, copy_ty, excludes, is_boolean, is_named, is_reference, is_reserved, is_unknown,
    names_class,
};
use type_rules::{Alias, GuardScope, Narrowed};

/// A guard of that kind.
pub(crate) fn node(
    alloc: Global,
    place: Place,
    kind: TypedGuardKind,
) -> Result<Option<Boxed<TypedGuard>>, AllocError>
    ensures { IfOk result (λ made. made ≡ Some (guard_at place kind)) }
{
    Ok(Some(Boxed::new(alloc, TypedGuard { place, kind })?))
}

/// A path that stands alone.
pub(crate) fn flag(
    alloc: Global,
    scope: &GuardScope,
    place: Place,
    text: &PathText,
    first: &mut First,
) -> Result<Option<Boxed<TypedGuard>>, AllocError>
    requires { length scope.now.params ≤ 255 }
    ensures { IfOk result (λ made. IsAtom scope.now place Stands text.now (λ t. kind.Flag t) first.old.fault first.new.fault made) }
{
    let found = path(alloc, scope, false, text, first)?;
    let sound = flag_rules(scope, place, &found, first);
    resolved_flag(alloc, place, sound, found)
}

#[tactic(auto, unfolding(crate::specs::Finding::faults_at))]
fn flag_rules(
    scope: &GuardScope,
    place: Place,
    found: &Option<TypedPath>,
    first: &mut First,
) -> bool
    ensures { LooksAt scope.now place (Stands found.now) first.old.fault first.new.fault result }
{
    first.add_if(place, 19, isnt_boolean(found))
}

/// Whether the type of the path is known, and it isn't boolean.
fn isnt_boolean(found: &Option<TypedPath>) -> bool
    ensures { result ≡ isnt_path is_boolean found.now }
{
    match found {
        Some(path) => !is_unknown(&path.ty) && !is_boolean(&path.ty),
        None => false,
    }
}

fn resolved_flag(
    alloc: Global,
    place: Place,
    sound: bool,
    found: Option<TypedPath>,
) -> Result<Option<Boxed<TypedGuard>>, AllocError>
    ensures { IfOk result (λ made. made ≡ resolved_if sound place (λ t. kind.Flag t) found) }
{
    if !sound {
        return Ok(None);
    }
    let Some(path) = found else {
        return Ok(None);
    };
    node(alloc, place, TypedGuardKind::Flag(path))
}

/// `path == null` or `path != null`
pub(crate) fn null_test(
    alloc: Global,
    scope: &GuardScope,
    place: Place,
    text: &PathText,
    equal: bool,
    first: &mut First,
) -> Result<Option<Boxed<TypedGuard>>, AllocError>
    requires { length scope.now.params ≤ 255 }
    ensures { IfOk result (λ made. IsAtom scope.now place TestsNull text.now (λ t. kind.NullTest t equal) first.old.fault first.new.fault made) }
{
    let found = path(alloc, scope, false, text, first)?;
    let sound = null_rules(scope, place, &found, first);
    resolved_null_test(alloc, place, sound, found, equal)
}

#[tactic(auto, unfolding(crate::specs::Finding::faults_at))]
fn null_rules(
    scope: &GuardScope,
    place: Place,
    found: &Option<TypedPath>,
    first: &mut First,
) -> bool
    ensures { LooksAt scope.now place (TestsNull found.now) first.old.fault first.new.fault result }
{
    first.add_if(place, 17, isnt_reference(found))
}

/// Whether the type of the path is known, and it is no reference's.
fn isnt_reference(found: &Option<TypedPath>) -> bool
    ensures { result ≡ isnt_path is_reference found.now }
{
    match found {
        Some(path) => !is_unknown(&path.ty) && !is_reference(&path.ty),
        None => false,
    }
}

fn resolved_null_test(
    alloc: Global,
    place: Place,
    sound: bool,
    found: Option<TypedPath>,
    equal: bool,
) -> Result<Option<Boxed<TypedGuard>>, AllocError>
    ensures { IfOk result (λ made. made ≡ resolved_if sound place (λ t. kind.NullTest t equal) found) }
{
    if !sound {
        return Ok(None);
    }
    let Some(path) = found else {
        return Ok(None);
    };
    node(alloc, place, TypedGuardKind::NullTest { path, equal })
}

/// `path as name`
pub(crate) fn alias(
    alloc: Global,
    scope: &mut GuardScope,
    place: Place,
    text: &PathText,
    name: &Name,
    first: &mut First,
) -> Result<Option<Boxed<TypedGuard>>, AllocError>
    requires { length scope.old.params ≤ 255 }
    ensures atom { IfOk result (λ made. IsAtom scope.old place (λ found. NamesPath found name.now) text.now (λ t. kind.Alias t name.now t.ty) first.old.fault first.new.fault made) }
    ensures after { OnOk result (scope.new ≡ aliased scope.old (found_in scope.old text.now) name.now None) }
{
    let found = path(alloc, scope, false, text, first)?;
    let sound = alias_rules(scope, place, &found, name, first);
    add_alias(alloc, scope, &found, name, None)?;
    resolved_alias(alloc, place, sound, found, name)
}

#[tactic(auto, unfolding(crate::specs::Finding::faults_at))]
fn alias_rules(
    scope: &GuardScope,
    place: Place,
    found: &Option<TypedPath>,
    name: &Name,
    first: &mut First,
) -> bool
    ensures { LooksAt scope.now place (NamesPath found.now name.now) first.old.fault first.new.fault result }
{
    let is_new = first.add_if(place, 12, has_name(scope, name));
    let is_outermost = first.add_if(place, 20, !scope.is_outermost);
    is_new && is_outermost
}

fn resolved_alias(
    alloc: Global,
    place: Place,
    sound: bool,
    found: Option<TypedPath>,
    name: &Name,
) -> Result<Option<Boxed<TypedGuard>>, AllocError>
    ensures { IfOk result (λ made. made ≡ resolved_if sound place (λ t. kind.Alias t name.now t.ty) found) }
{
    if !sound {
        return Ok(None);
    }
    let Some(path) = found else {
        return Ok(None);
    };
    let ty = copy_ty(alloc, &path.ty)?;
    let name = name.copy(alloc)?;
    node(alloc, place, TypedGuardKind::Alias { path, name, ty })
}

/// Whether a parameter or an alias that stands further left has the name.
#[tactic(auto, using(crate::proofs::GuardNames::names_are))]
fn has_name(scope: &GuardScope, name: &Name) -> bool
    ensures { result ≡ is_among name.now (guard_names scope.now) }
{
    names_param(scope, name) || names_alias(scope, name)
}

fn names_param(scope: &GuardScope, name: &Name) -> bool
    ensures { result ≡ is_among name.now (names_of scope.now.params) }
{
    for param in scope.params.as_slice() {
        if param.name == *name {
            return true;
        }
    }
    false
}

fn names_alias(scope: &GuardScope, name: &Name) -> bool
    ensures { result ≡ is_among name.now (alias_names scope.now.aliases) }
{
    for alias in scope.aliases.as_slice() {
        if alias.name == *name {
            return true;
        }
    }
    false
}

/// Adds an alias of a path, with the type of the local that holds its value; of a path with a fault no type is known.
fn add_alias(
    alloc: Global,
    scope: &mut GuardScope,
    found: &Option<TypedPath>,
    name: &Name,
    ty: Option<Ty>,
) -> Result<(), AllocError>
    ensures { OnOk result (scope.new ≡ aliased scope.old found.now name.now ty) }
{
    let alias = alias_at(alloc, found, name, ty)?;
    scope.aliases.push(alias)?;
    Ok(())
}

fn alias_at(
    alloc: Global,
    found: &Option<TypedPath>,
    name: &Name,
    ty: Option<Ty>,
) -> Result<Alias, AllocError>
    ensures { IfOk result (λ alias. alias ≡ alias_at found.now name.now ty) }
{
    match found {
        Some(path) => alias_of_path(alloc, path, name, ty),
        None => Ok(Alias {
            name: name.copy(alloc)?,
            path: no_path(alloc, name)?,
            declared: Ty::Void,
            ty: ty.unwrap_or(Ty::Void),
        }),
    }
}

fn alias_of_path(
    alloc: Global,
    path: &TypedPath,
    name: &Name,
    ty: Option<Ty>,
) -> Result<Alias, AllocError>
    ensures { IfOk result (λ alias. alias ≡ alias_at (Some path.now) name.now ty) }
{
    let ty = match ty {
        Some(ty) => ty,
        None => copy_ty(alloc, &path.ty)?,
    };
    Ok(Alias {
        name: name.copy(alloc)?,
        path: copy_path(alloc, &path.path)?,
        declared: copy_ty(alloc, &path.declared)?,
        ty,
    })
}

/// A path that leads nowhere, for an alias of that name of a path with a fault.
fn no_path(alloc: Global, name: &Name) -> Result<Path, AllocError>
    ensures { IfOk result (λ path. path ≡ no_path name.now) }
{
    let mut steps = Items::new(alloc);
    steps.push(PathStep {
        class: Name::from_bytes(alloc, b"")?,
        field: name.copy(alloc)?,
    })?;
    Ok(Path { root: 0, steps })
}

/// `path@class`, and its alias where there is one
pub(crate) fn test(
    alloc: Global,
    scope: &mut GuardScope,
    place: Place,
    text: &PathText,
    class: &Name,
    alias: &Option<Name>,
    first: &mut First,
) -> Result<Option<Boxed<TypedGuard>>, AllocError>
    requires { length scope.old.params ≤ 255 }
    ensures atom { IfOk result (λ made. IsAtom scope.old place (λ found. TestsClass found class.now alias.now) text.now (λ t. kind.Is t class.now (test_alias class.now alias.now)) first.old.fault first.new.fault made) }
    ensures after { OnOk result (scope.new ≡ scope_behind_test scope.old place text.now class.now alias.now) }
{
    let found = path(alloc, scope, false, text, first)?;
    let sound = test_rules(scope, place, &found, class, alias, first);
    narrow_if(alloc, scope, sound, &found, class)?;
    name_if(alloc, scope, &found, class, alias)?;
    resolved_test(alloc, place, sound, found, class, alias)
}

fn test_rules(
    scope: &GuardScope,
    place: Place,
    found: &Option<TypedPath>,
    class: &Name,
    alias: &Option<Name>,
    first: &mut First,
) -> bool
    ensures { LooksAt scope.now place (TestsClass found.now class.now alias.now) first.old.fault first.new.fault result }
{
    let is_type = first.add_if(place, 2, is_reserved(class));
    let is_new = first.add_if(place, 12, has_option(scope, alias));
    let is_object = first.add_if(place, 15, cant_be_tested(found));
    let is_related = first.add_if(place, 16, is_excluded(scope, class, found));
    let is_outermost = first.add_if(place, 20, is_nested(scope, alias));
    are_kept(is_type, is_new, is_object, is_related, is_outermost)
}

fn are_kept(first: bool, second: bool, third: bool, fourth: bool, fifth: bool) -> bool
    ensures { result ≡ (first && second && third && fourth && fifth) }
{
    first && second && third && fourth && fifth
}

/// Whether there is an alias, and it isn't reached through `&&` alone.
fn is_nested(scope: &GuardScope, alias: &Option<Name>) -> bool
    ensures { result ≡ (is_some alias.now && not scope.now.is_outermost) }
{
    alias.is_some() && !scope.is_outermost
}

/// Whether a parameter or an alias that stands further left has the name, where there is one.
fn has_option(scope: &GuardScope, alias: &Option<Name>) -> bool
    ensures { result ≡ option_map_or (λ name. is_among name (guard_names scope.now)) alias.now false }
{
    match alias {
        Some(name) => has_name(scope, name),
        None => false,
    }
}

/// Whether the path is no object's, or is the receiver by itself.
fn cant_be_tested(found: &Option<TypedPath>) -> bool
    ensures { result ≡ (isnt_path is_named found.now || option_map_or is_this found.now false) }
{
    match found {
        Some(path) => (!is_unknown(&path.ty) && !is_named(&path.ty)) || is_this(&path.path),
        None => false,
    }
}

/// Whether it is `this` alone.
fn is_this(path: &Path) -> bool
    ensures { result ≡ same_path path.now (root_path 0) }
{
    path.root == 0 && path.steps.is_empty()
}

/// Whether the path is of a class of which no object is one of the other class.
fn is_excluded(scope: &GuardScope, class: &Name, found: &Option<TypedPath>) -> bool
    ensures { result ≡ option_map_or (λ p. excludes scope.now.heads class.now p.ty) found.now false }
{
    match found {
        Some(path) => excludes(scope.heads.as_slice(), class, &path.ty),
        None => false,
    }
}

/// Narrows the path, where the test breaks no rule; a test of an interface changes no type.
fn narrow_if(
    alloc: Global,
    scope: &mut GuardScope,
    sound: bool,
    found: &Option<TypedPath>,
    class: &Name,
) -> Result<(), AllocError>
    ensures { OnOk result (scope.new ≡ narrowed_if sound scope.old found.now class.now) }
{
    if !sound {
        return Ok(());
    }
    match found {
        Some(path) => narrow(alloc, scope, &path.path, class),
        None => Ok(()),
    }
}

fn narrow(
    alloc: Global,
    scope: &mut GuardScope,
    path: &Path,
    class: &Name,
) -> Result<(), AllocError>
    ensures { OnOk result (scope.new ≡ tested scope.old path.now class.now) }
{
    if !names_class(scope.heads.as_slice(), class) {
        return Ok(());
    }
    let path = copy_path(alloc, path)?;
    let class = class.copy(alloc)?;
    scope.tests.push(Narrowed { path, class })?;
    Ok(())
}

/// Adds the alias of a test, where there is one, with the class as its type.
fn name_if(
    alloc: Global,
    scope: &mut GuardScope,
    found: &Option<TypedPath>,
    class: &Name,
    alias: &Option<Name>,
) -> Result<(), AllocError>
    ensures { OnOk result (scope.new ≡ named_if scope.old found.now class.now alias.now) }
{
    match alias {
        Some(name) => {
            let ty = Ty::Class(class.copy(alloc)?);
            add_alias(alloc, scope, found, name, Some(ty))
        }
        None => Ok(()),
    }
}

fn resolved_test(
    alloc: Global,
    place: Place,
    sound: bool,
    found: Option<TypedPath>,
    class: &Name,
    alias: &Option<Name>,
) -> Result<Option<Boxed<TypedGuard>>, AllocError>
    ensures { IfOk result (λ made. made ≡ resolved_if sound place (λ t. kind.Is t class.now (test_alias class.now alias.now)) found) }
{
    if !sound {
        return Ok(None);
    }
    let Some(path) = found else {
        return Ok(None);
    };
    let alias = test_alias(alloc, class, alias)?;
    let class = class.copy(alloc)?;
    node(alloc, place, TypedGuardKind::Is { path, class, alias })
}

/// The alias of a test, with its class as its type.
fn test_alias(
    alloc: Global,
    class: &Name,
    alias: &Option<Name>,
) -> Result<Option<(Name, Ty)>, AllocError>
    ensures { IfOk result (λ named. named ≡ test_alias class.now alias.now) }
{
    match alias {
        Some(name) => Ok(Some((name.copy(alloc)?, Ty::Class(class.copy(alloc)?)))),
        None => Ok(None),
    }
}
