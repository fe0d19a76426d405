ghost use Rattle.std.specs.Prelude.{◌≡◌, IfOk};

use class_form::{Bytes, Const};
use std::alloc::{AllocError, Global};
use std::hash::{Hash, Hasher};
use std::marker::Model;

/// A text among the constants, which contracts see as its bytes.
#[derive(Drop)]
pub(crate) struct Text {
    bytes: Vec<u8>,
}

impl Model for Text {
    ghost use Rattle.std.specs.Prelude.{List, ℕ};

    ghost Value = { List ℕ };

    ghost view = { λ text. text.bytes.items };
}

impl Text {
    pub(crate) fn from_bytes(alloc: Global, bytes: &[u8]) -> Result<Text, AllocError>
        ensures { IfOk result (λ text. text ≡ bytes.now) }
    {
        Ok(Text {
            bytes: Vec::from_slice(alloc, bytes)?,
        })
    }

    fn as_slice(&self) -> &[u8]
        ensures { result.now ≡ self.now }
    {
        self.bytes.as_slice()
    }
}

impl PartialEq for Text {
    ghost use Rattle.std.specs.Str.{bytes_eq};
    ghost use Rattle.std.specs.Cmp.{partial_equiv_from_equiv};
    ghost use Rattle.std.proofs.lemmas.Cmp.{nat_list_eq_equiv};

    ghost eq = { bytes_eq };

    ghost laws = { partial_equiv_from_equiv nat_list_eq_equiv };

    fn eq(&self, other: &Text) -> bool {
        self.bytes.as_slice() == other.bytes.as_slice()
    }
}

impl Eq for Text {
    ghost use Rattle.std.proofs.lemmas.Cmp.{nat_list_eq_equiv};

    ghost laws = { nat_list_eq_equiv };
}

impl Hash for Text {
    ghost use Rattle.std.specs.Hash as fed;
    ghost use Rattle.std.specs.Cmp.Rules.{hashing};
    ghost use Rattle.std.proofs.Common.{rules};

    ghost hash_input = { fed.slice fed.u8 };

    ghost respects_eq = { Prim.search (hashing, rules) };

    fn hash<H: Hasher>(&self, state: &mut H) {
        self.bytes.as_slice().hash(state);
    }
}

/// A constant of the kinds that code names.
#[derive(PartialEq, Eq, Hash, Drop)]
pub(crate) enum Entry {
    Utf8(Text),
    Integer(i32),
    Long(i64),
    Class(u16),
    Literal(u16),
    Field(u16, u16),
    Method(u16, u16),
    InterfaceMethod(u16, u16),
    NameAndType(u16, u16),
    /// The second index of a long.
    Behind(i64),
}

impl Entry {
    ghost use Rattle.code_asm.specs.Entries.{const_of};

    /// The entry as it stands in a class file.
    pub(crate) fn to_const(&self, alloc: Global) -> Result<Const, AllocError>
        ensures { IfOk result (λ constant. constant ≡ const_of self.now) }
    {
        match self {
            Entry::Utf8(text) => Ok(Const::Utf8(Bytes::from_bytes(alloc, text.as_slice())?)),
            Entry::Integer(n) => Ok(Const::Integer(*n)),
            Entry::Long(n) => Ok(Const::Long(*n)),
            Entry::Class(name) => Ok(Const::Class(*name)),
            Entry::Literal(text) => Ok(Const::Text(*text)),
            Entry::Field(class, name) => Ok(Const::Fieldref(*class, *name)),
            Entry::Method(class, name) => Ok(Const::Methodref(*class, *name)),
            Entry::InterfaceMethod(class, name) => Ok(Const::InterfaceMethodref(*class, *name)),
            Entry::NameAndType(name, descriptor) => Ok(Const::NameAndType(*name, *descriptor)),
            Entry::Behind(_) => Ok(Const::Unused),
        }
    }
}

/// The kinds of members that a constant names.
#[derive(Clone, Copy)]
pub(crate) enum MemberKind {
    Field,
    Method,
    InterfaceMethod,
}

impl MemberKind {
    ghost use Rattle.std.specs.Prelude.{true};
    ghost use Rattle.code_asm.specs.Entries.{const_of, kind_of, is_single};

    /// The constant of this kind, by its class and its name and type.
    pub(crate) fn entry(self, class: u16, member: u16) -> Entry
        ensures constant { const_of result ≡ kind_of self class member }
        ensures single { is_single result ≡ true }
    {
        match self {
            MemberKind::Field => Entry::Field(class, member),
            MemberKind::Method => Entry::Method(class, member),
            MemberKind::InterfaceMethod => Entry::InterfaceMethod(class, member),
        }
    }
}
