ghost use Rattle.std.specs.Prelude.{◌≡◌, true, [], ◌∷◌, take, IfOk, MatchResult, slice_get};
ghost use Rattle.class_form.specs.declared.constant.Const.TheVariants.{Unused, Utf8, Integer as IntegerConst, Long as LongConst, Fieldref, Methodref, InterfaceMethodref};
ghost use Rattle.class_form.specs.Constants.{utf8_at, class_name_at};
ghost use Rattle.jvm_table.specs.Constants.{field_in, method_in, interface_method_in, member_named, literal_at};
ghost use Rattle.code_asm.specs.Held.{hold, hold_class, hold_text, hold_name_and_type, hold_member, Answers, Extends, InFiles};
ghost use Rattle.code_asm.specs.Entries.{const_of, consts_of, is_single, kind_of, ArePaired, PutsEntry, GoOn, Puts};

use crate::AsmFault;
use crate::entry::{Entry, MemberKind, Text};
use class_form::Const;
use indexmap::IndexSet;
use std::alloc::{AllocError, Global};
use std::marker::Model;

// The greatest number of constants behind index 0.
const ROOM: usize = 65_534;

/// Constants, each held once, which contracts see as the list from index 1 on.
#[derive(Drop)]
pub struct Pool {
    entries: IndexSet<Entry>,
}

impl Model for Pool {
    ghost use Rattle.std.specs.Prelude.{List};
    ghost use Rattle.class_form.specs.declared.constant.Const.{Const};
    ghost use Rattle.code_asm.specs.Entries.{consts_of, ArePaired};

    ghost Value = { List Const };

    ghost view = { λ pool. consts_of pool.entries.keys };

    ghost invariant = { λ pool. ArePaired pool.entries.keys };
}

impl Pool {
    /// No constants.
    pub fn new(alloc: Global) -> Pool
        ensures { result ≡ [] }
    {
        Pool {
            entries: IndexSet::new(alloc),
        }
    }

    /// The index of a text.
    pub fn utf8(&mut self, alloc: Global, bytes: &[u8]) -> Result<u16, AsmFault>
        ensures held { Answers (hold self.old (Utf8 bytes.now)) self.old self.new result }
        ensures kept { Extends self.old self.new }
        ensures named { IfOk result (λ index. InFiles self.new (λ file. utf8_at file index ≡ Some bytes.now)) }
    {
        let len = self.entries.len();
        let answer = put_text(alloc, &mut self.entries, bytes);
        keep_if_ok(&mut self.entries, len, answer)
    }

    /// The index of the class of a name.
    pub fn class(&mut self, alloc: Global, name: &[u8]) -> Result<u16, AsmFault>
        ensures held { Answers (hold_class self.old name.now) self.old self.new result }
        ensures kept { Extends self.old self.new }
        ensures named { IfOk result (λ index. InFiles self.new (λ file. class_name_at file index ≡ Some name.now)) }
    {
        let len = self.entries.len();
        let answer = put_class(alloc, &mut self.entries, name);
        keep_if_ok(&mut self.entries, len, answer)
    }

    /// The index of a field, by the class that declares it, its name and its descriptor.
    pub fn field(
        &mut self,
        alloc: Global,
        class: &[u8],
        name: &[u8],
        descriptor: &[u8],
    ) -> Result<u16, AsmFault>
        ensures held { Answers (hold_member Fieldref self.old class.now name.now descriptor.now) self.old self.new result }
        ensures kept { Extends self.old self.new }
        ensures named { IfOk result (λ index. InFiles self.new (λ file. member_named field_in file index ≡ Some (record { class = class.now; name = name.now; descriptor = descriptor.now }))) }
    {
        let len = self.entries.len();
        let answer = put_member(
            alloc,
            &mut self.entries,
            MemberKind::Field,
            class,
            name,
            descriptor,
        );
        keep_if_ok(&mut self.entries, len, answer)
    }

    /// The index of a method of a class, likewise.
    pub fn method(
        &mut self,
        alloc: Global,
        class: &[u8],
        name: &[u8],
        descriptor: &[u8],
    ) -> Result<u16, AsmFault>
        ensures held { Answers (hold_member Methodref self.old class.now name.now descriptor.now) self.old self.new result }
        ensures kept { Extends self.old self.new }
        ensures named { IfOk result (λ index. InFiles self.new (λ file. member_named method_in file index ≡ Some (record { class = class.now; name = name.now; descriptor = descriptor.now }))) }
    {
        let len = self.entries.len();
        let answer = put_member(
            alloc,
            &mut self.entries,
            MemberKind::Method,
            class,
            name,
            descriptor,
        );
        keep_if_ok(&mut self.entries, len, answer)
    }

    /// The index of a method of an interface, likewise.
    pub fn interface_method(
        &mut self,
        alloc: Global,
        class: &[u8],
        name: &[u8],
        descriptor: &[u8],
    ) -> Result<u16, AsmFault>
        ensures held { Answers (hold_member InterfaceMethodref self.old class.now name.now descriptor.now) self.old self.new result }
        ensures kept { Extends self.old self.new }
        ensures named { IfOk result (λ index. InFiles self.new (λ file. member_named interface_method_in file index ≡ Some (record { class = class.now; name = name.now; descriptor = descriptor.now }))) }
    {
        let len = self.entries.len();
        let answer = put_member(
            alloc,
            &mut self.entries,
            MemberKind::InterfaceMethod,
            class,
            name,
            descriptor,
        );
        keep_if_ok(&mut self.entries, len, answer)
    }

    /// The index of an int.
    pub fn integer(&mut self, value: i32) -> Result<u16, AsmFault>
        ensures held { Answers (hold self.old (IntegerConst value)) self.old self.new result }
        ensures kept { Extends self.old self.new }
        ensures named { IfOk result (λ index. InFiles self.new (λ file. slice_get file.constants index ≡ Some (IntegerConst value))) }
    {
        let len = self.entries.len();
        let answer = put(&mut self.entries, Entry::Integer(value));
        keep_if_ok(&mut self.entries, len, answer)
    }

    /// The index of a long, which takes the next index too.
    pub fn long(&mut self, value: i64) -> Result<u16, AsmFault>
        ensures held { Answers (hold self.old (LongConst value)) self.old self.new result }
        ensures kept { Extends self.old self.new }
        ensures named { IfOk result (λ index. InFiles self.new (λ file. slice_get file.constants index ≡ Some (LongConst value))) }
    {
        let len = self.entries.len();
        let answer = put_long(&mut self.entries, value);
        keep_if_ok(&mut self.entries, len, answer)
    }

    /// The index of a string literal.
    pub fn text(&mut self, alloc: Global, bytes: &[u8]) -> Result<u16, AsmFault>
        ensures held { Answers (hold_text self.old bytes.now) self.old self.new result }
        ensures kept { Extends self.old self.new }
        ensures named { IfOk result (λ index. InFiles self.new (λ file. literal_at file index ≡ Some bytes.now)) }
    {
        let len = self.entries.len();
        let answer = put_literal(alloc, &mut self.entries, bytes);
        keep_if_ok(&mut self.entries, len, answer)
    }

    /// The constants of a class file, from index 0 on.
    pub fn constants(self, alloc: Global) -> Result<Vec<Const>, AllocError>
        ensures { IfOk result (λ constants. constants.items ≡ Unused ∷ self) }
    {
        let Pool { entries } = self;
        copy_entries(alloc, entries.as_slice())
    }
}

// The entries as they were before, if the answer is a fault.
fn keep_if_ok(
    entries: &mut IndexSet<Entry>,
    len: usize,
    answer: Result<u16, AsmFault>,
) -> Result<u16, AsmFault>
    ensures same { result ≡ answer }
    ensures entries { MatchResult answer (λ _. entries.new.keys ≡ entries.old.keys) (λ _. entries.new.keys ≡ take len entries.old.keys) }
{
    if answer.is_err() {
        entries.truncate(len);
    }
    answer
}

fn put_entry(entries: &mut IndexSet<Entry>, entry: Entry) -> Result<u16, AsmFault>
    ensures more { GoOn entries.old.keys entries.new.keys }
    ensures put { PutsEntry entries.old.keys entry entries.new.keys result }
{
    let (at, _) = entries.insert_full(entry)?;
    if entries.len() > ROOM {
        return Err(AsmFault::Full);
    }
    Ok(at as u16 + 1)
}

fn put(entries: &mut IndexSet<Entry>, entry: Entry) -> Result<u16, AsmFault>
    requires single { is_single entry ≡ true }
    requires paired { ArePaired entries.old.keys }
    ensures more { GoOn entries.old.keys entries.new.keys }
    ensures put { Puts (hold (consts_of entries.old.keys) (const_of entry)) entries.new.keys result }
{
    put_entry(entries, entry)
}

fn put_long(entries: &mut IndexSet<Entry>, value: i64) -> Result<u16, AsmFault>
    requires { ArePaired entries.old.keys }
    ensures more { GoOn entries.old.keys entries.new.keys }
    ensures put { Puts (hold (consts_of entries.old.keys) (LongConst value)) entries.new.keys result }
{
    let at = put_entry(entries, Entry::Long(value))?;
    put_entry(entries, Entry::Behind(value))?;
    Ok(at)
}

fn put_text(alloc: Global, entries: &mut IndexSet<Entry>, bytes: &[u8]) -> Result<u16, AsmFault>
    requires { ArePaired entries.old.keys }
    ensures more { GoOn entries.old.keys entries.new.keys }
    ensures put { Puts (hold (consts_of entries.old.keys) (Utf8 bytes.now)) entries.new.keys result }
{
    put(entries, Entry::Utf8(Text::from_bytes(alloc, bytes)?))
}

fn put_class(alloc: Global, entries: &mut IndexSet<Entry>, name: &[u8]) -> Result<u16, AsmFault>
    requires { ArePaired entries.old.keys }
    ensures more { GoOn entries.old.keys entries.new.keys }
    ensures put { Puts (hold_class (consts_of entries.old.keys) name.now) entries.new.keys result }
{
    let name = put_text(alloc, entries, name)?;
    put(entries, Entry::Class(name))
}

fn put_literal(alloc: Global, entries: &mut IndexSet<Entry>, bytes: &[u8]) -> Result<u16, AsmFault>
    requires { ArePaired entries.old.keys }
    ensures more { GoOn entries.old.keys entries.new.keys }
    ensures put { Puts (hold_text (consts_of entries.old.keys) bytes.now) entries.new.keys result }
{
    let text = put_text(alloc, entries, bytes)?;
    put(entries, Entry::Literal(text))
}

fn put_name_and_type(
    alloc: Global,
    entries: &mut IndexSet<Entry>,
    name: &[u8],
    descriptor: &[u8],
) -> Result<u16, AsmFault>
    requires { ArePaired entries.old.keys }
    ensures more { GoOn entries.old.keys entries.new.keys }
    ensures put { Puts (hold_name_and_type (consts_of entries.old.keys) name.now descriptor.now) entries.new.keys result }
{
    let name = put_text(alloc, entries, name)?;
    let descriptor = put_text(alloc, entries, descriptor)?;
    put(entries, Entry::NameAndType(name, descriptor))
}

fn put_member(
    alloc: Global,
    entries: &mut IndexSet<Entry>,
    kind: MemberKind,
    class: &[u8],
    name: &[u8],
    descriptor: &[u8],
) -> Result<u16, AsmFault>
    requires { ArePaired entries.old.keys }
    ensures more { GoOn entries.old.keys entries.new.keys }
    ensures put { Puts (hold_member (kind_of kind) (consts_of entries.old.keys) class.now name.now descriptor.now) entries.new.keys result }
{
    let class = put_class(alloc, entries, class)?;
    let member = put_name_and_type(alloc, entries, name, descriptor)?;
    put(entries, kind.entry(class, member))
}

// The constants that entries are, behind the unused one at index 0.
fn copy_entries(alloc: Global, entries: &[Entry]) -> Result<Vec<Const>, AllocError>
    ensures { IfOk result (λ constants. constants.items ≡ Unused ∷ consts_of entries.now) }
{
    let mut constants = Vec::new(alloc);
    constants.push(Const::Unused)?;
    for entry in entries {
        constants.push(entry.to_const(alloc)?)?;
    }
    Ok(constants)
}
