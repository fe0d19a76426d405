ghost use Rattle.std.specs.Prelude.{◌≡◌, ◌++◌, ◌∷◌, [], ◌+◌, codes, cond, pos, IfOk, OnOk};
ghost use Rattle.std.specs.List.{filter_map};
ghost use Rattle.jp_pred.specs.Names.{object};
ghost use Rattle.jp_meaning.specs.Descriptors.{method_of, elements_of, kind_of_type};
ghost use Rattle.jvm_table.specs.declared.instr.Instr.TheVariants.{PushInt};
ghost use Rattle.jvm_table.specs.declared.instr.ConstantUse.TheVariants.{PushConstant, InvokeSpecial};
ghost use Rattle.jvm_table.specs.Descriptors.{places_of};
ghost use Rattle.code_asm.specs.Items.{TextOf, BuiltIn, Uses, Plain};
ghost use Rattle.code_asm.specs.Lines.{lines_of};
ghost use Rattle.gen_body.specs.Codes.{construction, family, virtual_call, io};
ghost use Rattle.gen_code.specs.Emitted.{array_items, places_for};

use crate::body::Body;
use crate::names::{kind_of_type, method_name};
use class_form::Bytes;
use code_asm::{Line, MemberName, Named};
use jp_pred::{Name, Ty};
use jp_store::Kind;
use jvm_table::{ConstantUse, Instr};
use std::alloc::AllocError;

impl Body {
    /// Pushes 1 or 0.
    pub fn push_truth(&mut self, value: bool) -> Result<(), AllocError>
        ensures lines { OnOk result (self.new.lines.items ≡ self.old.lines.items ++ lines_of (Plain (PushInt (cond value (pos 1) (pos 0))) ∷ [])) }
        ensures labels { OnOk result (self.new.labels ≡ self.old.labels) }
    {
        if value {
            self.plain(Instr::PushInt(1))
        } else {
            self.plain(Instr::PushInt(0))
        }
    }

    /// A call of a family of a class or of an interface.
    pub fn invoke_virtual(
        &mut self,
        is_interface: bool,
        class: &Name,
        name: &Name,
        params: &[Ty],
        answer: &Ty,
    ) -> Result<(), AllocError>
        ensures lines { OnOk result (self.new.lines.items ≡ self.old.lines.items ++ lines_of (virtual_call is_interface (method_of class.now name.now params.now answer.now) params.now answer.now ∷ [])) }
        ensures labels { OnOk result (self.new.labels ≡ self.old.labels) }
    {
        if is_interface {
            let method = method_name(self.alloc, class, name.bytes(), params, answer)?;
            let places = places_with_receiver(params)?;
            self.add(Line::CallsInterface(method, places))
        } else {
            self.use_method(
                ConstantUse::InvokeVirtual,
                class,
                name.bytes(),
                params,
                answer,
            )
        }
    }

    /// A call of a family of the superclass.
    pub fn invoke_super(
        &mut self,
        class: &Name,
        name: &Name,
        params: &[Ty],
        answer: &Ty,
    ) -> Result<(), AllocError>
        ensures lines { OnOk result (self.new.lines.items ≡ self.old.lines.items ++ lines_of (Uses InvokeSpecial (family (method_of class.now name.now params.now answer.now) params.now answer.now) ∷ [])) }
        ensures labels { OnOk result (self.new.labels ≡ self.old.labels) }
    {
        let method = method_name(self.alloc, class, name.bytes(), params, answer)?;
        self.add(Line::Uses(ConstantUse::InvokeSpecial, Named::Method(method)))
    }

    /// Runs a constructor on the object below its arguments.
    pub fn construct(&mut self, class: &Name, params: &[Ty]) -> Result<(), AllocError>
        ensures lines { OnOk result (self.new.lines.items ≡ self.old.lines.items ++ lines_of (construction class.now params.now ∷ [])) }
        ensures labels { OnOk result (self.new.labels ≡ self.old.labels) }
    {
        if class.bytes() == b"Object".as_slice() {
            self.construct_object()
        } else {
            self.use_method(
                ConstantUse::InvokeSpecial,
                class,
                b"<init>",
                params,
                &Ty::Void,
            )
        }
    }

    // Runs the constructor of `Object`.
    fn construct_object(&mut self) -> Result<(), AllocError>
        ensures lines { OnOk result (self.new.lines.items ≡ self.old.lines.items ++ lines_of (construction object [] ∷ [])) }
        ensures labels { OnOk result (self.new.labels ≡ self.old.labels) }
    {
        self.use_built_in(
            ConstantUse::InvokeSpecial,
            b"java/lang/Object",
            b"<init>",
            b"()V",
        )
    }

    /// Calls a method of the class `Io`.
    pub fn use_io(&mut self, name: &[u8], descriptor: &[u8]) -> Result<(), AllocError>
        ensures lines { OnOk result (self.new.lines.items ≡ self.old.lines.items ++ lines_of (io name.now descriptor.now ∷ [])) }
        ensures labels { OnOk result (self.new.labels ≡ self.old.labels) }
    {
        self.use_built_in(ConstantUse::InvokeStatic, b"Io", name, descriptor)
    }

    // A method that is built into the machine.
    fn use_built_in(
        &mut self,
        constant_use: ConstantUse,
        class: &[u8],
        name: &[u8],
        descriptor: &[u8],
    ) -> Result<(), AllocError>
        ensures lines { OnOk result (self.new.lines.items ≡ self.old.lines.items ++ lines_of (Uses constant_use (BuiltIn (record { class = class.now; name = name.now; descriptor = descriptor.now })) ∷ [])) }
        ensures labels { OnOk result (self.new.labels ≡ self.old.labels) }
    {
        let method = MemberName {
            class: Bytes::from_bytes(self.alloc, class)?,
            name: Bytes::from_bytes(self.alloc, name)?,
            descriptor: Bytes::from_bytes(self.alloc, descriptor)?,
        };
        self.add(Line::Uses(constant_use, Named::Method(method)))
    }

    /// Writes a literal's bytes.
    pub fn show(&mut self, text: &Name) -> Result<(), AllocError>
        ensures lines { OnOk result (self.new.lines.items ≡ self.old.lines.items ++ lines_of (Uses PushConstant (TextOf text.now) ∷ io (codes "text") (codes "(Ljava/lang/String;)V") ∷ [])) }
        ensures labels { OnOk result (self.new.labels ≡ self.old.labels) }
    {
        let bytes = Bytes::from_bytes(self.alloc, text.bytes())?;
        self.add(Line::Uses(ConstantUse::PushConstant, Named::Text(bytes)))?;
        self.use_io(b"text", b"(Ljava/lang/String;)V")
    }

    /// An array of as many elements of a type as the number on the stack.
    pub fn make_array(&mut self, elem: &Ty) -> Result<(), AllocError>
        ensures lines { OnOk result (self.new.lines.items ≡ self.old.lines.items ++ lines_of (array_items (elements_of elem.now))) }
        ensures labels { OnOk result (self.new.labels ≡ self.old.labels) }
    {
        match elem {
            Ty::Int => self.plain(Instr::MakeNumbers),
            Ty::Boolean => self.plain(Instr::MakeTruths),
            Ty::Class(name) => self.use_class(ConstantUse::MakeReferences, name),
            Ty::Void => Ok(()),
            Ty::IntArray => Ok(()),
            Ty::BooleanArray => Ok(()),
            Ty::ClassArray(_) => Ok(()),
        }
    }
}

// How many places a receiver and the values of such parameters take.
fn places_with_receiver(params: &[Ty]) -> Result<usize, AllocError>
    ensures { IfOk result (λ places. places ≡ 1 + places_of (filter_map kind_of_type params.now)) }
{
    let mut places: usize = 1;
    for ty in params {
        let more = places_for(kind_of_type(ty));
        places = together(places, more)?;
    }
    Ok(places)
}

fn together(a: usize, b: usize) -> Result<usize, AllocError>
    ensures { IfOk result (λ sum. sum ≡ a + b) }
{
    a.checked_add(b).ok_or(AllocError)
}

// How many places a value of such a kind takes.
fn places_for(kind: Option<Kind>) -> usize
    ensures { result ≡ places_for kind }
{
    match kind {
        None => 0,
        Some(Kind::LongNumber) => 2,
        Some(Kind::Number) => 1,
        Some(Kind::Reference) => 1,
    }
}
