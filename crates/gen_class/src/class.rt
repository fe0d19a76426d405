ghost use Rattle.std.specs.Prelude.{◌≡◌, ℕ, true, ◌∷◌, IfOk, IfErr};
ghost use Rattle.class_form.specs.declared.constant.Const.TheVariants.{Unused};
ghost use Rattle.class_form.specs.WellFormed.{WellFormed};
ghost use Rattle.gen_laws.specs.Compiled.{IsFileOf};
ghost use Rattle.gen_class.specs.Asked.{front_constants, class_constants};
ghost use Rattle.gen_class.specs.Excuses.{ExcusesMethods, is_fit, Excuses};
ghost use Rattle.gen_class.specs.Files.{file_with};
ghost use Rattle.gen_class.specs.Flags.{HasFlags};
ghost use Rattle.gen_class.specs.Members.{EachWritten, HasSlots, CallsAreMeant, HasPlainTypes, HasFewItems, AreApart};

use crate::heads::{Heading, class_flags, fields_of, put_heading};
use crate::methods::methods_of;
use class_form::{ClassFile, MemberInfo, well_formed};
use code_asm::Pool;
use gen_code::BodyFault;
use jp_meaning::TypedClass;
use jp_pred::Hier;
use sqlite_items::Items;
use std::alloc::{AllocError, Global};

/// The class file of a class of resolved trees, whose paths lead through classes of the hierarchy. `Unfit` comes where a
/// member's lines can't be laid out, or where the file isn't well formed, as one with too long a name or too many members;
/// a fault of the assembler comes where the constants are too many, a member's code is too long or a jump in it too far, or
/// memory is wanting. So each fault but the last has its cause (`Excuses`).
pub fn class_file(alloc: Global, hier: &Hier, class: &TypedClass) -> Result<ClassFile, BodyFault>
    requires slots { EachWritten class.now (HasSlots class.now.head) }
    requires meant { EachWritten class.now (CallsAreMeant hier.now class.now.head) }
    requires signed { HasPlainTypes class.now.head }
    requires apart { AreApart class.now }
    ensures compiled { IfOk result (λ file. (most : ℕ) → EachWritten class.now (HasFewItems hier.now class.now.head most) → IsFileOf hier.now class.now file most) }
    ensures flagged { IfOk result (HasFlags class.now) }
    ensures asked { IfOk result (λ file. file.constants ≡ Unused ∷ class_constants hier.now class.now) }
    ensures refused { IfErr result (Excuses hier.now class.now) }
    ensures formed { IfOk result WellFormed }
{
    let file = compiled_file(alloc, hier, class)?;
    if well_formed(&file) {
        Ok(file)
    } else {
        Err(BodyFault::Unfit)
    }
}

// The same, also where the file isn't well formed.
fn compiled_file(alloc: Global, hier: &Hier, class: &TypedClass) -> Result<ClassFile, BodyFault>
    requires slots { EachWritten class.now (HasSlots class.now.head) }
    requires meant { EachWritten class.now (CallsAreMeant hier.now class.now.head) }
    requires signed { HasPlainTypes class.now.head }
    requires apart { AreApart class.now }
    ensures compiled { IfOk result (λ file. (most : ℕ) → EachWritten class.now (HasFewItems hier.now class.now.head most) → IsFileOf hier.now class.now file most) }
    ensures flagged { IfOk result (HasFlags class.now) }
    ensures fit { IfOk result (λ file. is_fit hier.now class.now ≡ true → WellFormed file) }
    ensures asked { IfOk result (λ file. file.constants ≡ Unused ∷ class_constants hier.now class.now) }
    ensures refused { IfErr result (ExcusesMethods hier.now class.now (front_constants class.now.head)) }
{
    let mut pool = Pool::new(alloc);
    // The name of the attribute in which code stands.
    pool.utf8(alloc, b"Code")?;
    let heading = put_heading(alloc, &mut pool, &class.head)?;
    let fields = fields_of(alloc, &mut pool, class.head.fields.as_slice())?;
    let methods = methods_of(alloc, &mut pool, hier, class)?;
    let flags = class_flags(&class.head);
    let file = put_together(alloc, pool, flags, heading, fields, methods)?;
    Ok(file)
}

fn put_together(
    alloc: Global,
    pool: Pool,
    flags: u16,
    heading: Heading,
    fields: Items<MemberInfo>,
    methods: Items<MemberInfo>,
) -> Result<ClassFile, AllocError>
    ensures { IfOk result (λ file. file ≡ file_with pool flags heading fields methods) }
{
    let Heading {
        this_class,
        super_class,
        interfaces,
    } = heading;
    Ok(ClassFile {
        constants: Items::from_vec(pool.constants(alloc)?),
        flags,
        this_class,
        super_class,
        interfaces,
        fields,
        methods,
        attributes: Items::new(alloc),
    })
}
