ghost use Rattle.std.specs.Prelude.{◌≡◌, IfOk, slice_get, option_and_then};
ghost use Rattle.std.specs.Option.{option_map};
ghost use Rattle.jvm_load.specs.Loadable.{IsLoadableFile};
ghost use Rattle.jvm_quick.specs.Rows.{AreOfFile, AreDecoded};

use crate::Rows;
use crate::rows::method_rows;
use class_form::ClassFile;
use jvm_load::Program;
use std::alloc::{AllocError, Global};
use std::marker::Model;

/// The instructions of a file's methods, which contracts see as their list.
#[derive(Drop)]
struct Methods {
    items: Vec<Rows>,
}

impl Model for Methods {
    ghost use Rattle.std.specs.Prelude.{List, Option};
    ghost use Rattle.jvm_table.specs.declared.decode.Row.{Row as Decoded};

    ghost Value = { List (List (Option Decoded)) };

    ghost view = { λ m. m.items.items };
}

impl Methods {
    fn new(items: Vec<Rows>) -> Methods
        ensures { result ≡ items.items }
    {
        Methods { items }
    }

    fn get(&self, at: u32) -> Option<&Rows>
        ensures { option_map (λ rows. rows.now) result ≡ slice_get self.now at }
    {
        self.items.get(at as usize)
    }
}

/// The instructions of all methods of class files, by the positions of the files and of the methods in them.
#[derive(Drop)]
pub struct Decoded {
    files: Vec<Methods>,
}

impl Model for Decoded {
    ghost use Rattle.std.specs.Prelude.{List, Option};
    ghost use Rattle.jvm_table.specs.declared.decode.Row.{Row};

    ghost Value = { List (List (List (Option Row))) };

    ghost view = { λ d. d.files.items };
}

impl Decoded {
    /// The instructions of a file's method, if there is one.
    pub fn rows(&self, file: u32, method: u32) -> Option<&Rows>
        ensures { option_map (λ rows. rows.now) result ≡ option_and_then (λ methods. slice_get methods method) (slice_get self.now file) }
    {
        self.files.get(file as usize)?.get(method)
    }
}

fn file_rows(alloc: Global, file: &ClassFile) -> Result<Vec<Rows>, AllocError>
    requires { IsLoadableFile file.now }
    ensures { IfOk result (λ methods. AreOfFile file.now methods.items) }
{
    let methods = file.methods.as_slice();
    let mut lists = Vec::new(alloc);
    for method in methods {
        lists.push(method_rows(alloc, file, method)?)?;
    }
    Ok(lists)
}

/// The instructions of a program. The error is want of memory.
pub fn decode(alloc: Global, program: &Program) -> Result<Decoded, AllocError>
    ensures { IfOk result (AreDecoded program.now) }
{
    let files = program.files();
    let mut lists = Vec::new(alloc);
    for file in files {
        lists.push(Methods::new(file_rows(alloc, file)?))?;
    }
    Ok(Decoded { files: lists })
}
