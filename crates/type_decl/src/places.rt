ghost use Rattle.std.specs.Prelude.{◌≡◌, []};
ghost use Rattle.type_decl.specs.Positions.{places_of, place_by, counted, AreFew};

use jp_ast::{Member, MemberPart};
use jp_meaning::TypedPart;

/// How many members of each list of a head stand before.
#[derive(Drop)]
pub(crate) struct Places {
    pub fields: u16,
    pub constructors: u16,
    pub methods: u16,
}

impl Places {
    /// Before the first member.
    pub(crate) fn none() -> Places
        ensures { result ≡ places_of [] }
    {
        Places {
            fields: 0,
            constructors: 0,
            methods: 0,
        }
    }

    /// What the next member is, with its position in that list.
    pub(crate) fn next(&mut self, member: &Member) -> TypedPart
        requires { AreFew self.old }
        ensures part { result ≡ place_by self.old member.now }
        ensures counted { self.new ≡ counted self.old member.now }
    {
        match &member.part {
            MemberPart::Field { .. } => {
                let at = self.fields;
                self.fields += 1;
                TypedPart::Field(at)
            }
            MemberPart::Constructor { .. } => {
                let at = self.constructors;
                self.constructors += 1;
                TypedPart::Constructor(at)
            }
            MemberPart::Static { .. } | MemberPart::Abstract { .. } | MemberPart::Body { .. } => {
                let at = self.methods;
                self.methods += 1;
                TypedPart::Method(at)
            }
        }
    }
}
