ghost use Rattle.std.specs.Prelude.{◌≡◌, [], map};
ghost use Rattle.type_rules.specs.Types.{is_among};
ghost use Rattle.type_rules.specs.Nodes.{AtParam};
ghost use Rattle.type_rules.specs.Table.{own_faults, faults_of};
ghost use Rattle.type_rules.specs.Units.{param_visits};
ghost use Rattle.type_rules.specs.Typing.{earlier};

use jp_ast::Param;
use jp_pred::Name;
use type_heads::{First, is_refused};

/// Takes the faults of a member's parameters into the first fault so far.
pub fn judge_params(params: &[Param], first: &mut First)
    ensures { first.new.fault ≡ earlier first.old.fault (faults_of (param_visits [] params.now)) }
{
    for (i, param) in params.iter().enumerate() {
        judge_param(&params[..i], param, first);
    }
}

fn judge_param(before: &[Param], param: &Param, first: &mut First)
    ensures { first.new.fault ≡ earlier first.old.fault (own_faults param.now.place (AtParam before.now param.now)) }
{
    first.add_if(param.place, 2, is_refused(&param.ty));
    first.add_if(param.place, 12, is_taken(before, &param.name));
}

/// Whether a parameter has the name.
fn is_taken(params: &[Param], name: &Name) -> bool
    ensures { result ≡ is_among name.now (map (λ q. q.name) params.now) }
{
    for param in params {
        if param.name == *name {
            return true;
        }
    }
    false
}
