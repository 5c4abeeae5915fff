// Whether a program has a `main`, without which it is refused.

ghost use Rattle.std.specs.Prelude.{◌≡◌};
ghost use Rattle.std.specs.List.{list_any};
ghost use Rattle.ckc_tree.specs.Items.{result_form as result_of, parameters as parameters_of, function as function_of, item as item_of, tree};
ghost use Rattle.ckc_names_rules.specs.Naming as naming;

use crate::name_list::NameList;
use ckc_names_rules::given::MAIN;
use ckc_names_rules::refusals::need_main;
use ckc_text::fault::Refused;
use ckc_tree::item::{Function, FunctionKind, Item, Parameters, Program, ResultForm};
use ckc_tree::type_form::TypeForm;

fn is_int(written: &ResultForm) -> bool
    ensures { result ≡ naming.is_int (result_of written.now) }
{
    match written {
        ResultForm::Void { .. } => false,
        ResultForm::Value { base } => matches!(base, TypeForm::Int { .. }),
    }
}

fn takes_nothing(written: &Parameters) -> bool
    ensures { result ≡ naming.takes_nothing (parameters_of written.now) }
{
    match written {
        Parameters::Nothing | Parameters::Void => true,
        Parameters::Listed { .. } => false,
    }
}

// Whether a function is a trusted `int main(void)` with a body.
fn is_main_function(written: &Function) -> bool
    ensures { result ≡ naming.is_main_function (function_of written.now) }
{
    matches!(written.kind, FunctionKind::Trusted)
        && is_int(&written.result)
        && written.stars == 0
        && written.name.name.as_bytes() == MAIN.as_slice()
        && takes_nothing(&written.parameters)
        && written.body.is_some()
}

fn is_main(written: &Item) -> bool
    ensures { result ≡ naming.is_main (item_of written.now) }
{
    match written {
        Item::Function { function } => is_main_function(function),
        _ => false,
    }
}

// Whether one is a trusted `int main(void)` with a body.
fn has_main(written: &[Item]) -> bool
    ensures { result ≡ list_any (λ x. naming.is_main (item_of x)) written.now }
{
    for listed in written {
        if is_main(listed) {
            return true;
        }
    }
    false
}

/// The names of a program.
///
/// # Errors
///
/// E28 at the start of the source, where it has no trusted `int main(void)` with a body.
pub fn with_main(program: &Program, names: NameList) -> Result<NameList, Refused>
    ensures { result ≡ naming.names_if (naming.has_main (tree program.now)) names }
{
    match need_main(has_main(program.items.as_slice())) {
        Ok(()) => Ok(names),
        Err(refused) => Err(refused),
    }
}
