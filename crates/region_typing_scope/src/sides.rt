// The side of the boundary that a function runs on.

ghost use Rattle.std.specs.Prelude.{◌≡◌};
ghost use Rattle.region_typing_rules.specs.Calls.{is_import as is_import_of};
ghost use Rattle.region_typing_scope.specs.Views.{signature};

use crate::signature::Signature;
use ckc_tree::item::FunctionKind;

/// Whether a function runs on the other side of the boundary.
pub fn is_import(f: &Signature) -> bool
    ensures { result ≡ is_import_of (signature f.now) }
{
    match f.kind {
        FunctionKind::Tainted => true,
        FunctionKind::Trusted | FunctionKind::Callback => false,
    }
}
