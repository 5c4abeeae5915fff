// What an expression is.

ghost use Rattle.std.specs.Prelude.{◌≡◌, List, Some, IfOk, false};
ghost use Rattle.pointer_modes.specs.Types.{Structure, ctype as ctype_of};
ghost use Rattle.ckc_core.specs.declared.program.Site.{Site as SiteTree};
ghost use Rattle.ckc_core.specs.Core.{Direct, expression, place as place_of};
ghost use Rattle.region_typing_rules.specs.Operands.{Value, ForNothing, at_place, local_typed, object_typed, pointer_typed, unknown_typed, with_cell_bounds as with_cell_bounds_of};
ghost use Rattle.region_typing_rules.specs.Items.{is_zero as zero_typed};
ghost use Rattle.region_typing_scope.specs.Typed.{typed, base_place};
ghost use Rattle.region_typing_scope.specs.OnHeap.{typed as typed_on_heap};

use crate::bounds::{bounds_in_force, cell_bounds, in_force};
use crate::context::Context;
use bounds_exprs::term::Bounds;
use bounds_flow::flow::Flow;
use ckc_core::program::{CellPlace, Expr, Index, PointerBounds, Site};
use ckc_text::fault::NoMemory;
use pointer_modes::ctype::{CType, Kind};
use pointer_modes::structs::Structs;

/// The first cell of a value in memory: of a file-level variable, of what a pointer points to, or of an element.
#[derive(Drop)]
pub enum Base {
    Object(u32),
    Behind {
        pointer: Box<Expr>,
        site: Site,
    },
    /// So many elements behind the one at which a pointer with bounds stands, which may be null-terminated.
    Element {
        pointer: Box<Expr>,
        number: Box<Expr>,
        terminated: bool,
        site: Site,
    },
}

/// Where a struct stands: it is a parameter, or begins at a cell.
#[derive(Drop)]
pub enum StructPlace {
    Local(u32),
    Cell(Base),
}

/// What an expression is.
#[derive(Drop)]
pub enum Typed {
    /// A value of a scalar type, which may be the constant 0, and stands for nothing else.
    Value {
        ctype: CType,
        zero: bool,
        value: Box<Expr>,
    },
    /// What a local holds, with the bounds at its node. A local array holds the place of its first element.
    Local {
        ctype: CType,
        local: u32,
        is_array: bool,
        bounds: Option<PointerBounds>,
    },
    /// What a cell holds, with the bounds at its node.
    Cell {
        ctype: CType,
        place: CellPlace,
        bounds: Option<PointerBounds>,
    },
    /// What a file-level pointer holds for which these bounds are declared, with those at its node.
    Bounded {
        ctype: CType,
        object: u32,
        declared: Bounds,
        bounds: Option<PointerBounds>,
    },
    /// What a file-level null-terminated pointer holds whose bounds are declared as unknown, with those at its node.
    Unknown {
        ctype: CType,
        object: u32,
        bounds: Option<PointerBounds>,
    },
    /// The name of a file-level array: a pointer to its first element, with all of them but the zero that ends it.
    Array {
        ctype: CType,
        object: u32,
        bounds: Option<PointerBounds>,
    },
    /// A struct, which is a parameter, or stands at a place.
    Struct {
        number: u32,
        place: StructPlace,
    },
}

/// A value that isn't the constant 0.
pub fn plain(context: &Context, ctype: CType, value: Expr) -> Result<Box<Typed>, NoMemory>
    ensures { IfOk result (λ t. typed_on_heap t ≡ Value (ctype_of ctype) false (expression value) ForNothing) }
{
    let value = context.boxed(value)?;
    context.boxed(Typed::Value {
        ctype,
        zero: false,
        value,
    })
}

/// Whether a value is the constant 0.
pub fn is_zero(t: &Typed) -> bool
    ensures { result ≡ zero_typed (typed t.now) }
{
    match t {
        Typed::Value { zero, .. } => *zero,
        Typed::Local { .. }
        | Typed::Cell { .. }
        | Typed::Bounded { .. }
        | Typed::Unknown { .. }
        | Typed::Array { .. }
        | Typed::Struct { .. } => false,
    }
}

/// What stands at a base.
pub fn at_base(ctype: CType, base: Base) -> Typed
    ensures { typed result ≡ at_place (ctype_of ctype) (base_place base) }
{
    match ctype {
        CType::Struct(number) => Typed::Struct {
            number,
            place: StructPlace::Cell(base),
        },
        ctype => Typed::Cell {
            ctype,
            place: first_cell(base),
            bounds: None,
        },
    }
}

/// The cell at a base.
pub fn first_cell(base: Base) -> CellPlace
    ensures { place_of result ≡ base_place base }
{
    match base {
        Base::Object(object) => CellPlace::Direct { object, offset: 0 },
        Base::Behind { pointer, site } => CellPlace::Through {
            pointer,
            index: Index::First,
            offset: 0,
            site,
        },
        Base::Element {
            pointer,
            number,
            terminated,
            site,
        } => CellPlace::Through {
            pointer,
            index: Index::Element { number, terminated },
            offset: 0,
            site,
        },
    }
}

// What a file-level variable holds that is no array, with the bounds of a pointer in a cell at its node.
fn at_cell(structs: &Structs, ctype: CType, object: u32, site: Site) -> Typed
    ensures { typed result ≡ with_cell_bounds_of structs.now site (at_place (ctype_of ctype) (Direct object 0)) }
{
    match ctype {
        CType::Struct(_) => at_base(ctype, Base::Object(object)),
        ctype => {
            let bounds = cell_bounds(structs, &ctype, site);
            Typed::Cell {
                ctype,
                place: CellPlace::Direct { object, offset: 0 },
                bounds,
            }
        }
    }
}

// What a file-level variable holds whose bounds are declared as unknown.
fn at_unknown(ctype: CType, object: u32) -> Typed
    ensures { (structs : List Structure) (site : SiteTree) → typed result ≡ unknown_typed structs object (ctype_of ctype) site }
{
    match ctype {
        CType::Pointer(mode, Kind::Nt, target) => Typed::Unknown {
            ctype: CType::Pointer(mode, Kind::Nt, target),
            object,
            bounds: None,
        },
        ctype => at_base(ctype, Base::Object(object)),
    }
}

// What a file-level pointer holds, with the bounds that are declared for it at its node.
fn at_pointer(structs: &Structs, ctype: CType, object: u32, declared: Bounds, site: Site) -> Typed
    ensures { typed result ≡ pointer_typed structs.now object (ctype_of ctype) declared site }
{
    match ctype {
        CType::Pointer(mode, kind, target) => {
            let bounds = in_force(structs, kind, &target, Some(declared), site);
            Typed::Bounded {
                ctype: CType::Pointer(mode, kind, target),
                object,
                declared,
                bounds,
            }
        }
        ctype => at_base(ctype, Base::Object(object)),
    }
}

// What a file-level variable holds for which bounds are declared, or unknown ones.
fn at_declared(
    structs: &Structs,
    ctype: CType,
    object: u32,
    declared: Option<Bounds>,
    site: Site,
) -> Typed
    ensures { typed result ≡ object_typed structs.now object (ctype_of ctype) (Some declared) site }
{
    match declared {
        None => at_unknown(ctype, object),
        Some(declared) => at_pointer(structs, ctype, object, declared, site),
    }
}

/// What a file-level variable holds that is no array, with the bounds that are written for a pointer at its node.
pub fn at_object(
    structs: &Structs,
    ctype: CType,
    object: u32,
    written: Option<Option<Bounds>>,
    site: Site,
) -> Typed
    ensures { typed result ≡ object_typed structs.now object (ctype_of ctype) written site }
{
    match written {
        None => at_cell(structs, ctype, object, site),
        Some(declared) => at_declared(structs, ctype, object, declared, site),
    }
}

/// What a local holds, with the bounds in force of a pointer at its node.
pub fn at_local(
    structs: &Structs,
    flow: &Flow,
    ctype: CType,
    local: u32,
    is_array: bool,
    site: Site,
) -> Typed
    ensures { typed result ≡ local_typed structs.now flow.now local (ctype_of ctype) is_array site }
{
    match ctype {
        CType::Struct(number) => Typed::Struct {
            number,
            place: StructPlace::Local(local),
        },
        CType::Pointer(mode, kind, target) => {
            let bounds = in_force(structs, kind, &target, bounds_in_force(flow, local), site);
            Typed::Local {
                ctype: CType::Pointer(mode, kind, target),
                local,
                is_array,
                bounds,
            }
        }
        ctype => Typed::Local {
            ctype,
            local,
            is_array,
            bounds: None,
        },
    }
}
