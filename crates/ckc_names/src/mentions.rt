// What each mention of a name does to a table, and what it is refused for.

ghost use Rattle.std.specs.Prelude.{◌≡◌, ◌||◌, ◌<◌, ◌∷◌, [], bytes_eq, Ok};
ghost use Rattle.ckc_names_rules.specs.Mentions as m;
ghost use Rattle.ckc_names_rules.specs.Given as given;
ghost use Rattle.ckc_names_rules.specs.Scopes as scopes;
ghost use Rattle.ckc_names.specs.State.{Goes};

use crate::table::Table;
use ckc_names_rules::given::{NEXT_INPUT, NULL, PRINT_INT, PUTCHAR, STRLEN};
use ckc_names_rules::meaning::{
    Meaning, is_function, is_taken, is_taken_for, is_value, was_defined,
};
use ckc_names_rules::refusals::refusal;
use ckc_text::code::Code;
use ckc_text::fault::Refused;
use ckc_tree::identifier::Identifier;

// ---- tests

fn is_predefined(name: &[u8]) -> bool
    ensures { result ≡ scopes.is_among scopes.predefined name.now }
{
    name == NEXT_INPUT.as_slice()
        || name == PRINT_INT.as_slice()
        || name == PUTCHAR.as_slice()
        || name == STRLEN.as_slice()
}

fn is_null(name: &[u8]) -> bool
    ensures { result ≡ bytes_eq name.now given.null }
{
    name == NULL.as_slice()
}

fn is_reserved(name: &[u8]) -> bool
    ensures { result ≡ scopes.is_reserved name.now }
{
    is_null(name) || is_predefined(name)
}

// ---- blocks

/// Opens a block.
pub fn open(table: &mut Table) -> Result<(), Refused>
    ensures { Goes (m.Open ∷ []) table.old result table.new }
{
    table.open()?;
    Ok(())
}

/// Closes the innermost block.
pub fn close(table: &mut Table)
    ensures { Goes (m.Close ∷ []) table.old (Ok tt) table.new }
{
    table.close();
}

// ---- declarations

/// Lets a name of a list be visible in all of the list.
pub fn reveal(table: &mut Table, name: &Identifier) -> Result<(), Refused>
    ensures { Goes (m.Reveal name.now ∷ []) table.old result table.new }
{
    let number = table.see(name.name.as_bytes())?;
    if table.innermost(number).is_none() {
        table.stand_for(number, Meaning::Coming)?;
    }
    Ok(())
}

/// Declares a variable, a parameter or a member.
pub fn declare(table: &mut Table, name: &Identifier) -> Result<(), Refused>
    ensures { Goes (m.Declare name.now ∷ []) table.old result table.new }
{
    let number = table.see(name.name.as_bytes())?;
    let taken = is_taken(table.innermost(number));
    if is_reserved(name.name.as_bytes()) || taken {
        return Err(refusal(Code::E11, name));
    }
    table.stand_for(number, Meaning::Variable)?;
    Ok(())
}

/// Declares a function, with its body or without.
pub fn declare_function(table: &mut Table, name: &Identifier, defined: bool) -> Result<(), Refused>
    ensures { Goes (m.DeclareFunction name.now defined ∷ []) table.old result table.new }
{
    let number = table.see(name.name.as_bytes())?;
    let before = table.innermost(number);
    let taken = is_taken_for(defined, before);
    if is_reserved(name.name.as_bytes()) || taken {
        return Err(refusal(Code::E11, name));
    }
    let defined = defined || was_defined(before);
    table.stand_for(number, Meaning::Function { defined })?;
    Ok(())
}

/// Declares a tag of a struct.
pub fn declare_tag(table: &mut Table, tag: &Identifier) -> Result<(), Refused>
    ensures { Goes (m.DeclareTag tag.now ∷ []) table.old result table.new }
{
    table.see(tag.name.as_bytes())?;
    let taken = table.has_tag(tag.name.as_bytes());
    if is_reserved(tag.name.as_bytes()) || taken {
        return Err(refusal(Code::E11, tag));
    }
    table.add_tag(tag.name.as_bytes())?;
    Ok(())
}

// ---- uses

/// A name that stands as an expression.
pub fn use_value(table: &mut Table, name: &Identifier) -> Result<(), Refused>
    ensures { Goes (m.Use name.now ∷ []) table.old result table.new }
{
    let number = table.see(name.name.as_bytes())?;
    let stands = is_value(table.visible(number));
    if is_null(name.name.as_bytes()) || stands {
        Ok(())
    } else {
        Err(refusal(Code::E10, name))
    }
}

/// A name in front of arguments.
pub fn call(table: &mut Table, name: &Identifier) -> Result<(), Refused>
    ensures { Goes (m.Call name.now ∷ []) table.old result table.new }
{
    let number = table.see(name.name.as_bytes())?;
    let stands = is_function(table.visible(number));
    if is_predefined(name.name.as_bytes()) || stands {
        Ok(())
    } else {
        Err(refusal(Code::E10, name))
    }
}

/// A tag behind the word `struct`.
pub fn use_tag(table: &mut Table, tag: &Identifier) -> Result<(), Refused>
    ensures { Goes (m.UseTag tag.now ∷ []) table.old result table.new }
{
    table.see(tag.name.as_bytes())?;
    if table.has_tag(tag.name.as_bytes()) {
        Ok(())
    } else {
        Err(refusal(Code::E10, tag))
    }
}

/// A member of an expression.
pub fn select(table: &mut Table, member: &Identifier) -> Result<(), Refused>
    ensures { Goes (m.Select member.now ∷ []) table.old result table.new }
{
    table.see(member.name.as_bytes())?;
    Ok(())
}
