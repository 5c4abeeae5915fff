// What a name stands for, and what it may be used for.

ghost use Rattle.std.specs.Prelude.{◌≡◌};
ghost use Rattle.std.specs.Option.{option_map};
ghost use Rattle.ckc_names_rules.specs.Scopes as scopes;
ghost use Rattle.ckc_names_rules.specs.Meanings.{meaning as meaning_in};

/// What a name stands for.
#[derive(Clone, Copy)]
pub enum Meaning {
    /// A name of a list whose place in the list is still to come.
    Coming,
    Variable,
    Function { defined: bool },
}

/// Whether no variable can be declared.
pub fn is_taken(meaning: Option<Meaning>) -> bool
    ensures { result ≡ scopes.is_taken (option_map meaning_in meaning) }
{
    match meaning {
        None | Some(Meaning::Coming) => false,
        Some(Meaning::Variable) | Some(Meaning::Function { .. }) => true,
    }
}

/// Whether no function can be declared, with its body or without.
pub fn is_taken_for(defined: bool, meaning: Option<Meaning>) -> bool
    ensures { result ≡ scopes.is_taken_for defined (option_map meaning_in meaning) }
{
    match meaning {
        None => false,
        Some(Meaning::Coming) | Some(Meaning::Variable) => true,
        Some(Meaning::Function { defined: before }) => defined && before,
    }
}

/// Whether it is a function with a body.
pub fn was_defined(meaning: Option<Meaning>) -> bool
    ensures { result ≡ scopes.was_defined (option_map meaning_in meaning) }
{
    match meaning {
        Some(Meaning::Function { defined }) => defined,
        _ => false,
    }
}

/// Whether it can stand as an expression.
pub fn is_value(meaning: Option<Meaning>) -> bool
    ensures { result ≡ scopes.is_value (option_map meaning_in meaning) }
{
    match meaning {
        Some(Meaning::Coming) | Some(Meaning::Variable) => true,
        _ => false,
    }
}

/// Whether it can be called.
pub fn is_function(meaning: Option<Meaning>) -> bool
    ensures { result ≡ scopes.is_function (option_map meaning_in meaning) }
{
    match meaning {
        Some(Meaning::Function { .. }) => true,
        _ => false,
    }
}
