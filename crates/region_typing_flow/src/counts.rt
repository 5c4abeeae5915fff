// How many variables the flow of a function has.

ghost use Rattle.std.specs.Prelude.{◌≡◌, ◌+◌, ◌≤◌, length};
ghost use Rattle.ckc_tree.specs.Statements.{statement};
ghost use Rattle.ckc_tree.specs.Items.{statement_list};
ghost use Rattle.region_typing_rules.specs.Items.{limited, variables_in as variables_of};
ghost use Rattle.region_typing_rules.specs.Knowing.{declared_in as declared_by, all_declared as all_declared_by};

use ckc_tree::stmt::{Declaration, ForInitial, Stmt};

/// How many variables a flow has at most.
const MOST_VARIABLES: u32 = 256;

// The sum of two such numbers, or the most.
fn sum(a: u32, b: u32) -> u32
    requires a { a ≤ 256 }
    requires b { b ≤ 256 }
    ensures { result ≡ limited 256 (a + b) }
{
    let sum = a + b;
    if MOST_VARIABLES < sum {
        MOST_VARIABLES
    } else {
        sum
    }
}

// How many locals a declaration declares.
fn declarators(declaration: &Declaration) -> u32
    ensures { result ≡ limited 256 (length declaration.now.declarators.items) }
{
    let count = declaration.declarators.len();
    if (MOST_VARIABLES as usize) < count {
        MOST_VARIABLES
    } else {
        count as u32
    }
}

// How many locals a statement declares.
#[cycle(counts)]
fn declared_in(written: &Stmt) -> u32
    ensures { result ≡ limited 256 (declared_by (statement written.now)) }
{
    match written {
        Stmt::Block { statements, .. } => all_declared(statements.as_slice()),
        Stmt::Declare { declaration, .. } => declarators(declaration),
        Stmt::If {
            consequent,
            alternative,
            ..
        } => match alternative {
            None => declared_in(consequent),
            Some(alternative) => sum(declared_in(consequent), declared_in(alternative)),
        },
        Stmt::While { body, .. } => declared_in(body),
        Stmt::For { initial, body, .. } => match initial {
            ForInitial::Declare { declaration } => {
                sum(declarators(declaration), declared_in(body))
            }
            _ => declared_in(body),
        },
        _ => 0,
    }
}

// How many locals statements declare.
#[cycle(counts)]
fn all_declared(written: &[Stmt]) -> u32
    ensures { result ≡ limited 256 (all_declared_by (statement_list written.now)) }
{
    let mut count = 0;
    for listed in written {
        count = sum(count, declared_in(listed));
    }
    count
}

/// How many variables the flow of a function has: one for each parameter and each local that its body declares, and 256 at
/// most.
pub fn variables_in(parameters: u32, body: &[Stmt]) -> u32
    requires { parameters ≤ 256 }
    ensures { result ≡ variables_of parameters (statement_list body.now) }
{
    sum(parameters, all_declared(body))
}
