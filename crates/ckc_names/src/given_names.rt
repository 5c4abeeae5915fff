// The numbers of the names that have a meaning in every program.

ghost use Rattle.std.specs.Prelude.{◌≡◌};
ghost use Rattle.ckc_names_rules.specs.Given.{given_in};

use crate::name_list::NameList;
use ckc_names_rules::given::{Given, MAIN, NEXT_INPUT, NULL, PRINT_INT, PUTCHAR, STRLEN};

/// The numbers of these names among those of a program.
pub fn given_names(names: &NameList) -> Given
    ensures { result ≡ given_in names.now }
{
    Given {
        null: names.find(NULL.as_slice()),
        next_input: names.find(NEXT_INPUT.as_slice()),
        print_int: names.find(PRINT_INT.as_slice()),
        putchar: names.find(PUTCHAR.as_slice()),
        strlen: names.find(STRLEN.as_slice()),
        main: names.find(MAIN.as_slice()),
    }
}
