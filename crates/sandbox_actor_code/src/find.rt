// Functions by their numbers.

ghost use Rattle.std.specs.Prelude.{◌≡◌, ◌==◌, IfSome, find};
ghost use Rattle.std.specs.Option.{option_copied};
ghost use Rattle.code_words.specs.Functions.{Func as FuncData};

use code_words::image::Func;

/// The function of a number, if it is there.
#[tactic(auto, using(std::proofs::lemmas::Bool::Decides::nat_tests))]
pub fn find_function<'a>(funs: &'a [Func], number: u32) -> Option<&'a Func>
    ensures found { option_copied result ≡ find (λ (f : FuncData). f.number == number) funs.now }
    ensures number { IfSome result (λ f. f.now.number ≡ number) }
{
    for fun in funs {
        if fun.number() == number {
            return Some(fun);
        }
    }
    None
}
