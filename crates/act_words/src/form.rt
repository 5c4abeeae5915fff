// The forms of an act's line.

ghost use Rattle.std.specs.Prelude.{◌≡◌};
ghost use Rattle.act_words.specs.Forms.{form_named};
ghost use Rattle.act_words.specs.Readings.{count_of_form};

/// What the member `act` of a line can say.
#[derive(Clone, Copy)]
pub enum Form {
    Go,
    Read,
    Write,
    Call,
    Return,
    Stop,
}

/// The form of this name.
pub(crate) fn form_of(name: &str) -> Option<Form>
    ensures { result ≡ form_named name.now }
{
    match name {
        "go" => Some(Form::Go),
        "read" => Some(Form::Read),
        "write" => Some(Form::Write),
        "call" => Some(Form::Call),
        "return" => Some(Form::Return),
        "stop" => Some(Form::Stop),
        _ => None,
    }
}

/// How many members the object of this form has.
pub(crate) fn count_of_form(form: Form) -> usize
    ensures { result ≡ count_of_form form }
{
    match form {
        Form::Go | Form::Stop => 1,
        Form::Return => 2,
        Form::Read | Form::Write | Form::Call => 3,
    }
}
