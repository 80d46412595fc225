//! In which form a report is drawn.

ghost use Rattle.std.specs.Prelude.{◌≡◌};
ghost use Rattle.worm_view.specs.Commands.{form_of};

/// What is drawn of a report.
#[derive(Clone, Copy, Debug, PartialEq, Eq)]
pub enum Form {
    /// A picture.
    Picture,
    /// A map for a terminal.
    Map,
    /// Who waits for whom.
    Waits,
}

/// The form that these two words ask for; none where both were given.
pub fn form_of(text: bool, waits: bool) -> Option<Form>
    ensures { result ≡ form_of text waits }
{
    match (text, waits) {
        (false, false) => Some(Form::Picture),
        (true, false) => Some(Form::Map),
        (false, true) => Some(Form::Waits),
        (true, true) => None,
    }
}
