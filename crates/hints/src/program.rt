ghost use Rattle.std.specs.Prelude.{◌≡◌};
ghost use Rattle.hints.specs.StatusHints as spec;

/// A program.
#[derive(Debug, Clone, Copy, PartialEq, Eq)]
pub enum Program {
    Scenetool,
    Scenerender,
    Sceneview,
}

impl Program {
    /// Its name.
    pub(crate) fn name(self) -> &'static str
        ensures { result.now ≡ spec.program_name self }
    {
        match self {
            Program::Scenetool => "scenetool",
            Program::Scenerender => "scenerender",
            Program::Sceneview => "sceneview",
        }
    }

    /// The forms of its words.
    pub(crate) fn forms(self) -> &'static str
        ensures { result.now ≡ spec.program_forms self }
    {
        match self {
            Program::Scenetool => {
                "mix SCENE OUT, info FILE, gen NUMBER PREFIX or fx FILE OUT COUNT EFFECT .."
            }
            Program::Scenerender => "render SCENE OUT WORKERS",
            Program::Sceneview => "SCENE [FRAME]",
        }
    }
}
