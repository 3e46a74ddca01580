ghost use Rattle.std.specs.Prelude.{◌≡◌};
ghost use Rattle.sheet_model.specs.Passing.{kinds};

/// The kinds of nodes that are passed through where no template is chosen.
#[derive(Clone, Copy, Debug, PartialEq, Eq)]
pub struct Kinds {
    /// Start and end tags.
    pub elements: bool,
    /// Text nodes and CDATA nodes.
    pub text: bool,
    /// CDATA nodes, also where text isn't passed through.
    pub cdata: bool,
    pub comments: bool,
    pub instructions: bool,
    pub attributes: bool,
}

/// What is passed through where no template is chosen, as a group says it.
#[derive(Clone, Copy, Debug, PartialEq, Eq)]
pub enum Pass {
    None,
    /// Text nodes and CDATA nodes.
    Chars,
    All,
    Kinds(Kinds),
}

impl Pass {
    /// The kinds that are passed through.
    pub fn kinds(self) -> Kinds
        ensures { result ≡ kinds self }
    {
        let none = Kinds {
            elements: false,
            text: false,
            cdata: false,
            comments: false,
            instructions: false,
            attributes: false,
        };
        match self {
            Pass::None => none,
            Pass::Chars => Kinds { text: true, ..none },
            Pass::All => Kinds {
                elements: true,
                text: true,
                cdata: true,
                comments: true,
                instructions: true,
                attributes: true,
            },
            Pass::Kinds(kinds) => kinds,
        }
    }
}
