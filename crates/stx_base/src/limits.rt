/// Bounds that each run keeps. A limit is reached exactly where the count would become the limit plus one.
#[derive(Clone, Copy, Debug, PartialEq, Eq)]
pub struct Limits {
    /// Bytes of one lexeme.
    pub lexeme: u64,
    /// Characters of one text node, a stripped one too, or of one text that an expression makes.
    pub text: u64,
    /// Open elements of one document that is read.
    pub depth: u32,
    /// Open template and procedure instances of one level.
    pub instances: u32,
    /// Items of one value.
    pub sequence: u32,
    /// Weight of one buffer.
    pub buffer: u64,
    /// Open result elements of one target.
    pub elements: u32,
    /// Buffers and other documents open for reading at once.
    pub sources: u32,
    /// Bytes of one document.
    pub input: u64,
    /// Bytes of all sheet files read, a file counted at each include.
    pub sheet: u64,
    /// Units of work for each main event.
    pub fuel: u64,
}

impl Limits {
    ghost use Rattle.std.specs.Prelude.{◌≡◌};
    ghost use Rattle.stx_base.specs.StandardLimits.{standard_limits};

    /// The limits that apply where no option names another.
    pub fn standard() -> Limits
        ensures { result ≡ standard_limits }
    {
        Limits {
            lexeme: 64 * 1024 * 1024,
            text: 64 * 1024 * 1024,
            depth: 512,
            instances: 256,
            sequence: 1_000_000,
            buffer: 64 * 1024 * 1024,
            elements: 4096,
            sources: 16,
            input: 1 << 50,
            sheet: 16 * 1024 * 1024,
            fuel: 1_000_000,
        }
    }
}
