//! What a stream is held to.

ghost use Rattle.std.specs.Prelude.{◌≡◌, ◌<◌, ◌^◌};
ghost use Rattle.stream_grammar.specs.grammar.Faults.{deeper, wider, looser};

/// What the tags and words of a stream are held to.
#[derive(Clone, Copy)]
pub struct Rules {
    /// The levels of a top element, itself the first.
    pub depth: u64,
    /// The attributes on one tag, declarations of namespaces among them.
    pub attributes: u64,
    /// Whether any words may stand between top elements, or white space alone.
    pub loose: bool,
}

impl Rules {
    /// One level more.
    pub fn deepened(self) -> Rules
        requires { self.depth < 2 ^ 63 }
        ensures { result ≡ deeper self }
    {
        Rules {
            depth: self.depth + 1,
            ..self
        }
    }

    /// One attribute more.
    pub fn widened(self) -> Rules
        requires { self.attributes < 2 ^ 63 }
        ensures { result ≡ wider self }
    {
        Rules {
            attributes: self.attributes + 1,
            ..self
        }
    }

    /// Any words between top elements.
    pub fn loosened(self) -> Rules
        ensures { result ≡ looser self }
    {
        Rules {
            loose: true,
            ..self
        }
    }
}
