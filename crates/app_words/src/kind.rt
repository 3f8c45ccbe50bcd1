//! The kinds of files.

ghost use Rattle.std.specs.Prelude.{◌≡◌};

/// A kind of file.
#[derive(Clone, Copy, Debug, PartialEq, Eq, Drop)]
pub enum Kind {
    Hex,
    Asm,
    Layout,
    Keys,
    Cert,
    Script,
    Text,
    Vcd,
}

impl Kind {
    ghost use Rattle.app_words.specs.Kinds.{limit_of, name_of};

    /// The most bytes that a file of this kind may have.
    pub fn limit(self) -> usize
        ensures limit { result ≡ limit_of self }
    {
        match self {
            Kind::Hex => 16_384,
            Kind::Asm => 262_144,
            Kind::Layout | Kind::Cert | Kind::Script => 65_536,
            Kind::Keys => 4_194_304,
            Kind::Text => 10_000,
            Kind::Vcd => 4_294_967_294,
        }
    }

    /// The kind as refusals name it.
    pub fn name(self) -> &'static str
        ensures name { result.now ≡ name_of self }
    {
        match self {
            Kind::Hex => "hex",
            Kind::Asm => "asm",
            Kind::Layout => "layout",
            Kind::Keys => "keys",
            Kind::Cert => "cert",
            Kind::Script => "script",
            Kind::Text => "text",
            Kind::Vcd => "vcd",
        }
    }
}
