// What a node does with its parts.
ghost use Rattle.std.specs.Prelude.{◌≡◌};
ghost use Rattle.play.specs.Mirror.Nodes.{kind_number, known_kind};

// Each has the number that it has in a node's low byte and in a rule file.
#[derive(Clone, Copy, PartialEq, Eq)]
pub enum Kind {
    Silent = 1,
    Event,
    Not,
    Either,
    Then,
    Repeat,
    Notify,
    Try,
}

// The kind that a number stands for; one that stands for none is silent.
impl From<u16> for Kind {
    #[tactic(auto, unfolding(crate::specs::Mirror::Nodes::known_kind))]
    fn from(number: u16) -> Kind
        ensures { kind_number result ≡ known_kind number }
    {
        match number {
            2 => Kind::Event,
            3 => Kind::Not,
            4 => Kind::Either,
            5 => Kind::Then,
            6 => Kind::Repeat,
            7 => Kind::Notify,
            8 => Kind::Try,
            _ => Kind::Silent,
        }
    }
}
