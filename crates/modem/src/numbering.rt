// The numbers of the refusals: 10, and the flow's own.
ghost use Rattle.std.specs.Prelude.{◌≡◌, ◌+◌, ◌≤◌};
ghost use Rattle.modem.specs.Answer.{number_of};
ghost use Rattle.modem.specs.declared.FlowRefusal.TheVariants.{Call};

use crate::FlowRefusal;
use refusals::Refusal;

impl FlowRefusal {
    pub fn number(self) -> u32
        ensures { (result ≡ number_of self) × (result ≤ 10) }
    {
        match self {
            FlowRefusal::NoFlow => 10,
            FlowRefusal::Call(refusal) => refusal.number(),
        }
    }

    // The number that a C caller gets for it.
    pub fn code(self) -> u32
        ensures { result ≡ 100 + number_of self }
    {
        100 + self.number()
    }
}

impl From<Refusal> for FlowRefusal {
    ghost from_gives = { λ r e. e ≡ Call r };

    fn from(refusal: Refusal) -> FlowRefusal {
        FlowRefusal::Call(refusal)
    }
}
