// Why a call was refused: one case for each refusal, with its detail.
ghost use Rattle.std.specs.Prelude.{◌≡◌};
ghost use Rattle.networks.specs.Faults.{refusal_of};

#[derive(Clone, Copy, Debug, PartialEq, Eq, Hash)]
pub enum Fault {
    // 1: no point, or too many
    Points,
    // 2: a condition names a point that is not there, or one point twice
    Named(usize),
    // 3: a condition has no window, or too many
    WindowCount(usize),
    // 4: an end of a condition's windows is too large
    EndSize(usize),
    // 5: a condition's windows do not rise
    WindowOrder(usize),
    // 6: too many conditions, or no room for one more
    Full,
    // 7: too many choice conditions
    Choices,
    // 8: lent memory is too short
    Memory,
    // 9: a point or a condition that the call names is not there
    Absent,
    // 10: the hulls admit no plan; a cycle of so many edges adds up below zero
    Cycle(usize),
    // 11: the hulls admit a plan, the conditions none
    NoPlan,
    // 12: too long a text, or not list text; the place of the fault
    Text(usize),
}

impl Fault {
    pub fn number(self) -> usize
        ensures { result ≡ (refusal_of self).number }
    {
        match self {
            Fault::Points => 1,
            Fault::Named(_) => 2,
            Fault::WindowCount(_) => 3,
            Fault::EndSize(_) => 4,
            Fault::WindowOrder(_) => 5,
            Fault::Full => 6,
            Fault::Choices => 7,
            Fault::Memory => 8,
            Fault::Absent => 9,
            Fault::Cycle(_) => 10,
            Fault::NoPlan => 11,
            Fault::Text(_) => 12,
        }
    }

    pub fn detail(self) -> usize
        ensures { result ≡ (refusal_of self).detail }
    {
        match self {
            Fault::Points
            | Fault::Full
            | Fault::Choices
            | Fault::Memory
            | Fault::Absent
            | Fault::NoPlan => 0,
            Fault::Named(k) | Fault::WindowCount(k) | Fault::EndSize(k) | Fault::WindowOrder(k) =>
                k,
            Fault::Cycle(edges) => edges,
            Fault::Text(place) => place,
        }
    }
}
