// What drafts and closed families hold.
ghost use Rattle.families.specs.Bounds.{FewStates, StartsInside, Room, LeaveStates, EnterStates};

// A step from one state by an action to another, there in the variants that `set` holds.
// Action 0 is silent.
#[derive(Clone, Copy, Debug, Default, PartialEq, Eq)]
pub struct Step<S> {
    pub from: u8,
    pub action: u8,
    pub to: u8,
    pub set: S,
}

// The places that follow a step in the list: the next one whose step leaves the same state, and the next silent one.
#[derive(Clone, Copy, Debug, PartialEq, Eq)]
pub struct Link {
    pub(crate) leaving: Option<u16>,
    pub(crate) silent: Option<u16>,
}

// The places of steps, for each state those that leave it, and the silent ones, each chain in list order.
#[derive(Clone, Copy)]
pub struct Index {
    // For each state, the first place whose step leaves it.
    pub(crate) first: [Option<u16>; 64],
    // The first silent place.
    pub(crate) silent: Option<u16>,
    // For each place, the next ones.
    pub(crate) links: [Link; 1024],
}

// The states, the start, a label for each state, and in lent memory the steps, of which the first `held` count.
#[derive(Drop)]
pub struct Parts<'a, S> {
    pub(crate) states: u8,
    pub(crate) start: u8,
    pub(crate) labels: [u16; 64],
    pub(crate) held: usize,
    pub(crate) steps: &'a mut [Step<S>],
    ghost few: { FewStates states },
    ghost inside: { StartsInside states start },
    ghost room: { Room steps.now held },
    ghost leaves: { LeaveStates steps.now held states },
    ghost enters: { EnterStates steps.now held states },
}

impl<'a, S: Copy> Parts<'a, S> {
    ghost use Rattle.std.specs.Prelude.{◌≡◌, ◌<◌, not, length, nat_lt};
    ghost use Rattle.families.specs.Parts.{capacity, Pushed};

    // Whether the capacity is reached.
    pub(crate) fn is_full(&self) -> bool
        ensures { result ≡ not (nat_lt self.now.held (capacity self.now)) }
    {
        self.held >= 1024 || self.held >= self.steps.len()
    }

    // Holds one step more.
    pub(crate) fn push(&mut self, step: Step<S>)
        requires room { self.old.held < capacity self.old }
        requires from { step.from < self.old.states }
        requires to { step.to < self.old.states }
        ensures { Pushed self.old step self.new }
    {
        self.steps[self.held] = step;
        self.held += 1;
    }
}
