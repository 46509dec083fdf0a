ghost use Rattle.std.specs.Prelude.{◌≡◌, ◌≢◌, ℕ, ◌≤◌, List, [], ◌∷◌, length, MatchOption};
ghost use Rattle.task_core.specs.Board.{Open, ended, is_dead, is_done, refused, started, without};
ghost use Rattle.twins.specs.Tasks.{is_idle, is_lone, list_of, twin_tried};

/// An attempt of this number is the last one of its task.
const LAST: u8 = 4;

/// The attempts of a task that run, by their numbers.
#[derive(Clone, Copy)]
pub enum Pair {
    /// None runs.
    Neither,
    /// This one runs.
    One(u8),
    /// Both run.
    Both(u8, u8),
}

impl Pair {
    /// Without one.
    pub(crate) fn without(self, number: u8) -> Pair
        ensures { list_of result ≡ without number (list_of self) }
    {
        match self {
            Pair::Neither => Pair::Neither,
            Pair::One(a) => {
                if a == number {
                    Pair::Neither
                } else {
                    Pair::One(a)
                }
            }
            Pair::Both(a, b) => {
                if a == number {
                    Pair::One(b)
                } else if b == number {
                    Pair::One(a)
                } else {
                    Pair::Both(a, b)
                }
            }
        }
    }
}

/// What a task has tried.
#[derive(Clone, Copy)]
pub enum Twin {
    /// The number of its next attempt, and what runs.
    Open(u8, Pair),
    /// An attempt has succeeded, and this still runs.
    Finished(Pair),
}

impl Twin {
    /// The number of its next attempt, where none runs and one is left.
    pub(crate) fn idle(self) -> Option<u8>
        ensures { MatchOption result ((a : ℕ) → a ≤ 4 → twin_tried self ≢ Open a [])
            (λ a. (twin_tried self ≡ Open a []) × (a ≤ 4)) }
    {
        match self {
            Twin::Open(next, Pair::Neither) if next <= LAST => Some(next),
            _ => None,
        }
    }

    /// Whether none runs and one is left.
    pub(crate) fn is_idle(self) -> bool
        ensures { result ≡ is_idle (twin_tried self) }
    {
        matches!(self, Twin::Open(next, Pair::Neither) if next <= LAST)
    }

    /// Whether just one runs and one is left.
    pub(crate) fn is_lone(self) -> bool
        ensures { result ≡ is_lone (twin_tried self) }
    {
        matches!(self, Twin::Open(next, Pair::One(_)) if next <= LAST)
    }

    /// The number of its next attempt, where just one runs and one is left.
    pub(crate) fn lone(self) -> Option<u8>
        ensures { MatchOption result ((a one : ℕ) → a ≤ 4 → twin_tried self ≢ Open a (one ∷ []))
            (λ a. (one : ℕ) × (twin_tried self ≡ Open a (one ∷ [])) × (a ≤ 4)) }
    {
        match self {
            Twin::Open(next, Pair::One(_)) if next <= LAST => Some(next),
            _ => None,
        }
    }

    /// After its next attempt was started.
    pub(crate) fn started(self) -> Twin
        requires { (a : ℕ) × (rs : List ℕ) × (twin_tried self ≡ Open a rs) × (a ≤ 4) × (length rs ≤ 1) }
        ensures { (a : ℕ) → (rs : List ℕ) → twin_tried self ≡ Open a rs → length rs ≤ 1 → twin_tried result ≡ started a (twin_tried self) }
    {
        match self {
            Twin::Open(next, Pair::Neither) => Twin::Open(next + 1, Pair::One(next)),
            Twin::Open(next, Pair::One(other)) => Twin::Open(next + 1, Pair::Both(next, other)),
            _ => self,
        }
    }

    /// After its next attempt could not be started.
    pub(crate) fn refused(self) -> Twin
        requires { (a : ℕ) × (rs : List ℕ) × (twin_tried self ≡ Open a rs) × (a ≤ 4) }
        ensures { (a : ℕ) → (rs : List ℕ) → twin_tried self ≡ Open a rs → twin_tried result ≡ refused a (twin_tried self) }
    {
        match self {
            Twin::Open(next, runs) => Twin::Open(next + 1, runs),
            Twin::Finished(_) => self,
        }
    }

    /// After the end of an attempt that ran.
    pub(crate) fn ended(self, number: u8, ok: bool) -> Twin
        ensures { twin_tried result ≡ ended number ok (twin_tried self) }
    {
        match self {
            Twin::Open(next, runs) => {
                if ok {
                    Twin::Finished(runs.without(number))
                } else {
                    Twin::Open(next, runs.without(number))
                }
            }
            Twin::Finished(runs) => Twin::Finished(runs.without(number)),
        }
    }

    /// Whether an attempt has succeeded.
    pub(crate) fn is_done(self) -> bool
        ensures { result ≡ is_done (twin_tried self) }
    {
        match self {
            Twin::Open(..) => false,
            Twin::Finished(_) => true,
        }
    }

    /// Whether four attempts failed.
    pub(crate) fn is_dead(self) -> bool
        ensures { result ≡ is_dead (twin_tried self) }
    {
        match self {
            Twin::Open(next, Pair::Neither) => next > LAST,
            _ => false,
        }
    }
}
