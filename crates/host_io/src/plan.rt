//! Which calls of an object in memory are to fail.
ghost use Rattle.std.specs.Prelude.{◌≡◌};
ghost use Rattle.host_io.specs.Planned.{after_call, planned};

/// A call that is to fail.
#[derive(Clone, Copy, Debug, PartialEq, Eq)]
pub struct Failing {
    /// The number of the call, from 0, among all calls of the object.
    pub call: u64,
    /// How many bytes an `append` or a `write_all` moves before it fails.
    pub moved: usize,
}

/// The calls that are to fail, and how many there were.
#[derive(Debug, Drop)]
pub struct Plan {
    pub failing: Vec<Failing>,
    pub calls: u64,
}

impl Plan {
    /// The plan before the first call.
    pub fn new(failing: Vec<Failing>) -> Self
        ensures { result ≡ record { failing = failing; calls = 0 } }
    {
        Plan { failing, calls: 0 }
    }

    /// Counts a call: how many bytes it moves before it fails, where it is to fail.
    pub fn next(&mut self) -> Option<usize>
        ensures failing { result ≡ planned self.old }
        ensures counted { self.new ≡ after_call self.old }
    {
        let call = self.calls;
        self.calls = self.calls.saturating_add(1);
        let failing = self.failing.iter().find(|failing| failing.call == call)?;
        Some(failing.moved)
    }
}
